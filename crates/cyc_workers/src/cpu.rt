//! What a CPU in threads has of each kind.

use cyc_ring::{DrainSeat, RaiseSeat};

/// The handlers of a CPU: those of its high level, which its firing worker calls, and those of its soft levels.
#[derive(Drop)]
pub struct Handlers<C> {
    pub high: C,
    pub lock: C,
    pub low: C,
}

/// The two seats of a ring.
#[derive(Drop)]
pub struct Seats {
    pub raise: RaiseSeat,
    pub drain: DrainSeat,
}
