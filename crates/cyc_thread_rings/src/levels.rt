//! What each CPU of a system has of its two soft levels.

use cyc_workers::{Handlers, Seats};

/// One thing of each soft level of a CPU.
#[derive(Drop)]
pub struct Levels<T> {
    pub lock: T,
    pub low: T,
}

/// The seats of the two rings of a CPU, and its handlers.
#[derive(Drop)]
pub struct Seated<C> {
    pub seats: Levels<Seats>,
    pub calls: Handlers<C>,
}
