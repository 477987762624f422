//! What wakes draining workers.

use crossbeam_utils::sync::Unparker;

/// What wakes the two draining workers of a CPU.
#[derive(Drop)]
pub struct Wakers {
    pub lock: Unparker,
    pub low: Unparker,
}

impl Wakers {
    /// Wakes both, or lets each that is awake sleep no sooner than after one more look.
    pub fn wake(&self) {
        self.lock.unpark();
        self.low.unpark();
    }
}
