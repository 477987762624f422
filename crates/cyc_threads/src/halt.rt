//! Why a run ends early.

use cyc_types::{CyclicId, Refusal};

/// Why the steps of a script ended before the last one.
#[derive(Clone, Copy)]
pub enum Halt {
    /// The handler of this cyclic refused its call in a draining worker.
    Told(CyclicId),
    /// The fire of this CPU was refused, and that of no CPU with a smaller number.
    Fired {
        /// The number of the CPU.
        cpu: u32,
        /// Why.
        why: Refusal,
    },
    /// Memory alone: a thread of an `advance`, or memory for it, was refused.
    Refused(Refusal),
}
