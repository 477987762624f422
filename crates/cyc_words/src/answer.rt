//! What a word answers.

use cyc_agreement::SystemRemoval;
use cyc_types::{CyclicId, JuggleReport};

/// What a word that was done answers.
#[derive(Clone, Copy, Debug, PartialEq, Eq)]
pub enum WordAnswer {
    /// The name got the cyclic of this id.
    Added(CyclicId),
    /// The removal of the name's cyclic has begun.
    Removing(SystemRemoval),
    /// What became of the cyclics of the CPU.
    Juggled(JuggleReport),
    /// No more than that it was done.
    Done,
}
