//! A CPU with the calls that its user has in hand.

ghost use Rattle.std.specs.Prelude.{◌≡◌};

use cyc_core::LevelCore;
use cyc_cpu::Hard;
use cyc_types::CyclicId;

/// A CPU that one thread uses, and the calls of handlers that its user has in hand.
#[derive(Drop)]
pub struct Cpu {
    pub hard: Hard<LevelCore>,
    /// The high cyclic that is handed out: the last fire stopped in front of it, but for those that were refused at once.
    pub high: Option<CyclicId>,
    /// The cyclic of the lock level whose call was taken and is not finished.
    pub lock: Option<CyclicId>,
    /// The same of the low level.
    pub low: Option<CyclicId>,
}
