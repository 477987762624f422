//! What a removal answers.

ghost use Rattle.std.specs.Prelude.{◌≡◌, ◌-◌, ◌≤◌};

use crate::id::CyclicId;

/// What a removal answers: the counts of a cyclic over all its stays (our own).
#[derive(Clone, Copy, Debug, PartialEq, Eq)]
pub struct Receipt {
    pub id: CyclicId,
    /// The expirations.
    pub sent: u128,
    /// Those of them that were lost at the ceiling.
    pub lost: u128,
    pub ghost counted: { lost ≤ sent },
}

impl Receipt {
    /// The calls of the handler that were made: one for each expiration that was not lost.
    pub fn calls(self) -> u128
        ensures { result ≡ self.sent - self.lost }
    {
        self.sent - self.lost
    }
}
