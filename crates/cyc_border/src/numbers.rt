//! The refusals as numbers.

ghost use Rattle.std.specs.Prelude.{◌≡◌, IsSome, IfSome};
ghost use Rattle.cyc_border.specs.Numbers.{number_of_refusal, answer_of, id_in_refusal, level_numbered, soft_named};
ghost use Rattle.cyc_border.specs.declared.numbers.Denied.TheVariants as denied;

use cyc_types::{Level, Refusal, Soft};

/// Why a call over the border was refused.
#[derive(Clone, Copy, Debug, PartialEq, Eq)]
pub enum Denied {
    /// The caller has not done what it owes: the handle is closed, an argument is out of its range, or the call out of turn.
    Misused,
    /// A cyclic here has this id.
    Taken,
    /// The library has refused.
    Refused(Refusal),
}

impl From<Refusal> for Denied {
    ghost from_gives = { λ refusal d. d ≡ denied.Refused refusal };

    fn from(refusal: Refusal) -> Denied {
        Denied::Refused(refusal)
    }
}

impl Denied {
    /// The number by which C tells it.
    pub fn number(&self) -> u32
        ensures { result ≡ number_of_refusal self.now }
    {
        match self {
            Denied::Misused => 64,
            Denied::Taken => 65,
            Denied::Refused(refusal) => u32::from(refusal.number()),
        }
    }

    /// The id that the refusal names, 0 where it names none.
    pub fn id(&self) -> u64
        ensures { result ≡ id_in_refusal self.now }
    {
        match self {
            Denied::Refused(Refusal::Busy(id)) => id.number(),
            Denied::Refused(Refusal::CountSpent(id)) => id.number(),
            Denied::Refused(Refusal::HandlerRefused(id)) => id.number(),
            _ => 0,
        }
    }
}

/// The level of this number: 0 low, 1 lock, 2 high.
pub fn level_of(number: u32) -> Option<Level>
    ensures { result ≡ level_numbered number }
{
    match number {
        0 => Some(Level::Low),
        1 => Some(Level::Lock),
        2 => Some(Level::High),
        _ => None,
    }
}

/// The soft level of this number: 0 low, 1 lock.
pub fn soft_of(number: u32) -> Option<Soft>
    ensures { result ≡ soft_named number }
{
    match number {
        0 => Some(Soft::Low),
        1 => Some(Soft::Lock),
        _ => None,
    }
}
