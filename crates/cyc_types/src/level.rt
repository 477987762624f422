//! Levels, indexes and ceilings.

ghost use Rattle.std.specs.Prelude.{◌≡◌, ℕ, ◌-◌, ◌<◌, ◌≤◌, ◌^◌, ◌↔◌, IsSome, IfSome};
ghost use Rattle.cyc_types.specs.Limits.{cyclics, greatest_ceiling};
ghost use Rattle.cyc_types.specs.Levels.{as_level};

use crate::limits::CYCLICS;
use std::marker::Model;

/// The level at which a cyclic's handler is called (`cyc_level_t` of sys/cyclic.h).
#[derive(Clone, Copy, Debug, PartialEq, Eq)]
pub enum Level {
    Low,
    Lock,
    High,
}

/// A level that has a soft interrupt and a producer-consumer buffer: every level but high.
#[derive(Clone, Copy, Debug, PartialEq, Eq)]
pub enum Soft {
    Low,
    Lock,
}

impl From<Soft> for Level {
    ghost from_gives = { λ soft level. level ≡ as_level soft };

    fn from(soft: Soft) -> Level {
        match soft {
            Soft::Low => Level::Low,
            Soft::Lock => Level::Lock,
        }
    }
}

/// The greatest pend of a cyclic of one level, from 1 to 2^32-1. An expiration that finds the pend there is lost (our own rule).
#[derive(Clone, Copy, Debug, PartialEq, Eq, PartialOrd, Ord)]
pub struct Ceiling {
    calls: u32,
}

impl Model for Ceiling {
    ghost Value = { ℕ };

    ghost view = { λ a. a.calls };

    ghost invariant = { λ a. (0 < a.calls) × (a.calls ≤ greatest_ceiling) };

    ghost inverse = { λ n. record { calls = n } };
}

impl Ceiling {
    /// The ceiling of this many calls. None for 0.
    pub fn new(calls: u32) -> Option<Ceiling>
        ensures valid { IsSome result ↔ (0 < calls) }
        ensures value { IfSome result (λ ceiling. ceiling ≡ calls) }
    {
        if calls > 0 {
            Some(Ceiling { calls })
        } else {
            None
        }
    }

    /// The number of calls, at least 1.
    pub fn calls(self) -> u32
        ensures value { result ≡ self }
        ensures valid { (0 < result) × (result ≤ greatest_ceiling) }
    {
        self.calls
    }
}

/// The index of a cyclic on its CPU, below `CYCLICS` (`cyc_index_t` of sys/cyclic_impl.h).
#[derive(Clone, Copy, Debug, PartialEq, Eq, PartialOrd, Ord)]
pub struct Index {
    number: u16,
}

impl Model for Index {
    ghost Value = { ℕ };

    ghost view = { λ a. a.number };

    ghost invariant = { λ a. a.number < cyclics };

    ghost inverse = { λ n. record { number = n } };
}

impl Index {
    /// The index of this number. None from `CYCLICS` on.
    pub fn new(number: u16) -> Option<Index>
        ensures valid { IsSome result ↔ (number < cyclics) }
        ensures value { IfSome result (λ index. index ≡ number) }
    {
        if number < CYCLICS {
            Some(Index { number })
        } else {
            None
        }
    }

    /// The number, below `CYCLICS`.
    pub fn number(self) -> u16
        ensures value { result ≡ self }
        ensures valid { result < cyclics }
    {
        self.number
    }
}
