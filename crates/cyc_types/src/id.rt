//! The ids of cyclics.

ghost use Rattle.std.specs.Prelude.{◌≡◌, ℕ, ◌+◌, ◌-◌, ◌<◌, ◌≤◌, ◌↔◌, IsSome, IfSome, IfNone};
ghost use Rattle.cyc_types.specs.Limits.{last_id};

use crate::limits::LAST_ID;
use std::marker::Model;

/// The number of a cyclic, from 1 to `LAST_ID`. A number is never given twice (`cyclic_id_t` of sys/cyclic.h).
#[derive(Clone, Copy, Debug, PartialEq, Eq, PartialOrd, Ord)]
pub struct CyclicId {
    number: u64,
}

impl Model for CyclicId {
    ghost Value = { ℕ };

    ghost view = { λ a. a.number };

    ghost invariant = { λ a. (0 < a.number) × (a.number ≤ last_id) };

    ghost inverse = { λ n. record { number = n } };
}

impl CyclicId {
    /// The greatest id; none follows it.
    pub const LAST: CyclicId = CyclicId { number: LAST_ID };

    /// The greatest id, which is `LAST`. None follows it.
    pub fn last() -> CyclicId
        ensures value { result ≡ last_id }
    {
        CyclicId::LAST
    }

    /// The id of this number. None for 0 and for a number above `LAST_ID`.
    pub fn new(number: u64) -> Option<CyclicId>
        ensures valid { IsSome result ↔ ((0 < number) × (number ≤ last_id)) }
        ensures value { IfSome result (λ id. id ≡ number) }
    {
        if number > 0 && number <= LAST_ID {
            Some(CyclicId { number })
        } else {
            None
        }
    }

    /// The id of a number that is known to be one: no look is taken at it.
    pub fn from_valid(number: u64) -> CyclicId
        requires { (0 < number) × (number ≤ last_id) }
        ensures { result ≡ number }
    {
        CyclicId { number }
    }

    /// The number, from 1 to `LAST_ID`.
    pub fn number(self) -> u64
        ensures value { result ≡ self }
        ensures valid { (0 < result) × (result ≤ last_id) }
    {
        self.number
    }

    /// The id after this one. None after `LAST`.
    pub fn following(self) -> Option<CyclicId>
        ensures last { IfNone result (self ≡ last_id) }
        ensures valid { IsSome result ↔ (self < last_id) }
        ensures value { IfSome result (λ id. id ≡ self + 1) }
    {
        CyclicId::new(self.number + 1)
    }
}
