//! Handlers for tests: they count, note and refuse.
#![tactic(auto)]

ghost use Rattle.std.specs.Prelude.{◌≡◌, ℕ, ◌+◌, ◌∷◌, [], OnOk, OnErr};
ghost use Rattle.cyc_types.specs.Counting.{times};
ghost use Rattle.cyc_types.specs.Tally.{tally_count, tally_called};

use cyc_types::{CYCLICS, Calls, CyclicId, Level, Refused, Tally};
use std::alloc::{AllocError, Global};

/// How many of the calls are noted.
const NOTED: usize = 8;

/// Handlers of the ids 1 to `CYCLICS`. They count the calls of each, note the first ones, and refuse one call of all.
#[derive(Drop)]
pub struct Handlers {
    tally: Tally,
    noted: [Option<(u64, Level)>; NOTED],
    made: usize,
    asked: u32,
    refused: u32,
}

impl Handlers {
    /// The handlers that refuse this call, counted from 1; with 0 they refuse none.
    pub fn new(alloc: Global, refused: u32) -> Result<Handlers, AllocError> {
        let first = CyclicId::new(1).unwrap();
        Ok(Handlers {
            tally: Tally::new(alloc, first, usize::from(CYCLICS), u64::MAX)?,
            noted: [None; NOTED],
            made: 0,
            asked: 0,
            refused,
        })
    }

    /// The id and the level of the call of this number, counted from 0. None where it was not made or is not noted.
    pub fn noted(&self, number: usize) -> Option<(u64, Level)> {
        *self.noted.get(number)?
    }

    /// How often the handler of this id was called.
    pub fn count(&self, id: CyclicId) -> Option<u64> {
        self.tally.count(id)
    }
}

impl Calls for Handlers {
    ghost count = { λ handlers. tally_count handlers.tally };

    ghost called = { λ handlers id level after. tally_called handlers.tally id level after.tally };

    ghost may_refuse = { λ handlers id. Unit {0} };

    fn call(&mut self, id: CyclicId, level: Level) -> Result<(), Refused> {
        self.asked = self.asked.wrapping_add(1);
        if self.asked == self.refused {
            return Err(Refused);
        }
        self.tally.call(id, level)?;
        if self.made < NOTED {
            self.noted[self.made] = Some((id.number(), level));
            self.made += 1;
        }
        Ok(())
    }
}
