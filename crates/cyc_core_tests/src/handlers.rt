//! Handlers that count the calls of each level.

ghost use Rattle.std.specs.Prelude.{◌≡◌, ℕ, ◌+◌, ◌∷◌, [], OnOk, OnErr};
ghost use Rattle.cyc_types.specs.Counting.{times};
ghost use Rattle.cyc_types.specs.Tally.{tally_count, tally_called};

use cyc_types::{Calls, CyclicId, Level, Refused, Tally};
use std::process::Abort;

/// The calls of each level.
#[derive(Clone, Copy, Debug, PartialEq, Eq)]
pub struct PerLevel {
    pub low: u32,
    pub lock: u32,
    pub high: u32,
}

impl PerLevel {
    fn count(&mut self, level: Level) {
        match level {
            Level::Low => self.low = self.low.wrapping_add(1),
            Level::Lock => self.lock = self.lock.wrapping_add(1),
            Level::High => self.high = self.high.wrapping_add(1),
        }
    }
}

/// Handlers that count the calls of each level and refuse one call of all.
#[derive(Drop)]
pub struct Handlers {
    pub tally: Tally,
    pub levels: PerLevel,
    asked: u32,
    /// The call that is refused, counted from 1; 0 for none.
    refused: u32,
}

impl Handlers {
    /// Handlers that count the ids 1 and 2 and refuse this call.
    pub fn new<R: AllocGlobal + Abort>(rt: &R, refused: u32) -> Handlers {
        let first = CyclicId::new(1).expect(rt, "an id");
        Handlers {
            tally: Tally::new(rt.alloc(), first, 2, 100).expect(rt, "a tally"),
            levels: PerLevel {
                low: 0,
                lock: 0,
                high: 0,
            },
            asked: 0,
            refused,
        }
    }

    /// Whether the next call is the refused one.
    fn refuses(&mut self) -> bool
        ensures { self.new.tally ≡ self.old.tally }
    {
        self.asked = self.asked.wrapping_add(1);
        self.asked == self.refused
    }
}

impl Calls for Handlers {
    ghost count = { λ handlers. tally_count handlers.tally };

    ghost called = { λ handlers id level after. tally_called handlers.tally id level after.tally };

    ghost may_refuse = { λ handlers id. Unit {0} };

    fn call(&mut self, id: CyclicId, level: Level) -> Result<(), Refused> {
        if self.refuses() {
            return Err(Refused);
        }
        self.levels.count(level);
        self.tally.call(id, level)
    }
}
