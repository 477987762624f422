//! Handlers that refuse their first call.

ghost use Rattle.std.specs.Prelude.{◌≡◌, ℕ, ◌+◌, ◌∷◌, [], OnOk, OnErr};
ghost use Rattle.cyc_types.specs.Counting.{times};
ghost use Rattle.cyc_types.specs.Tally.{tally_count, tally_called};

use cyc_types::{Calls, CyclicId, Level, Refused, Tally};

/// Handlers that count the calls and refuse the first of all.
#[derive(Drop)]
pub(crate) struct RefusesFirst {
    tally: Tally,
    asked: bool,
}

impl RefusesFirst {
    pub(crate) fn new(tally: Tally) -> RefusesFirst {
        RefusesFirst {
            tally,
            asked: false,
        }
    }
}

impl Calls for RefusesFirst {
    ghost count = { λ handlers. tally_count handlers.tally };

    ghost called = { λ handlers id level after. tally_called handlers.tally id level after.tally };

    ghost may_refuse = { λ handlers id. Unit {0} };

    fn call(&mut self, id: CyclicId, level: Level) -> Result<(), Refused> {
        if !self.asked {
            self.asked = true;
            return Err(Refused);
        }
        self.tally.call(id, level)
    }
}
