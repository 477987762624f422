//! When the CPU's timer is to interrupt.

ghost use Rattle.std.specs.Prelude.{◌≡◌};
ghost use Rattle.cyc_types.specs.Timers.{earliest};
ghost use Rattle.cyc_timers.specs.Rows.{timers};

use crate::hard::Hard;
use cyc_types::{Moment, Raise};

impl<R: Raise> Hard<R> {
    /// The least expiration, `NEVER` where there is none: the moment at which the CPU's timer is to interrupt (the end of
    /// `cyclic_fire`). Takes no memory.
    pub fn next(&self) -> Moment
        ensures { result ≡ earliest (timers self.now.cyclics) }
    {
        self.table.law();
        match self.table.root() {
            Some((_, moment, _)) => moment,
            None => Moment::NEVER,
        }
    }
}
