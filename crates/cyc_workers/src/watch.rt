//! When a draining worker may park, and when it may end.

ghost use Rattle.std.specs.Prelude.{◌≡◌, false, is_some};
ghost use Rattle.cyc_soft.specs.Serving.{EndsWithLook};

use crossbeam_utils::sync::Parker;
use cyc_soft::SoftSide;
use cyc_types::{Calls, Drain};
use std::snapshot::Snapshot;
use std::sync::{OnceToken, Wait};

/// The last question of a draining worker whether it is to stop, and its soft side at that moment (our own rule). A raise wakes
/// the worker after its entry stands in the buffer, so a worker that asks, looks at the buffer, and only then parks misses none;
/// and one that ends has looked once more after it was told to stop.
pub struct Watch<D, C> {
    /// It was told to stop.
    told: bool,
    /// What it had done before it asked.
    asked: Snapshot<SoftSide<D, C>>,
}

impl<D, C> Drop for Watch<D, C> {
    fn drop(self) {
        let Self { told: _, asked: _ } = self;
    }
}

impl<D: Drain, C: Calls> Watch<D, C> {
    /// The worker has asked whether it is to stop: `told` shows it where the answer is yes. It has still to look after this.
    pub(crate) fn ask(told: &Option<OnceToken<'_, ()>>, side: &SoftSide<D, C>) -> Watch<D, C>
        ensures told { result.told ≡ is_some told.now }
        ensures asked { result.asked.value ≡ side.now }
    {
        Watch {
            told: told.is_some(),
            asked: Snapshot::of(side),
        }
    }

    /// Whether it was told to stop.
    pub(crate) fn is_told(&self) -> bool
        ensures { result ≡ self.now.told }
    {
        self.told
    }

    /// Sleeps until it is unparked.
    pub(crate) fn park<W: Wait>(&self, rt: &W, parker: &Parker, side: &SoftSide<D, C>)
        requires goes_on { self.now.told ≡ false }
        requires looked { EndsWithLook D.Drain self.now.asked.value.drain side.now.drain }
    {
        let _ = side;
        parker.park(rt);
    }
}
