//! The soft interrupt: it takes cyclics from a level's buffer and calls their handlers.
#![tactic(auto)]

ghost use Rattle.std.specs.Prelude.{◌≡◌, ℕ, None, IfNone};
ghost use Rattle.cyc_types.specs.Draining.{Takes};
ghost use Rattle.cyc_types.specs.Levels.{as_level, handler_at};
ghost use Rattle.cyc_types.specs.Runs.{DrainGoes};
ghost use Rattle.cyc_soft.specs.Serving.{IsSoftint, look_of, soft_side};

use cyc_types::calls::{Calls, Refused};
use cyc_types::draining::Drain;
use cyc_types::id::CyclicId;
use cyc_types::level::{Level, Soft};

/// What a soft interrupt did.
#[derive(Clone, Copy, Debug, PartialEq, Eq)]
pub struct Ran {
    /// The handler calls that it made.
    pub calls: u32,
    /// It stopped because the buffer was empty, and not because the budget was used up.
    pub idle: bool,
}

/// The handler of this cyclic refused its call. The cyclic stays in hand, and its call is the next.
#[derive(Clone, Copy, Debug, PartialEq, Eq)]
pub struct SoftRefused {
    /// The cyclic in hand.
    pub id: CyclicId,
    /// The handler calls that were made before.
    pub calls: u32,
}

/// The soft side of a level, and the handlers of its calls.
#[derive(Drop)]
pub struct SoftSide<D, C> {
    pub drain: D,
    pub calls: C,
}

/// The cyclic in hand, taken from the buffer where the hand is empty.
fn in_hand<D: Drain>(drain: &mut D) -> Option<CyclicId>
    ensures hand { D.held drain.new ≡ result }
    ensures way { DrainGoes D.Drain drain.old (look_of (D.held drain.old) result) drain.new }
    ensures still { (q : ℕ) → D.made drain.new q ≡ D.made drain.old q }
    ensures none { IfNone result ((D.held drain.old ≡ None) × D.step drain.old (Takes None) drain.new) }
{
    match drain.hand() {
        Some(id) => Some(id),
        None => drain.take(),
    }
}

/// Makes at most `budget` handler calls at `level` (`cyclic_softint` of cyclic.c; the budget is our own rule).
///
/// It goes on with the cyclic in hand until no call of it is pending, then takes the next from the buffer. It stops after
/// `budget` calls with no further look, or earlier where a look found nothing, and then it is idle. A call is counted as done
/// only after its handler answered Ok: a refused call stays the next one. It takes no memory and does not wait.
#[inline(always)]
pub fn softint<D: Drain, C: Calls>(
    drain: &mut D,
    calls: &mut C,
    level: Soft,
    budget: u32,
) -> Result<Ran, SoftRefused>
    ensures { IsSoftint D.Drain (handler_at C.Calls (as_level level)) budget result (soft_side drain.old calls.old)
        (soft_side drain.new calls.new) }
{
    for done in 0..budget {
        let Some(id) = in_hand(drain) else {
            return Ok(Ran {
                calls: done,
                idle: true,
            });
        };
        match calls.call(id, Level::from(level)) {
            Ok(()) => drain.finish(),
            Err(Refused) => return Err(SoftRefused { id, calls: done }),
        };
    }
    Ok(Ran {
        calls: budget,
        idle: false,
    })
}
