//! The soft interrupt over a ring, and what its answer `idle` means there.

ghost use Rattle.std.specs.Prelude.{IfOk, IsTrue};
ghost use Rattle.cyc_types.specs.Levels.{as_level, handler_at};
ghost use Rattle.cyc_soft.specs.Serving.{IsSoftint, soft_side};
ghost use Rattle.cyc_ring.specs.Ends.{drain_end, FoundIdle};

use crate::DrainEnd;
use crate::laws::idle_is_found;
use cyc_soft::{Ran, SoftRefused};
use cyc_types::{Calls, Soft};

/// Makes at most `budget` handler calls at `level` from a ring's buffer (`cyclic_softint` of cyclic.c; the budget is our own
/// rule).
///
/// It is `cyc_soft::softint` at the soft side of a ring. Where it answers idle, its last two steps were loads: that of the hard
/// bank found the bank that the soft side drains, and after it that of this bank's producer word found the consumer index.
/// Where the budget is used up it is not idle, and does not look further. It refuses only where a handler did: that cyclic
/// stays in hand, and its call is the next. It takes no memory and does not wait.
pub fn softint<C: Calls>(
    drain: &mut DrainEnd<'_>,
    calls: &mut C,
    level: Soft,
    budget: u32,
) -> Result<Ran, SoftRefused>
    ensures did { IsSoftint drain_end (handler_at C.Calls (as_level level)) budget result (soft_side drain.old calls.old)
        (soft_side drain.new calls.new) }

    // Where it is idle it has looked, last: at the hard bank, which is the soft side's, and then at its producer word.
    ensures found { IfOk result (λ r. IsTrue r.idle → FoundIdle drain.old drain.new) }
{
    idle_is_found();
    cyc_soft::softint(drain, calls, level, budget)
}
