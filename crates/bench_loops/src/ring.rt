//! A ring: whole loops of calls on both of its ends, in one thread.

ghost use Rattle.std.specs.Prelude.{◌≡◌, ◌<◌, ◌≤◌};
ghost use Rattle.cyc_types.specs.Limits.{cyclics};
ghost use Rattle.bench_sides.specs.Ready.{IsNewLevel};
ghost use Rattle.cyc_ring.specs.Ends.{end_view};

use bench_sides::{fill, hand_overs};
use cyc_ring::{DrainEnd, RaiseEnd, Ring};
use cyc_types::{CYCLICS, Ceiling, Refusal};
use std::alloc::Global;

/// So many hand-overs on a new ring in its greatest bank, with the ids from 1 to `ids`.
fn run(alloc: Global, ceiling: Ceiling, ids: u16, rounds: u64) -> Result<u64, Refusal>
    requires { (0 < ids) × (ids ≤ cyclics) }
{
    let (ring, raise_seat, drain_seat) = Ring::open(alloc, ceiling, 0)?;
    let mut raise = RaiseEnd::new(&ring, raise_seat);
    let mut drain = DrainEnd::new(&ring, drain_seat);
    fill(&mut raise, ids);
    Ok(hand_overs(&mut raise, &mut drain, ids, rounds))
}

/// A ring with `ids` cyclics, from 1 to `CYCLICS`, and `rounds` hand-overs on it: one raise, one take and one finish, the ids
/// raised round. Answers how many of the calls were the last of their cyclic; 0 where memory is refused.
#[unsafe(no_mangle)]
pub extern "C" fn bench_ring(alloc: Global, ids: u16, rounds: u64) -> u64 {
    let Some(ceiling) = Ceiling::new(u32::MAX) else {
        return 0;
    };
    if ids == 0 || ids > CYCLICS {
        return 0;
    }
    run(alloc, ceiling, ids, rounds).unwrap_or(0)
}
