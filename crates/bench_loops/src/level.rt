//! A plain level: whole loops of calls.

ghost use Rattle.std.specs.Prelude.{◌+◌, ◌-◌, ◌<◌, ◌≤◌, ◌^◌, IfOk};
ghost use Rattle.cyc_types.specs.Limits.{cyclics};
ghost use Rattle.cyc_core.specs.Tables.{level_of};
ghost use Rattle.cyc_core.specs.FiringSide.{firing_view};
ghost use Rattle.bench_sides.specs.Ready.{IsReadyLevel, IsFilledLevel};

use bench_sides::fill;
use cyc_core::LevelCore;
use cyc_types::{CYCLICS, Ceiling, CyclicId, Drain, Finished, Raise, Refusal};
use std::alloc::Global;

/// A level in its greatest bank with the ids from 1 to `ids` admitted.
fn filled(alloc: Global, ceiling: Ceiling, ids: u16) -> Result<LevelCore, Refusal>
    requires { ids ≤ cyclics }
    ensures { IfOk result (λ core. IsFilledLevel ids (firing_view (level_of core))) }
{
    let mut core = LevelCore::new(alloc, ceiling)?;
    fill(&mut core, ids);
    Ok(core)
}

/// One raise of the id, one take and one finish. The answer is 1 where it was the last call of its cyclic.
fn hand_over(core: &mut LevelCore, id: CyclicId, ids: u16, most: u64) -> u64
    requires id { (0 < id) × (id ≤ ids) }
    requires most { most < 2 ^ 64 - 1 }
    requires ready { IsReadyLevel ids most (firing_view (level_of core.old)) }
    ensures { IsReadyLevel ids (most + 1) (firing_view (level_of core.new)) }
{
    let _raised = core.raise(id);
    take_next(core, ids, most + 1);
    finish_next(core, ids, most + 1)
}

/// Takes the next cyclic where the hand is empty.
fn take_next(core: &mut LevelCore, ids: u16, most: u64)
    requires { IsReadyLevel ids most (firing_view (level_of core.old)) }
    ensures { IsReadyLevel ids most (firing_view (level_of core.new)) }
{
    if core.hand().is_none() {
        let _taken = core.take();
    }
}

/// Finishes one call of the cyclic in hand.
fn finish_next(core: &mut LevelCore, ids: u16, most: u64) -> u64
    requires { IsReadyLevel ids most (firing_view (level_of core.old)) }
    ensures { IsReadyLevel ids most (firing_view (level_of core.new)) }
{
    let Some(_id) = core.hand() else {
        return 0;
    };
    match core.finish() {
        Finished::Last => 1,
        Finished::More | Finished::LastOfRemoval => 0,
    }
}

/// So many hand-overs, the ids raised round. The answer is the number of calls that were the last of their cyclic.
fn hand_overs(core: &mut LevelCore, ids: u16, rounds: u64) -> u64
    requires some { 0 < ids }
    requires ready { IsReadyLevel ids 0 (firing_view (level_of core.old)) }
{
    let mut number = 1;
    let mut last: u64 = 0;
    for round in 0..rounds {
        if let Some(id) = CyclicId::new(number) {
            last = last.wrapping_add(hand_over(core, id, ids, round));
        }
        number = if number < u64::from(ids) {
            number + 1
        } else {
            1
        };
    }
    last
}

/// A level with `ids` cyclics, from 1 to `CYCLICS`, and `rounds` hand-overs on it. 0 where memory is refused.
#[unsafe(no_mangle)]
pub extern "C" fn rattle_hand_overs(alloc: Global, ids: u16, rounds: u64) -> u64 {
    let Some(ceiling) = Ceiling::new(u32::MAX) else {
        return 0;
    };
    if ids == 0 || ids > CYCLICS {
        return 0;
    }
    match filled(alloc, ceiling, ids) {
        Ok(mut core) => hand_overs(&mut core, ids, rounds),
        Err(_refusal) => 0,
    }
}
