//! Loops of calls that the benchmarks of the levels share, over any firing side and any soft side.
#![tactic(auto)]

ghost use Rattle.std.specs.Prelude.{◌≡◌, ◌+◌, ◌-◌, ◌<◌, ◌≤◌, ◌^◌, IsSome};
ghost use Rattle.std.specs.Bool.{OnTrue};
ghost use Rattle.cyc_types.specs.Limits.{cyclics};
ghost use Rattle.bench_sides.specs.Ready.{IsNewLevel, IsReadyLevel, IsFilledLevel};

use cyc_types::{CyclicId, Drain, Finished, GREATEST_BANK, Index, Raise};
use std::hint;

/// Admits the next id at its index.
fn admit_next<R: Raise>(raise: &mut R, number: u16)
    requires number { number < cyclics }
    requires filled { IsFilledLevel number (R.view raise.old) }
    ensures { IsFilledLevel (number + 1) (R.view raise.new) }
{
    if let (Some(id), Some(index)) = (CyclicId::new(u64::from(number) + 1), Index::new(number)) {
        raise.admit(id, index);
    }
}

/// Switches a new level to its greatest bank, and admits the ids from 1 to `ids` there.
pub fn fill<R: Raise>(raise: &mut R, ids: u16)
    requires few { ids ≤ cyclics }
    requires new { IsNewLevel (R.view raise.old) }
    ensures { IsFilledLevel ids (R.view raise.new) }
{
    raise.expand(GREATEST_BANK);
    for index in 0..ids {
        admit_next(raise, index);
    }
}

/// Raises the id once.
fn raise_one<R: Raise>(raise: &mut R, id: CyclicId, ids: u16, most: u64)
    requires id { id ≤ ids }
    requires most { most < 2 ^ 64 - 1 }
    requires ready { IsReadyLevel ids most (R.view raise.old) }
    ensures { IsReadyLevel ids (most + 1) (R.view raise.new) }
{
    let _number = id.number();
    let _raised = raise.raise(id);
}

/// The number after this one, round from 1 to `ids`.
fn following(number: u64, ids: u16) -> u64
    requires some { 0 < ids }
    ensures { (0 < result) × (result ≤ ids) }
{
    if number < u64::from(ids) {
        number + 1
    } else {
        1
    }
}

/// Looks until no call of the id is outstanding.
fn wait_done<R: Raise>(raise: &mut R, id: CyclicId, ids: u16, most: u64)
    requires id { id ≤ ids }
    requires ready { IsReadyLevel ids most (R.view raise.old) }
    ensures { IsReadyLevel ids most (R.view raise.new) }
{
    let _number = id.number();
    for _ in 0..u64::MAX {
        if raise.load_pend(id) == 0 {
            break;
        }
        hint::spin_loop();
    }
}

/// Raises so many times, the ids from 1 to `ids` round, each only where its calls are done: so each goes through the buffer.
pub fn raise_done<R: Raise>(raise: &mut R, ids: u16, rounds: u64)
    requires some { 0 < ids }
    requires ready { IsReadyLevel ids 0 (R.view raise.old) }
{
    let mut number = 1;
    for round in 0..rounds {
        if let Some(id) = CyclicId::new(number) {
            wait_done(raise, id, ids, round);
            raise_one(raise, id, ids, round);
        }
        number = following(number, ids);
    }
}

/// Whether a cyclic is in hand, after one look where none was.
fn has_taken<D: Drain>(drain: &mut D) -> bool
    ensures { OnTrue result (IsSome (D.held drain.new)) }
{
    drain.hand().is_some() || drain.take().is_some()
}

/// Takes the next cyclic where the hand is empty, and finishes one call of the cyclic in hand. The answer is 1 where it was
/// the last call of its cyclic.
fn serve_one<D: Drain>(drain: &mut D) -> u64 {
    if !has_taken(drain) {
        return 0;
    }
    match drain.finish() {
        Finished::Last => 1,
        Finished::More | Finished::LastOfRemoval => 0,
    }
}

/// Takes and finishes until so many calls are finished.
pub fn serve_until<D: Drain>(drain: &mut D, calls: u64) -> u64 {
    let mut made = 0;
    for _ in 0..u64::MAX {
        if made >= calls {
            break;
        }
        if has_taken(drain) {
            drain.finish();
            made += 1;
        } else {
            hint::spin_loop();
        }
    }
    made
}

/// So many times one raise, one take and one finish, the ids raised round. The answer is the number of calls that were the
/// last of their cyclic.
pub fn hand_overs<R: Raise, D: Drain>(raise: &mut R, drain: &mut D, ids: u16, rounds: u64) -> u64
    requires some { 0 < ids }
    requires ready { IsReadyLevel ids 0 (R.view raise.old) }
{
    let mut number = 1;
    let mut last: u64 = 0;
    for round in 0..rounds {
        if let Some(id) = CyclicId::new(number) {
            raise_one(raise, id, ids, round);
            last = last.wrapping_add(serve_one(drain));
        }
        number = following(number, ids);
    }
    last
}
