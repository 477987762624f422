//! The exports of the firing side.

ghost use Rattle.std.specs.Prelude.{◌≡◌, ℕ, Option};
ghost use Rattle.std.specs.Borrow.{sem};
ghost use denote.RawPtr.{Testable};
ghost use Rattle.cyc_border.specs.Border.{Through, add_numbers};
ghost use Rattle.cyclic_c.specs.Exports.{written};
ghost use Rattle.cyclic_c.specs.OutParameters.{number_behind, pointer_of, number_out};
ghost use Rattle.cyclic_c.specs.Exports.{ReprogramsOut, AddsOut, PendingOut, TotalsOut, PollsOut, FiresOut, RemovesOut, NextOut};
ghost use Rattle.cyclic_c.specs.Exports.{SuspendsOut, ResumesOut};
ghost use Rattle.cyc_border.specs.Pair.{raise_held, OnSide, FiresSide};

use crate::answers::{
    MISUSED, found_in, kept_of, named_in, number_of_answer, polled, removed_of, write_fired,
    write_totals,
};
use crate::handle_firing::CyclicFiring;
use crate::out_parameter::OutParameter;
use crate::records::{CyclicFired, CyclicReceipt, CyclicTotals};
use cyc_border::asking::{begin_remove, pending_of, reprogram, totals_at};
use cyc_border::calling::add;
use cyc_types::Moment;

/// Adds a cyclic of this id, which no other cyclic here has; `busy` gets the id of an open removal that refused it, else 0.
/// It may be null, and then nothing is written.
#[unsafe(no_mangle)]
pub unsafe extern "C" fn cyclic_firing_add(
    firing: &mut CyclicFiring,
    id: u64,
    level: u32,
    start: i64,
    interval: i64,
    now: i64,
    busy: *mut u64,
) -> u32
    ghost before: { Option ℕ }
    requires testable { Testable busy }
    requires* memory { sem 𝓛 (number_behind busy before) }
    ensures* { ∃ₛ (λ (after : Option ℕ). sem 𝓛 (number_behind busy after)
        ∗ ⌜ Through firing.old.inner.held firing.new.inner.held result
        (AddsOut raise_held OnSide (add_numbers id level start interval now) result after) ⌝) }
{
    let busy = unsafe { OutParameter::behind(busy) };
    added(firing, id, level, start, interval, now, busy).0
}

/// The add, with the number of its answer and the out-parameter again.
fn added(
    firing: &mut CyclicFiring,
    id: u64,
    level: u32,
    start: i64,
    interval: i64,
    now: i64,
    busy: Option<OutParameter>,
) -> (u32, Option<OutParameter>)
    ensures done { Through firing.old.inner.held firing.new.inner.held result.0
        (AddsOut raise_held OnSide (add_numbers id level start interval now) result.0 (number_out result.1)) }
    ensures pointer { pointer_of result.1 ≡ pointer_of busy }
{
    if !firing.open {
        return (MISUSED, busy);
    }
    let open = firing.inner.lend();
    let answer = add(&mut open.hard, id, level, start, interval, now);
    (
        number_of_answer(&answer),
        OutParameter::written(busy, named_in(&answer)),
    )
}

/// Gives a cyclic another next expiration (`reprogram` of the CPU).
#[unsafe(no_mangle)]
pub extern "C" fn cyclic_firing_reprogram(firing: &mut CyclicFiring, id: u64, moment: i64) -> u32
    ensures { Through firing.old.inner.held firing.new.inner.held result
        (ReprogramsOut raise_held OnSide id moment result) }
{
    if !firing.open {
        return MISUSED;
    }
    let open = firing.inner.lend();
    let answer = reprogram(&mut open.hard, id, moment);
    number_of_answer(&answer)
}

/// Begins the removal of a cyclic. Done at once, `receipt` is written and `kept` is 0; else `kept` gets the calls that are
/// outstanding. Where it is refused `kept` is 0, and `busy`, which may be null, gets the id of the open removal.
#[unsafe(no_mangle)]
pub unsafe extern "C" fn cyclic_firing_begin_remove(
    firing: &mut CyclicFiring,
    id: u64,
    kept: &mut u32,
    receipt: &mut CyclicReceipt,
    busy: *mut u64,
) -> u32
    ghost before: { Option ℕ }
    requires testable { Testable busy }
    requires* memory { sem 𝓛 (number_behind busy before) }
    ensures* { ∃ₛ (λ (after : Option ℕ). sem 𝓛 (number_behind busy after)
        ∗ ⌜ Through firing.old.inner.held firing.new.inner.held result (RemovesOut raise_held OnSide id result
        (record { kept = kept.new; receipt = receipt.new; busy = after })) ⌝) }
{
    let busy = unsafe { OutParameter::behind(busy) };
    removal_begun(firing, id, kept, receipt, busy).0
}

/// The begin of a removal, with the number of its answer and the out-parameter again.
fn removal_begun(
    firing: &mut CyclicFiring,
    id: u64,
    kept: &mut u32,
    receipt: &mut CyclicReceipt,
    busy: Option<OutParameter>,
) -> (u32, Option<OutParameter>)
    ensures done { Through firing.old.inner.held firing.new.inner.held result.0 (RemovesOut raise_held OnSide id result.0
        (record { kept = kept.new; receipt = receipt.new; busy = number_out result.1 })) }
    ensures pointer { pointer_of result.1 ≡ pointer_of busy }
{
    if !firing.open {
        return (MISUSED, busy);
    }
    let open = firing.inner.lend();
    let answer = begin_remove(&mut open.hard, id);
    *kept = kept_of(&answer);
    *receipt = removed_of(&answer);
    let busy = OutParameter::written(busy, named_in(&answer));
    (number_of_answer(&answer), busy)
}

/// Ends the open removal where its last call was made, and writes the receipt; else `receipt` gets the id 0.
#[unsafe(no_mangle)]
pub extern "C" fn cyclic_firing_poll_remove(
    firing: &mut CyclicFiring,
    receipt: &mut CyclicReceipt,
) -> u32
    ensures { Through firing.old.inner.held firing.new.inner.held result
        (PollsOut raise_held OnSide result receipt.new) }
{
    if !firing.open {
        return MISUSED;
    }
    let open = firing.inner.lend();
    let answer = open.hard.poll_remove();
    *receipt = polled(answer);
    0
}

/// Makes the expirations that are due, up to the next high one, whose handler the caller is then to call before it goes on with
/// the same moment. While the CPU is suspended it answers Suspended, and changes nothing (`suspended_fire_law`).
#[unsafe(no_mangle)]
pub extern "C" fn cyclic_firing_fire(
    firing: &mut CyclicFiring,
    now: i64,
    fired: &mut CyclicFired,
) -> u32
    ensures { Through firing.old.inner.held firing.new.inner.held result
        (FiresOut FiresSide now result (written fired.old fired.new)) }
{
    if !firing.open {
        return MISUSED;
    }
    let open = firing.inner.lend();
    let Ok(moment) = Moment::new(now) else {
        return 2;
    };
    let answer = open.fire(moment);
    write_fired(answer, fired)
}

/// The calls of the cyclic that are outstanding, 0 where it is refused.
#[unsafe(no_mangle)]
pub extern "C" fn cyclic_firing_pending(
    firing: &mut CyclicFiring,
    id: u64,
    pending: &mut u32,
) -> u32
    ensures { Through firing.old.inner.held firing.new.inner.held result
        (PendingOut raise_held OnSide id result pending.new) }
{
    if !firing.open {
        return MISUSED;
    }
    let open = firing.inner.lend();
    let answer = pending_of(&mut open.hard, id);
    *pending = found_in(&answer);
    number_of_answer(&answer)
}

/// The counts of the cyclic; `totals` is written where they are there.
#[unsafe(no_mangle)]
pub extern "C" fn cyclic_firing_totals(
    firing: &mut CyclicFiring,
    id: u64,
    totals: &mut CyclicTotals,
) -> u32
    ensures { Through firing.old.inner.held firing.new.inner.held result
        (TotalsOut raise_held OnSide id result totals.old totals.new) }
{
    if !firing.open {
        return MISUSED;
    }
    let open = firing.inner.lend();
    let answer = totals_at(&mut open.hard, id);
    write_totals(&answer, totals);
    number_of_answer(&answer)
}

/// The least expiration of the CPU, never where there is none.
#[unsafe(no_mangle)]
pub extern "C" fn cyclic_firing_next(firing: &mut CyclicFiring, moment: &mut i64) -> u32
    ensures { Through firing.old.inner.held firing.new.inner.held result (NextOut raise_held OnSide result moment.new) }
{
    if !firing.open {
        return MISUSED;
    }
    let open = firing.inner.lend();
    let next = open.hard.next();
    *moment = next.nanoseconds() as i64;
    0
}

/// Suspends the CPU: no fire is made until `cyclic_firing_resume`, and all else goes on, on the soft sides too. Refuses with
/// Misused where it is closed, and nothing else, also where it is suspended. Takes no memory.
#[unsafe(no_mangle)]
pub extern "C" fn cyclic_firing_suspend(firing: &mut CyclicFiring) -> u32
    ensures { Through firing.old.inner.held firing.new.inner.held result (SuspendsOut raise_held OnSide result) }
{
    if !firing.open {
        return MISUSED;
    }
    let open = firing.inner.lend();
    open.hard.suspend();
    0
}

/// Resumes the CPU: fires are made again. Refuses with Misused where it is closed, and nothing else, also where it is not
/// suspended. Takes no memory.
#[unsafe(no_mangle)]
pub extern "C" fn cyclic_firing_resume(firing: &mut CyclicFiring) -> u32
    ensures { Through firing.old.inner.held firing.new.inner.held result (ResumesOut raise_held OnSide result) }
{
    if !firing.open {
        return MISUSED;
    }
    let open = firing.inner.lend();
    open.hard.resume();
    0
}
