//! The exports that open, close and drain a CPU on one thread.

ghost use Rattle.std.specs.Prelude.{◌≡◌, ℕ, Option};
ghost use Rattle.std.specs.Borrow.{sem};
ghost use denote.RawPtr.{Testable};
ghost use Rattle.cyc_border.specs.Border.{Through};
ghost use Rattle.cyclic_c.specs.Exports.{OpensHandle, Closes, ReprogramsOut, AddsOut, PendingOut, TotalsOut, PollsOut, TakesOut};
ghost use Rattle.cyclic_c.specs.Exports.{FinishesOut, FiresOut, RemovesOut, NextOut, SuspendsOut, ResumesOut, OnHard};
ghost use Rattle.cyc_border.specs.Border.{FiresCpu, add_numbers};
ghost use Rattle.cyclic_c.specs.Exports.{written};
ghost use Rattle.cyclic_c.specs.OutParameters.{number_behind, pointer_of, number_out};
ghost use Rattle.cyc_cpu.specs.Soft.{raise_tables};

use crate::answers::{
    MISUSED, found_in, kept_of, named_in, number_of_answer, or_zero, polled, removed_of,
    write_fired, write_totals,
};
use crate::handle::CyclicCpu;
use crate::out_parameter::OutParameter;
use crate::records::{CyclicFired, CyclicReceipt, CyclicTotals};
use cyc_border::asking::{begin_remove, pending_of, reprogram, totals_at};
use cyc_border::calling::add;
use cyc_border::numbers::soft_of;
use cyc_border::opening::opened;
use cyc_types::{Ceiling, Moment};
use std::alloc::Global;

/// Opens a CPU with no cyclic. Refuses with Misused where the handle is open, or `ceiling` or `most` is 0; then with Memory.
#[unsafe(no_mangle)]
pub extern "C" fn cyclic_cpu_open(
    alloc: Global,
    ceiling: u32,
    most: u64,
    cpu: &mut CyclicCpu,
) -> u32
    ensures { OpensHandle ceiling most result cpu.old.inner.held cpu.new.inner.held }
{
    let Some(ceiling) = Ceiling::new(ceiling) else {
        return MISUSED;
    };
    if cpu.open || most == 0 {
        return MISUSED;
    }
    match opened(alloc, ceiling, most) {
        Ok(made) => match Box::new(alloc, made) {
            Ok(boxed) => {
                cpu.put(boxed);
                0
            }
            Err(_failed) => 1,
        },
        Err(_refused) => 1,
    }
}

/// Closes the CPU and gives its memory back, also where calls are outstanding. Refuses with Misused where it is closed.
#[unsafe(no_mangle)]
pub extern "C" fn cyclic_cpu_close(alloc: Global, cpu: &mut CyclicCpu) -> u32
    ensures { Closes result cpu.old.inner.held cpu.new.inner.held }
{
    match cpu.take(alloc) {
        Some(_closed) => 0,
        None => MISUSED,
    }
}

/// Gives a cyclic another next expiration (`reprogram` of the CPU).
#[unsafe(no_mangle)]
pub extern "C" fn cyclic_reprogram(cpu: &mut CyclicCpu, id: u64, moment: i64) -> u32
    ensures { Through cpu.old.inner.held cpu.new.inner.held result (ReprogramsOut raise_tables OnHard id moment result) }
{
    if !cpu.open {
        return MISUSED;
    }
    let open = cpu.inner.lend();
    let answer = reprogram(&mut open.hard, id, moment);
    number_of_answer(&answer)
}

/// Adds a cyclic of this id, which no other cyclic here has; `busy` gets the id of an open removal that refused it, else 0.
/// It may be null, and then nothing is written.
///
/// A pointer may be compared with null where it leads less than 2^63 bytes into its object, as each pointer of C does.
#[unsafe(no_mangle)]
pub unsafe extern "C" fn cyclic_add(
    cpu: &mut CyclicCpu,
    id: u64,
    level: u32,
    start: i64,
    interval: i64,
    now: i64,
    busy: *mut u64,
) -> u32
    ghost before: { Option ℕ }
    requires testable { Testable busy }
    requires* memory { sem 𝓛 (number_behind busy before) }
    ensures* { ∃ₛ (λ (after : Option ℕ). sem 𝓛 (number_behind busy after)
        ∗ ⌜ Through cpu.old.inner.held cpu.new.inner.held result
        (AddsOut raise_tables OnHard (add_numbers id level start interval now) result after) ⌝) }
{
    let busy = unsafe { OutParameter::behind(busy) };
    added(cpu, id, level, start, interval, now, busy).0
}

/// The add, with the number of its answer and the out-parameter again.
fn added(
    cpu: &mut CyclicCpu,
    id: u64,
    level: u32,
    start: i64,
    interval: i64,
    now: i64,
    busy: Option<OutParameter>,
) -> (u32, Option<OutParameter>)
    ensures done { Through cpu.old.inner.held cpu.new.inner.held result.0
        (AddsOut raise_tables OnHard (add_numbers id level start interval now) result.0 (number_out result.1)) }
    ensures pointer { pointer_of result.1 ≡ pointer_of busy }
{
    if !cpu.open {
        return (MISUSED, busy);
    }
    let open = cpu.inner.lend();
    let answer = add(&mut open.hard, id, level, start, interval, now);
    (
        number_of_answer(&answer),
        OutParameter::written(busy, named_in(&answer)),
    )
}

/// The calls of the cyclic that are outstanding, 0 where it is refused.
#[unsafe(no_mangle)]
pub extern "C" fn cyclic_pending(cpu: &mut CyclicCpu, id: u64, pending: &mut u32) -> u32
    ensures { Through cpu.old.inner.held cpu.new.inner.held result (PendingOut raise_tables OnHard id result pending.new) }
{
    if !cpu.open {
        return MISUSED;
    }
    let open = cpu.inner.lend();
    let answer = pending_of(&mut open.hard, id);
    *pending = found_in(&answer);
    number_of_answer(&answer)
}

/// The counts of the cyclic; `totals` is written where they are there.
#[unsafe(no_mangle)]
pub extern "C" fn cyclic_totals(cpu: &mut CyclicCpu, id: u64, totals: &mut CyclicTotals) -> u32
    ensures { Through cpu.old.inner.held cpu.new.inner.held result
        (TotalsOut raise_tables OnHard id result totals.old totals.new) }
{
    if !cpu.open {
        return MISUSED;
    }
    let open = cpu.inner.lend();
    let answer = totals_at(&mut open.hard, id);
    write_totals(&answer, totals);
    number_of_answer(&answer)
}

/// Ends the open removal where its last call was made, and writes the receipt; else `receipt` gets the id 0.
#[unsafe(no_mangle)]
pub extern "C" fn cyclic_poll_remove(cpu: &mut CyclicCpu, receipt: &mut CyclicReceipt) -> u32
    ensures { Through cpu.old.inner.held cpu.new.inner.held result (PollsOut raise_tables OnHard result receipt.new) }
{
    if !cpu.open {
        return MISUSED;
    }
    let open = cpu.inner.lend();
    let answer = open.hard.poll_remove();
    *receipt = polled(answer);
    0
}

/// Takes the cyclic whose handler the caller is to call next at a soft level; `id` gets 0 where no call waits.
#[unsafe(no_mangle)]
pub extern "C" fn cyclic_take(cpu: &mut CyclicCpu, level: u32, id: &mut u64) -> u32
    ensures { Through cpu.old.inner.held cpu.new.inner.held result (TakesOut level result id.old id.new) }
{
    if !cpu.open {
        return MISUSED;
    }
    let open = cpu.inner.lend();
    let Some(soft) = soft_of(level) else {
        return MISUSED;
    };
    let found = open.take(soft);
    *id = or_zero(found);
    0
}

/// Counts the call that was taken, which the caller has made.
#[unsafe(no_mangle)]
pub extern "C" fn cyclic_finish(cpu: &mut CyclicCpu, level: u32) -> u32
    ensures { Through cpu.old.inner.held cpu.new.inner.held result (FinishesOut level result) }
{
    if !cpu.open {
        return MISUSED;
    }
    let open = cpu.inner.lend();
    let Some(soft) = soft_of(level) else {
        return MISUSED;
    };
    let answer = open.finish(soft);
    number_of_answer(&answer)
}

/// Makes the expirations that are due, up to the next high one, whose handler the caller is then to call before it goes on with
/// the same moment. While the CPU is suspended it answers Suspended, and changes nothing (`suspended_fire_law`).
#[unsafe(no_mangle)]
pub extern "C" fn cyclic_fire(cpu: &mut CyclicCpu, now: i64, fired: &mut CyclicFired) -> u32
    ensures { Through cpu.old.inner.held cpu.new.inner.held result (FiresOut FiresCpu now result (written fired.old fired.new)) }
{
    if !cpu.open {
        return MISUSED;
    }
    let open = cpu.inner.lend();
    let Ok(moment) = Moment::new(now) else {
        return 2;
    };
    let answer = open.fire(moment);
    write_fired(answer, fired)
}

/// Begins the removal of a cyclic. Done at once, `receipt` is written and `kept` is 0; else `kept` gets the calls that are
/// outstanding. Where it is refused `kept` is 0, and `busy`, which may be null, gets the id of the open removal.
#[unsafe(no_mangle)]
pub unsafe extern "C" fn cyclic_begin_remove(
    cpu: &mut CyclicCpu,
    id: u64,
    kept: &mut u32,
    receipt: &mut CyclicReceipt,
    busy: *mut u64,
) -> u32
    ghost before: { Option ℕ }
    requires testable { Testable busy }
    requires* memory { sem 𝓛 (number_behind busy before) }
    ensures* { ∃ₛ (λ (after : Option ℕ). sem 𝓛 (number_behind busy after)
        ∗ ⌜ Through cpu.old.inner.held cpu.new.inner.held result (RemovesOut raise_tables OnHard id result
        (record { kept = kept.new; receipt = receipt.new; busy = after })) ⌝) }
{
    let busy = unsafe { OutParameter::behind(busy) };
    removal_begun(cpu, id, kept, receipt, busy).0
}

/// The begin of a removal, with the number of its answer and the out-parameter again.
fn removal_begun(
    cpu: &mut CyclicCpu,
    id: u64,
    kept: &mut u32,
    receipt: &mut CyclicReceipt,
    busy: Option<OutParameter>,
) -> (u32, Option<OutParameter>)
    ensures done { Through cpu.old.inner.held cpu.new.inner.held result.0 (RemovesOut raise_tables OnHard id result.0
        (record { kept = kept.new; receipt = receipt.new; busy = number_out result.1 })) }
    ensures pointer { pointer_of result.1 ≡ pointer_of busy }
{
    if !cpu.open {
        return (MISUSED, busy);
    }
    let open = cpu.inner.lend();
    let answer = begin_remove(&mut open.hard, id);
    *kept = kept_of(&answer);
    *receipt = removed_of(&answer);
    let busy = OutParameter::written(busy, named_in(&answer));
    (number_of_answer(&answer), busy)
}

/// The least expiration of the CPU, never where there is none.
#[unsafe(no_mangle)]
pub extern "C" fn cyclic_next(cpu: &mut CyclicCpu, moment: &mut i64) -> u32
    ensures { Through cpu.old.inner.held cpu.new.inner.held result (NextOut raise_tables OnHard result moment.new) }
{
    if !cpu.open {
        return MISUSED;
    }
    let open = cpu.inner.lend();
    let next = open.hard.next();
    *moment = next.nanoseconds() as i64;
    0
}

/// Suspends the CPU: no fire is made until `cyclic_resume`, and all else goes on. Refuses with Misused where it is closed, and
/// nothing else, also where it is suspended. Takes no memory.
#[unsafe(no_mangle)]
pub extern "C" fn cyclic_suspend(cpu: &mut CyclicCpu) -> u32
    ensures { Through cpu.old.inner.held cpu.new.inner.held result (SuspendsOut raise_tables OnHard result) }
{
    if !cpu.open {
        return MISUSED;
    }
    let open = cpu.inner.lend();
    open.hard.suspend();
    0
}

/// Resumes the CPU: fires are made again. Refuses with Misused where it is closed, and nothing else, also where it is not
/// suspended. Takes no memory.
#[unsafe(no_mangle)]
pub extern "C" fn cyclic_resume(cpu: &mut CyclicCpu) -> u32
    ensures { Through cpu.old.inner.held cpu.new.inner.held result (ResumesOut raise_tables OnHard result) }
{
    if !cpu.open {
        return MISUSED;
    }
    let open = cpu.inner.lend();
    open.hard.resume();
    0
}
