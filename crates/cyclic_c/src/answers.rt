//! What the answers of a CPU write over the border.

ghost use Rattle.std.specs.Prelude.{◌≡◌};
ghost use Rattle.cyclic_c.specs.Exports.{id_named_by, found_in as number_found, kept_by, IsDoneAtOnce, WritesTotals};
ghost use Rattle.cyclic_c.specs.Exports.{WritesReceipt};
ghost use Rattle.cyclic_c.specs.Exports.{WritesFired, fire_number, or_zero as number_or_zero};
ghost use Rattle.cyc_border.specs.Numbers.{answer_of, number_of_refusal};
ghost use Rattle.cyc_border.specs.declared.numbers.Denied.TheVariants.{Refused};

use crate::records::{
    CyclicFired, CyclicReceipt, CyclicTotals, fired_of, receipt_of, stopped_of, totals_of,
};
use cyc_border::numbers::Denied;
use cyc_cpu::{Removal, Totals};
use cyc_timers::{FireRefused, Fired};
use cyc_types::{CyclicId, Receipt, Refusal};

/// What is answered where the caller has not done what it owes.
pub(crate) const MISUSED: u32 = 64;

/// The number of an answer, 0 where the call was done.
pub(crate) fn number_of_answer<A>(answer: &Result<A, Denied>) -> u32
    ensures { result ≡ answer_of answer.now }
{
    match answer {
        Ok(_) => 0,
        Err(denied) => denied.number(),
    }
}

/// The id that an answer's refusal names, 0 where it names none.
pub(crate) fn named_in<A>(answer: &Result<A, Denied>) -> u64
    ensures { result ≡ id_named_by answer.now }
{
    match answer {
        Ok(_) => 0,
        Err(denied) => denied.id(),
    }
}

/// The number that was found, 0 where the call was refused.
pub(crate) fn found_in(answer: &Result<u32, Denied>) -> u32
    ensures { result ≡ number_found answer.now }
{
    match answer {
        Ok(number) => *number,
        Err(_denied) => 0,
    }
}

/// The id that was found, 0 for none.
pub(crate) fn or_zero(found: Option<CyclicId>) -> u64
    ensures { result ≡ number_or_zero found }
{
    match found {
        Some(id) => id.number(),
        None => 0,
    }
}

/// Writes the counts that were found, where they are there.
pub(crate) fn write_totals(answer: &Result<Totals, Denied>, totals: &mut CyclicTotals)
    ensures { WritesTotals answer.now totals.old totals.new }
{
    if let Ok(counts) = answer {
        *totals = totals_of(*counts);
    }
}

/// The receipt of an open removal that was ended, else one of no cyclic.
pub(crate) fn polled(answer: Option<Receipt>) -> CyclicReceipt
    ensures { WritesReceipt answer result }
{
    match answer {
        Some(receipt) => receipt_of(receipt),
        None => CyclicReceipt::NONE,
    }
}

/// The calls that a removal waits for, 0 where it is done or refused.
pub(crate) fn kept_of(answer: &Result<Removal, Denied>) -> u32
    ensures { result ≡ kept_by answer.now }
{
    match answer {
        Ok(Removal::Kept(calls)) => *calls,
        _ => 0,
    }
}

/// The receipt of a removal that was done at once, else one of no cyclic.
pub(crate) fn removed_of(answer: &Result<Removal, Denied>) -> CyclicReceipt
    ensures { IsDoneAtOnce answer.now result }
{
    match answer {
        Ok(Removal::Done(receipt)) => receipt_of(*receipt),
        _ => CyclicReceipt::NONE,
    }
}

/// Writes what a fire did, and gives the number of its answer.
pub(crate) fn write_fired(answer: Result<Fired, FireRefused>, fired: &mut CyclicFired) -> u32
    ensures number { result ≡ fire_number answer }
    ensures written { WritesFired answer fired.new }
{
    match answer {
        Ok(done) => {
            *fired = fired_of(done);
            0
        }
        Err(refused) => {
            *fired = stopped_of(refused);
            stop_number(&refused.why)
        }
    }
}

/// The number of what stopped a fire, but not in front of a high cyclic. A call, so that LLVM takes it for rare.
#[cold]
#[inline(never)]
fn rare_number(why: &Refusal) -> u32
    ensures { result ≡ number_of_refusal (Refused why.now) }
{
    u32::from(why.number())
}

/// The number of what stopped a fire. First that of a high cyclic, at which every part of a fire stops but the last.
fn stop_number(why: &Refusal) -> u32
    ensures { result ≡ number_of_refusal (Refused why.now) }
{
    match why {
        Refusal::HandlerRefused(_) => 12,
        other => rare_number(other),
    }
}
