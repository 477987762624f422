//! A removal on one CPU, with its record.

ghost use Rattle.std.specs.Prelude.{◌≡◌, ◌<◌, ◌≤◌, ◌^◌, ℕ, List, length, slice_set, true, Some, None, Option};
ghost use Rattle.cyc_types.specs.Limits.{most_cpus};
ghost use Rattle.cyc_cpu.specs.declared.removing.Removal.{Removal as TheRemoval};
ghost use Rattle.cyc_places.specs.declared.record.Record.{Record};
ghost use Rattle.cyc_places.specs.Places.{IsRecord, ended_on, summed, with_ended};
ghost use Rattle.cyc_types.specs.declared.receipt.Receipt.{Receipt as TheReceipt};
ghost use Rattle.cyc_types.specs.Counting.{no_counts};
ghost use Rattle.cyc_agreement.specs.System.{has, removal_on};
ghost use Rattle.cyc_agreement.specs.Removing.{BeginsOn, counts_of_receipt, kept_in};
ghost use Rattle.cyc_agreement.specs.Polling.{PollsOn};
ghost use Rattle.cyc_agreement.specs.Withdrawing.{system, Owns, Withdraws, LeavesAt};

use crate::cpus::Cpus;
use cyc_cpu::Removal;
use cyc_places::Records;
use cyc_types::{CyclicId, Raise, Receipt, Sent};

/// The stay of a cyclic on the CPU of this number has ended with this receipt: its record keeps the counts, which are at most
/// `most`.
fn keep_counts(records: &mut Records, position: usize, number: u32, receipt: Receipt, most: u64)
    requires number { number < most_cpus }
    requires fresh { (r : Record) × IsRecord records.old.list position r × (ended_on number r ≡ no_counts) }
    requires few { receipt.sent ≤ most }
    ensures { (r : Record) → IsRecord records.old.list position r
        → records.new.list ≡ slice_set records.old.list position
        (with_ended number (summed (ended_on number r) (counts_of_receipt receipt)) r) }
{
    let _most = most;
    let counts = Sent {
        sent: receipt.sent as u64,
        lost: receipt.lost as u64,
    };
    records.add_ended(position, number as usize, counts);
}

/// The removal begins on one CPU. It answers the calls that are kept there; where none is, the counts are kept.
pub(crate) fn begin_at<R: Raise>(
    cpus: &mut Cpus<R>,
    records: &mut Records,
    position: usize,
    id: CyclicId,
    number: u32,
) -> u64
    requires number { number < length cpus.old.cpus }
    requires few { number < most_cpus }
    requires owns { Owns id position cpus.old records.old.list }
    requires here { has number id cpus.old ≡ true }
    requires still { removal_on number cpus.old ≡ None }
    ensures did { (last : ℕ) → (found : TheRemoval) × (result ≡ kept_in found)
        × BeginsOn R.Raise id number found (system cpus.old records.old.list last) (system cpus.new records.new.list last) }
    ensures few { result < 2 ^ 32 }
    ensures withdraws { Withdraws id position cpus.old cpus.new records.old.list records.new.list
        × LeavesAt number id cpus.old cpus.new }
{
    cpus.law();
    let most = cpus.cpu(number).most();
    let Ok(found) = cpus.cpu_mut(number).begin_remove(id) else {
        unreachable!()
    };
    match found {
        Removal::Done(receipt) => {
            keep_counts(records, position, number, receipt, most);
            0
        }
        Removal::Kept(kept) => u64::from(kept),
    }
}

/// One CPU, on which the removal is open, is asked whether it is done there. Where it is, the counts are kept.
pub(crate) fn poll_at<R: Raise>(
    cpus: &mut Cpus<R>,
    records: &mut Records,
    position: usize,
    id: CyclicId,
    number: u32,
)
    requires number { number < length cpus.old.cpus }
    requires few { number < most_cpus }
    requires owns { Owns id position cpus.old records.old.list }
    requires open_here { removal_on number cpus.old ≡ Some id }
    ensures did { (last : ℕ) → (answer : Option TheReceipt)
        × PollsOn R.Raise id number answer (system cpus.old records.old.list last) (system cpus.new records.new.list last) }
    ensures withdraws { Withdraws id position cpus.old cpus.new records.old.list records.new.list
        × LeavesAt number id cpus.old cpus.new }
{
    cpus.law();
    let most = cpus.cpu(number).most();
    if let Some(receipt) = cpus.cpu_mut(number).poll_remove() {
        keep_counts(records, position, number, receipt, most);
    }
}
