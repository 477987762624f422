//! A removal of a cyclic that is on one CPU alone. A move takes the counts of the stay that it ends along, so the receipt is the
//! CPU's own.

ghost use Rattle.std.specs.Prelude.{◌≡◌, ℕ, Bool};
ghost use Rattle.cyc_places.specs.declared.record.Placement.TheVariants.{On};
ghost use Rattle.cyc_places.specs.declared.record.Record.{Record};
ghost use Rattle.cyc_places.specs.Places.{IsRecord};
ghost use Rattle.cyc_agreement.specs.Holding.{Holds};
ghost use Rattle.cyc_agreement.specs.Removing.{BeginsRemoval};
ghost use Rattle.cyc_agreement.specs.Polling.{PollsRemoval};
ghost use Rattle.cyc_agreement.specs.Withdrawing.{system};

use crate::cpus::Cpus;
use crate::finding::is_leaving_at;
use crate::removing::SystemRemoval;
use cyc_cpu::Removal;
use cyc_places::Records;
use cyc_types::{CyclicId, Raise, Receipt, Refusal};

/// The removal of a cyclic that is on this CPU begins there.
pub(crate) fn begin_on<R: Raise>(
    cpus: &mut Cpus<R>,
    records: &mut Records,
    position: usize,
    id: CyclicId,
    number: u32,
) -> Result<SystemRemoval, Refusal>
    requires holds { (last : ℕ) × Holds (system cpus.old records.old.list last) }
    requires own { (r : Record) × (bound : Bool) × IsRecord records.old.list position r × (r.id ≡ id)
        × (r.placement ≡ On number bound) }
    ensures did { (last : ℕ) → BeginsRemoval R.Raise id result (system cpus.old records.old.list last)
        (system cpus.new records.new.list last) }
    ensures holds { (last : ℕ) → Holds (system cpus.old records.old.list last) → Holds (system cpus.new records.new.list last) }
{
    records.law();
    if let Some(removed) = cpus.cpu(number).removal() {
        return Err(Refusal::Busy(removed));
    }
    cpus.law();
    let Ok(found) = cpus.cpu_mut(number).begin_remove(id) else {
        unreachable!()
    };
    cpus.law();
    match found {
        Removal::Done(receipt) => {
            records.remove(position);
            Ok(SystemRemoval::Done(receipt))
        }
        Removal::Kept(kept) => Ok(SystemRemoval::Kept(u64::from(kept))),
    }
}

/// The removal of a cyclic that is on this CPU is polled there.
pub(crate) fn poll_on<R: Raise>(
    cpus: &mut Cpus<R>,
    records: &mut Records,
    position: usize,
    id: CyclicId,
    number: u32,
) -> Result<Option<Receipt>, Refusal>
    requires holds { (last : ℕ) × Holds (system cpus.old records.old.list last) }
    requires own { (r : Record) × (bound : Bool) × IsRecord records.old.list position r × (r.id ≡ id)
        × (r.placement ≡ On number bound) }
    ensures did { (last : ℕ) → PollsRemoval R.Raise id result (system cpus.old records.old.list last)
        (system cpus.new records.new.list last) }
    ensures holds { (last : ℕ) → Holds (system cpus.old records.old.list last) → Holds (system cpus.new records.new.list last) }
{
    records.law();
    cpus.law();
    if !is_leaving_at(cpus, number, id) {
        return Err(Refusal::NoCyclic);
    }
    let answer = cpus.cpu_mut(number).poll_remove();
    cpus.law();
    let Some(receipt) = answer else {
        return Ok(None);
    };
    records.remove(position);
    Ok(Some(receipt))
}
