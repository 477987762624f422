//! A removal on all CPUs: its beginning and its polls.

ghost use Rattle.std.specs.Prelude.{◌≡◌, ◌≢◌, ℕ, ◌<◌, ◌≤◌, ◌^◌, ◌*◌, List, length, map, sum_by, remove, true, false, None};
ghost use Rattle.std.specs.Prelude.{IfNone};
ghost use Rattle.std.specs.Option.{option_map};
ghost use Rattle.cyc_types.specs.declared.refusal.Refusal.TheVariants.{Busy};
ghost use Rattle.cyc_types.specs.Reasons.{first_refusal};
ghost use Rattle.cyc_places.specs.declared.record.Record.{Record};
ghost use Rattle.cyc_places.specs.Places.{IsRecord, IsReceiptOf};
ghost use Rattle.cyc_agreement.specs.System.{has, removal_on};
ghost use Rattle.cyc_agreement.specs.Holding.{Holds};
ghost use Rattle.cyc_agreement.specs.Removing.{Begun, BeginsEach, BeginsRemoval, busy_on_each, cpus_with, kept_in};
ghost use Rattle.cyc_agreement.specs.Polling.{Polled, PollsEach, PollsRemoval, leaving_cpus};
ghost use Rattle.cyc_agreement.specs.Withdrawing.{system, Owns, Withdraws};

use crate::cpus::Cpus;
use crate::finding::{is_leaving, is_leaving_at};
use crate::removing_at::{begin_at, poll_at};
use crate::removing_on::{begin_on, poll_on};
use cyc_places::{Placement, Records};
use cyc_types::{CyclicId, Raise, Receipt, Refusal};

/// What the beginning of a removal found on all CPUs.
#[derive(Clone, Copy, Debug, PartialEq, Eq)]
pub enum SystemRemoval {
    /// No call was outstanding anywhere: the cyclic is gone.
    Done(Receipt),
    /// So many calls are outstanding on all CPUs together, and the removal is open until they are made.
    Kept(u64),
}

/// The first removal that is open on a CPU that has the cyclic.
fn open_removal<R: Raise>(cpus: &Cpus<R>, id: CyclicId) -> Option<CyclicId>
    ensures first { (records : List Record) (last : ℕ)
        → first_refusal (busy_on_each id (system cpus.now records last)) ≡ option_map (λ removed. Busy removed) result }
    ensures none { IfNone result ((n : ℕ) → has n id cpus.now ≡ true → removal_on n cpus.now ≡ None) }
{
    for number in 0..cpus.count() {
        let cpu = cpus.cpu(number);
        if cpu.has(id) {
            if let Some(removed) = cpu.removal() {
                return Some(removed);
            }
        }
    }
    None
}

/// The removal begins on every CPU that has the cyclic. It answers the calls that are kept on all of them.
fn begin_each<R: Raise>(
    cpus: &mut Cpus<R>,
    records: &mut Records,
    position: usize,
    id: CyclicId,
) -> u64
    requires owns { Owns id position cpus.old records.old.list }
    requires still { (n : ℕ) → has n id cpus.old ≡ true → removal_on n cpus.old ≡ None }
    ensures did { (last : ℕ) → (way : List Begun) × (map (λ b. b.cpu) way ≡ cpus_with id cpus.old)
        × BeginsEach R.Raise id way (system cpus.old records.old.list last) (system cpus.new records.new.list last)
        × (result ≡ sum_by (λ b. kept_in b.found) way) }
    ensures withdraws { Withdraws id position cpus.old cpus.new records.old.list records.new.list }
    ensures leaving { (n : ℕ) → has n id cpus.new ≡ true → removal_on n cpus.new ≡ Some id }
{
    let mut kept = 0;
    for number in 0..cpus.count() {
        if cpus.cpu(number).has(id) {
            kept += begin_at(cpus, records, position, id, number);
        }
    }
    kept
}

/// Every CPU on which the removal is open is asked whether it is done there.
fn poll_each<R: Raise>(cpus: &mut Cpus<R>, records: &mut Records, position: usize, id: CyclicId)
    requires owns { Owns id position cpus.old records.old.list }
    requires whole { (n : ℕ) → has n id cpus.old ≡ true → removal_on n cpus.old ≡ Some id }
    ensures did { (last : ℕ) → (way : List Polled) × (map (λ p. p.cpu) way ≡ leaving_cpus id cpus.old)
        × PollsEach R.Raise id way (system cpus.old records.old.list last) (system cpus.new records.new.list last) }
    ensures withdraws { Withdraws id position cpus.old cpus.new records.old.list records.new.list }
    ensures leaving { (n : ℕ) → has n id cpus.new ≡ true → removal_on n cpus.new ≡ Some id }
{
    for number in 0..cpus.count() {
        if is_leaving_at(cpus, number, id) {
            poll_at(cpus, records, position, id, number);
        }
    }
}

/// The receipt of a cyclic that no CPU has any more. Its record goes.
fn close(records: &mut Records, position: usize) -> Receipt
    requires { position < length records.old.list }
    ensures receipt { (r : Record) → IsRecord records.old.list position r → IsReceiptOf result r }
    ensures records { records.new.list ≡ remove records.old.list position }
{
    let receipt = records.receipt(position);
    records.remove(position);
    receipt
}

/// The removal of an omnipresent cyclic begins.
fn begin_omni<R: Raise>(
    cpus: &mut Cpus<R>,
    records: &mut Records,
    position: usize,
    id: CyclicId,
) -> Result<SystemRemoval, Refusal>
    requires holds { (last : ℕ) × Holds (system cpus.old records.old.list last) }
    requires own { (r : Record) × IsRecord records.old.list position r × (r.id ≡ id) }
    ensures did { (last : ℕ) → BeginsRemoval R.Raise id result (system cpus.old records.old.list last)
        (system cpus.new records.new.list last) }
    ensures holds { (last : ℕ) → Holds (system cpus.old records.old.list last) → Holds (system cpus.new records.new.list last) }
{
    records.law();
    if let Some(removed) = open_removal(cpus, id) {
        return Err(Refusal::Busy(removed));
    }
    let kept = begin_each(cpus, records, position, id);
    cpus.law();
    if is_leaving(cpus, id) {
        return Ok(SystemRemoval::Kept(kept));
    }
    Ok(SystemRemoval::Done(close(records, position)))
}

/// The open removal of an omnipresent cyclic is polled.
fn poll_omni<R: Raise>(
    cpus: &mut Cpus<R>,
    records: &mut Records,
    position: usize,
    id: CyclicId,
) -> Result<Option<Receipt>, Refusal>
    requires holds { (last : ℕ) × Holds (system cpus.old records.old.list last) }
    requires own { (r : Record) × IsRecord records.old.list position r × (r.id ≡ id) }
    ensures did { (last : ℕ) → PollsRemoval R.Raise id result (system cpus.old records.old.list last)
        (system cpus.new records.new.list last) }
    ensures holds { (last : ℕ) → Holds (system cpus.old records.old.list last) → Holds (system cpus.new records.new.list last) }
{
    records.law();
    cpus.law();
    if !is_leaving(cpus, id) {
        return Err(Refusal::NoCyclic);
    }
    poll_each(cpus, records, position, id);
    cpus.law();
    if is_leaving(cpus, id) {
        return Ok(None);
    }
    Ok(Some(close(records, position)))
}

/// Begins the removal of a cyclic on every CPU that has it (`cyclic_remove`): from now on it never expires. It is done at once
/// where no call of it is outstanding on any of them, and the receipt has the counts of all its stays. Else it stays open, and
/// `poll_remove` answers once the soft interrupts have made those calls.
///
/// Refuses with NoCyclic where no cyclic has the id, then with Busy where a removal is open on a CPU that has the cyclic, its
/// own too: that of the CPU with the smallest number. Takes no memory.
pub fn begin_remove<R: Raise>(
    cpus: &mut Cpus<R>,
    records: &mut Records,
    id: CyclicId,
) -> Result<SystemRemoval, Refusal>
    requires { (last : ℕ) × Holds (system cpus.old records.old.list last) }
    ensures did { (last : ℕ) → BeginsRemoval R.Raise id result (system cpus.old records.old.list last)
        (system cpus.new records.new.list last) }
    ensures holds { (last : ℕ) → Holds (system cpus.old records.old.list last) → Holds (system cpus.new records.new.list last) }
{
    let Some(position) = records.find(id) else {
        return Err(Refusal::NoCyclic);
    };
    match records.at(position).placement {
        Placement::On { cpu, bound: _ } => begin_on(cpus, records, position, id, cpu),
        Placement::Everywhere { when: _, skew: _ } => begin_omni(cpus, records, position, id),
    }
}

/// Asks every CPU on which the removal of the cyclic is open whether the calls that it kept are made. Where they are, the
/// cyclic leaves the CPU, which is free for another removal. The receipt, with the counts of all its stays, comes when no CPU
/// has the cyclic any more (the end of `cyclic_remove`).
///
/// Refuses with NoCyclic where no removal of this id is open. Takes no memory.
pub fn poll_remove<R: Raise>(
    cpus: &mut Cpus<R>,
    records: &mut Records,
    id: CyclicId,
) -> Result<Option<Receipt>, Refusal>
    requires { (last : ℕ) × Holds (system cpus.old records.old.list last) }
    ensures did { (last : ℕ) → PollsRemoval R.Raise id result (system cpus.old records.old.list last)
        (system cpus.new records.new.list last) }
    ensures holds { (last : ℕ) → Holds (system cpus.old records.old.list last) → Holds (system cpus.new records.new.list last) }
{
    cpus.law();
    let Some(position) = records.find(id) else {
        return Err(Refusal::NoCyclic);
    };
    match records.at(position).placement {
        Placement::On { cpu, bound: _ } => poll_on(cpus, records, position, id, cpu),
        Placement::Everywhere { when: _, skew: _ } => poll_omni(cpus, records, position, id),
    }
}
