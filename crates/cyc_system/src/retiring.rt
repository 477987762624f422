//! The components of omnipresent cyclics leave a CPU.

ghost use Rattle.std.specs.Prelude.{◌≡◌, ℕ, ◌<◌, length, [], true, Some, None};
ghost use Rattle.std.specs.Bool.{OnTrue, OnFalse};
ghost use Rattle.std.specs.List.{FoldsTo};
ghost use Rattle.cyc_types.specs.Limits.{most_cpus};
ghost use Rattle.cyc_types.specs.Counting.{no_counts};
ghost use Rattle.cyc_places.specs.declared.record.Record.{Record};
ghost use Rattle.cyc_places.specs.Places.{RecordsView, IsRecord, ended_on};
ghost use Rattle.cyc_agreement.specs.Cpus.{OfCpu, Works};
ghost use Rattle.cyc_agreement.specs.Destination.{destination};
ghost use Rattle.cyc_agreement.specs.Shifting.{MayLeave};
ghost use Rattle.cyc_agreement.specs.System.{ids_on, removal_on};
ghost use Rattle.cyc_agreement.specs.Agreement.{Agrees};
ghost use Rattle.cyc_agreement.specs.Holding.{EndedWithin};
ghost use Rattle.cyc_system.specs.Juggling.{system_of, single_ids};
ghost use Rattle.cyc_system.specs.GoingOffline.{quiet, FindsPending, Retires, offline_at};
ghost use Rattle.cyc_system.specs.Walking.{HaveNoCalls};

use cyc_agreement::Cpus;
use cyc_places::Records;
use cyc_types::{CyclicId, Raise};

/// Asks the CPU for each of its cyclics, by rising id up to the first of which calls are outstanding.
pub(crate) fn any_pending<R: Raise>(cpus: &mut Cpus<R>, source: u32) -> bool
    requires { source < length cpus.old.cpus }
    ensures some { OnTrue result ((records : RecordsView) (last : ℕ)
        → FindsPending R.Raise source (system_of cpus.old records last) (system_of cpus.new records last)) }
    ensures none { OnFalse result (Works R.Raise (quiet source (ids_on source cpus.old)) cpus.old cpus.new) }
    ensures quiet { OnFalse result (OfCpu source (HaveNoCalls R.view) cpus.new) }
{
    cpus.law();
    let mut passed = None;
    for _position in 0..cpus.cpu(source).len() {
        let Some(id) = cpus.cpu(source).id_after(passed) else {
            unreachable!()
        };
        if cpus.cpu_mut(source).pending(id) != Some(0) {
            return true;
        }
        passed = Some(id);
    }
    false
}

/// A component that has no call outstanding leaves its CPU, and its record keeps its counts (`cyclic_omni_stop`).
fn retire<R: Raise>(cpus: &mut Cpus<R>, records: &mut Records, source: u32, id: CyclicId)
    requires there { source < length cpus.old.cpus }
    requires few { source < most_cpus }
    requires leaves { OfCpu source (MayLeave R.view id) cpus.old }
    requires record { (k : ℕ) × (r : Record) × IsRecord records.old.list k r × (r.id ≡ id) × (ended_on source r ≡ no_counts) }
    ensures did { (last : ℕ) → Retires R.Raise source (system_of cpus.old records.old last) id
        (system_of cpus.new records.new last) }
    ensures within { (last : ℕ) → EndedWithin (system_of cpus.old records.old last)
        → EndedWithin (system_of cpus.new records.new last) }
{
    records.law();
    let Some(position) = records.find(id) else {
        unreachable!()
    };
    let Ok(taken) = cpus.cpu_mut(source).take_now(id) else {
        unreachable!()
    };
    records.add_ended(position, source as usize, taken.sent);
}

/// All components leave the CPU, by rising id.
pub(crate) fn retire_all<R: Raise>(cpus: &mut Cpus<R>, records: &mut Records, source: u32)
    requires agrees { (last : ℕ) × Agrees (system_of cpus.old records.old last) }
    requires there { source < length cpus.old.cpus }
    requires still { removal_on source cpus.old ≡ None }
    requires components { (last : ℕ) → single_ids source (system_of cpus.old records.old last) ≡ [] }
    requires quiet { OfCpu source (HaveNoCalls R.view) cpus.old }
    requires other { (d : ℕ) × (destination (Some source) cpus.old ≡ Some d) }
    ensures did { (last : ℕ) → FoldsTo (Retires R.Raise source) (system_of cpus.old records.old last)
        (ids_on source cpus.old) (system_of cpus.new records.new last) }
    ensures there { length cpus.new.cpus ≡ length cpus.old.cpus }
    ensures agrees { (last : ℕ) → Agrees (system_of cpus.old records.old last)
        → Agrees (offline_at source (system_of cpus.new records.new last)) }
    ensures within { (last : ℕ) → EndedWithin (system_of cpus.old records.old last)
        → EndedWithin (system_of cpus.new records.new last) }
{
    records.law();
    for _done in 0..cpus.cpu(source).len() {
        cpus.law();
        let Some(id) = cpus.cpu(source).id_after(None) else {
            unreachable!()
        };
        retire(cpus, records, source, id);
    }
}
