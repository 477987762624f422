//! The juggle of a CPU: each of its cyclics has its turn.

ghost use Rattle.std.specs.Prelude.{◌≡◌, ℕ, ◌<◌, ◌≤◌, length, true, Some, None};
ghost use Rattle.cyc_types.specs.Limits.{cyclics};
ghost use Rattle.cyc_agreement.specs.Destination.{destination};
ghost use Rattle.cyc_agreement.specs.System.{is_online, removal_on};
ghost use Rattle.cyc_agreement.specs.Agreement.{Agrees};
ghost use Rattle.cyc_agreement.specs.Holding.{EndedWithin};
ghost use Rattle.cyc_system.specs.Juggling.{system_of, MovesAway, Juggles, single_ids};
ghost use Rattle.cyc_system.specs.Walking.{all_turns, all_left};

use crate::refusing::may_leave;
use crate::turning::visit;
use cyc_agreement::Cpus;
use cyc_places::Records;
use cyc_types::{JuggleReport, Raise, Refusal};

/// Each cyclic of the source that is not omnipresent has its turn, by rising id.
pub(crate) fn move_away<R: Raise>(
    cpus: &mut Cpus<R>,
    records: &mut Records,
    source: u32,
) -> JuggleReport
    requires agrees { (last : ℕ) × Agrees (system_of cpus.old records.old last) }
    requires there { source < length cpus.old.cpus }
    requires still { removal_on source cpus.old ≡ None }
    requires other { (d : ℕ) × (destination (Some source) cpus.old ≡ Some d) }
    ensures did { (last : ℕ) → MovesAway R.Raise source result (system_of cpus.old records.old last)
        (system_of cpus.new records.new last) }
    ensures agrees { (last : ℕ) → Agrees (system_of cpus.old records.old last) → Agrees (system_of cpus.new records.new last) }
    ensures within { (last : ℕ) → EndedWithin (system_of cpus.old records.old last)
        → EndedWithin (system_of cpus.new records.new last) }
    ensures left { (last : ℕ) → length (single_ids source (system_of cpus.new records.new last)) ≡ all_left result }
    ensures few { all_turns result ≤ cyclics }
    ensures online { cpus.new.online ≡ cpus.old.online }
    ensures there { length cpus.new.cpus ≡ length cpus.old.cpus }
    ensures still { removal_on source cpus.new ≡ None }
{
    cpus.law();
    let mut report = JuggleReport {
        moved: 0,
        bound: 0,
        pending: 0,
        refused: 0,
    };
    let mut passed = None;
    for _done in 0..cpus.cpu(source).len() {
        cpus.law();
        records.law();
        let Some(id) = cpus.cpu(source).id_after(passed) else {
            unreachable!()
        };
        visit(cpus, records, source, id, &mut report);
        passed = Some(id);
    }
    report
}

/// Moves the cyclics of a CPU to others (`cyclic_juggle`). By rising id, each that is not omnipresent is counted as bound; else
/// as pending, where calls of it are outstanding; else as refused, where the online CPU with the fewest cyclics at that moment,
/// other than this one, answers Full, Busy, Expanding or Memory; else it moves there with its id, its next expiration and its
/// counts.
///
/// Refuses with NoCpu, then Offline, then LastCpu where no other CPU is online, then Busy while a removal is open there. Takes
/// no memory but that of the destinations.
pub(crate) fn juggle<R: Raise>(
    cpus: &mut Cpus<R>,
    records: &mut Records,
    source: u32,
) -> Result<JuggleReport, Refusal>
    requires { (last : ℕ) × Agrees (system_of cpus.old records.old last) }
    ensures did { (last : ℕ) → Juggles R.Raise source result (system_of cpus.old records.old last)
        (system_of cpus.new records.new last) }
    ensures agrees { (last : ℕ) → Agrees (system_of cpus.old records.old last) → Agrees (system_of cpus.new records.new last) }
{
    may_leave(cpus, source)?;
    Ok(move_away(cpus, records, source))
}
