//! A CPU goes offline.

ghost use Rattle.std.specs.Prelude.{◌≡◌, ℕ};
ghost use Rattle.cyc_agreement.specs.Agreement.{Agrees};
ghost use Rattle.cyc_agreement.specs.Holding.{EndedWithin};
ghost use Rattle.cyc_system.specs.Juggling.{system_of};
ghost use Rattle.cyc_system.specs.GoingOffline.{GoesOffline};

use crate::juggling::move_away;
use crate::refusing::may_leave;
use crate::retiring::{any_pending, retire_all};
use cyc_agreement::Cpus;
use cyc_places::Records;
use cyc_types::{Raise, Refusal};

/// Takes a CPU offline (`cyclic_offline`). Its cyclics that are not omnipresent move as in a juggle; then the components of the
/// omnipresent ones leave it, and their counts here are kept.
///
/// Refuses with NoCpu, then Offline, then LastCpu where no other CPU is online, then Busy while a removal is open there. Then,
/// where what moved stays moved, with Left where a cyclic that is not omnipresent remains, and with Pending where calls of a
/// component are outstanding. Takes no memory but that of the destinations.
pub(crate) fn offline<R: Raise>(
    cpus: &mut Cpus<R>,
    records: &mut Records,
    source: u32,
) -> Result<(), Refusal>
    requires { (last : ℕ) × Agrees (system_of cpus.old records.old last) }
    ensures did { (last : ℕ) → GoesOffline R.Raise source result (system_of cpus.old records.old last)
        (system_of cpus.new records.new last) }
    ensures agrees { (last : ℕ) → Agrees (system_of cpus.old records.old last) → Agrees (system_of cpus.new records.new last) }
    ensures within { (last : ℕ) → EndedWithin (system_of cpus.old records.old last)
        → EndedWithin (system_of cpus.new records.new last) }
{
    may_leave(cpus, source)?;
    let report = move_away(cpus, records, source);
    if report.bound + report.pending + report.refused > 0 {
        return Err(Refusal::Left(report));
    }
    if any_pending(cpus, source) {
        return Err(Refusal::Pending);
    }
    retire_all(cpus, records, source);
    cpus.set_online(source, false);
    Ok(())
}
