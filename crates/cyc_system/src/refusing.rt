//! Whether the cyclics of a CPU may leave it.

ghost use Rattle.std.specs.Prelude.{◌≡◌, ℕ, ◌<◌, length, true, Some, None, IfErr, OnOk};
ghost use Rattle.cyc_types.specs.Reasons.{first_refusal};
ghost use Rattle.cyc_places.specs.Places.{RecordsView};
ghost use Rattle.cyc_agreement.specs.Destination.{destination};
ghost use Rattle.cyc_agreement.specs.System.{is_online, removal_on};
ghost use Rattle.cyc_system.specs.Juggling.{system_of, juggle_refusals};

use cyc_agreement::Cpus;
use cyc_types::{Raise, Refusal};

/// Whether the cyclics of a CPU can leave it: the CPU is there and online, another is online too, and no removal is open there.
///
/// Refuses with NoCpu, then Offline, then LastCpu, then Busy.
pub(crate) fn may_leave<R: Raise>(cpus: &Cpus<R>, source: u32) -> Result<(), Refusal>
    requires { length cpus.now.online ≡ length cpus.now.cpus }
    ensures ok { OnOk result ((records : RecordsView) (last : ℕ)
        → first_refusal (juggle_refusals source (system_of cpus.now records last)) ≡ None) }
    ensures err { IfErr result (λ refusal. (records : RecordsView) (last : ℕ)
        → first_refusal (juggle_refusals source (system_of cpus.now records last)) ≡ Some refusal) }
    ensures there { OnOk result (source < length cpus.now.cpus) }
    ensures online { OnOk result (is_online source cpus.now ≡ true) }
    ensures other { OnOk result ((d : ℕ) × (destination (Some source) cpus.now ≡ Some d)) }
    ensures still { OnOk result (removal_on source cpus.now ≡ None) }
{
    if source >= cpus.count() {
        return Err(Refusal::NoCpu);
    }
    if !cpus.is_online(source) {
        return Err(Refusal::Offline);
    }
    if cpus.destination(Some(source)).is_none() {
        return Err(Refusal::LastCpu);
    }
    if let Some(removed) = cpus.cpu(source).removal() {
        return Err(Refusal::Busy(removed));
    }
    Ok(())
}
