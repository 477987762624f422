//! All CPUs of a system settle.

ghost use Rattle.std.specs.Prelude.{◌≡◌, length, IfNone, IfSome};
ghost use Rattle.cyc_workers.specs.Refusals.{CanRefuse};
ghost use Rattle.cyc_workers.specs.Settled.{AllSettled};
ghost use Rattle.cyc_system_workers.specs.Settling.{OnlyAsked};

use crate::side::SystemSide;
use cyc_system::away_law;
use cyc_types::{Calls, CyclicId, Raise};
use cyc_workers::{Signals, settle_all};
use std::sync::Wait;

/// The firing side of a system whose CPUs were asked whether they have settled, and a cyclic whose handler refused before.
#[derive(Drop)]
pub struct Asked<R: Raise, C> {
    pub side: SystemSide<R, C>,
    pub refused: Option<CyclicId>,
}

/// Waits until every CPU of a system has settled, or a handler has refused: then no step of the system is put off. Nothing is
/// done to it but to ask its CPUs. It takes no memory.
pub fn settle<W: Wait, R: Raise, C: Calls>(
    rt: &W,
    side: SystemSide<R, C>,
    signals: &Signals<C>,
) -> Asked<R, C>
    requires { length side.leads.items ≡ length side.system.cpus.cpus }
    ensures asked { OnlyAsked R.Raise side result.side }
    ensures settled { IfNone result.refused (AllSettled R.view result.side.system.cpus.cpus) }
    ensures refused { IfSome result.refused (λ id. CanRefuse C.may_refuse id) }
{
    let SystemSide { system, leads } = side;
    away_law::<C, R>();
    let (desk, mut hards) = system.split();
    let refused = settle_all(rt, &mut hards, leads.as_slice(), signals);
    let system = desk.unite(hards);
    Asked {
        side: SystemSide { system, leads },
        refused,
    }
}
