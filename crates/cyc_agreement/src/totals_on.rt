//! The counts of a cyclic whose record says where it is.

ghost use Rattle.std.specs.Prelude.{◌≡◌, ◌≤◌, ◌*◌, ◌^◌, ℕ, List, Bool, map, true};
ghost use Rattle.cyc_types.specs.Limits.{most_cpus};
ghost use Rattle.cyc_places.specs.declared.record.Placement.TheVariants.{On};
ghost use Rattle.cyc_places.specs.declared.record.Record.{Record};
ghost use Rattle.cyc_agreement.specs.Cpus.{Works};
ghost use Rattle.cyc_agreement.specs.System.{has};
ghost use Rattle.cyc_agreement.specs.Holding.{Holds};
ghost use Rattle.cyc_agreement.specs.Removing.{cpus_with};
ghost use Rattle.cyc_agreement.specs.Counting.{Counted, asked, GoingOn, AsksTotals};
ghost use Rattle.cyc_agreement.specs.Withdrawing.{system};

use crate::cpus::Cpus;
use crate::totals::{SystemTotals, ask_each};
use cyc_places::{Placement, Records};
use cyc_types::{CyclicId, Raise};

/// The counts of the stay that goes on of a cyclic that this CPU alone has.
fn ask_on<R: Raise>(cpus: &mut Cpus<R>, id: CyclicId, number: u32) -> SystemTotals
    requires here { has number id cpus.old ≡ true }
    requires only { (m : ℕ) → has m id cpus.old ≡ true → m ≡ number }
    ensures did { (way : List Counted) × (map (λ a. a.cpu) way ≡ cpus_with id cpus.old)
        × Works R.Raise (map (asked id) way) cpus.old cpus.new × GoingOn way result }
    ensures holds { (records : List Record) (last : ℕ) → Holds (system cpus.old records last)
        → Holds (system cpus.new records last) }
    ensures expired { result.expired ≤ most_cpus * 2 ^ 64 }
    ensures lost { result.lost ≤ most_cpus * 2 ^ 64 }
{
    let Some(part) = cpus.cpu_mut(number).totals(id) else {
        unreachable!()
    };
    SystemTotals {
        expired: u128::from(part.expired),
        lost: u128::from(part.lost),
        pending: u64::from(part.pending),
    }
}

/// The counts of the stays that go on of a cyclic with this placement.
fn ask_at<R: Raise>(cpus: &mut Cpus<R>, id: CyclicId, placement: Placement) -> SystemTotals
    requires home { (n : ℕ) (bound : Bool) → placement ≡ On n bound
        → (has n id cpus.old ≡ true) × ((m : ℕ) → has m id cpus.old ≡ true → m ≡ n) }
    ensures did { (way : List Counted) × (map (λ a. a.cpu) way ≡ cpus_with id cpus.old)
        × Works R.Raise (map (asked id) way) cpus.old cpus.new × GoingOn way result }
    ensures holds { (records : List Record) (last : ℕ) → Holds (system cpus.old records last)
        → Holds (system cpus.new records last) }
    ensures expired { result.expired ≤ most_cpus * 2 ^ 64 }
    ensures lost { result.lost ≤ most_cpus * 2 ^ 64 }
{
    match placement {
        Placement::On { cpu, bound: _ } => ask_on(cpus, id, cpu),
        Placement::Everywhere { when: _, skew: _ } => ask_each(cpus, id),
    }
}

/// The same as `system_totals`, of CPUs and records that agree: of a cyclic that is on one CPU it asks that CPU alone. None
/// where no cyclic has the id. Takes no memory.
pub fn agreed_totals<R: Raise>(
    cpus: &mut Cpus<R>,
    records: &Records,
    id: CyclicId,
) -> Option<SystemTotals>
    requires { (last : ℕ) × Holds (system cpus.old records.now.list last) }
    ensures did { (last : ℕ) → AsksTotals R.Raise id result (system cpus.old records.now.list last)
        (system cpus.new records.now.list last) }
    ensures holds { (last : ℕ) → Holds (system cpus.old records.now.list last) → Holds (system cpus.new records.now.list last) }
{
    records.law();
    let position = records.find(id)?;
    let record = records.at(position);
    let going_on = ask_at(cpus, id, record.placement);
    Some(SystemTotals {
        expired: record.ended_sent() + going_on.expired,
        lost: record.ended_lost() + going_on.lost,
        pending: going_on.pending,
    })
}
