//! The counts of a cyclic over all CPUs and all stays.

ghost use Rattle.std.specs.Prelude.{◌≡◌, ◌<◌, ◌≤◌, ◌*◌, ◌^◌, ℕ, List, map, length, sum_by};
ghost use Rattle.cyc_types.specs.Limits.{most_cpus};
ghost use Rattle.cyc_agreement.specs.Cpus.{Works};
ghost use Rattle.cyc_places.specs.declared.record.Record.{Record};
ghost use Rattle.cyc_agreement.specs.Holding.{Holds};
ghost use Rattle.cyc_agreement.specs.Removing.{cpus_with};
ghost use Rattle.cyc_agreement.specs.Counting.{Counted, asked, GoingOn, AsksTotals};
ghost use Rattle.cyc_agreement.specs.Withdrawing.{system};

use crate::cpus::Cpus;
use cyc_places::Records;
use cyc_types::{CyclicId, Raise};

/// The counts of a cyclic over all CPUs, with those of its stays that have ended.
#[derive(Clone, Copy, Debug, PartialEq, Eq)]
pub struct SystemTotals {
    /// The expirations.
    pub expired: u128,
    /// Those of them that were lost at the ceiling.
    pub lost: u128,
    /// The calls that are outstanding: pending, in hand or kept for a removal.
    pub pending: u64,
}

/// The counts of the stays that go on. Every CPU that has the cyclic is asked for them.
pub(crate) fn ask_each<R: Raise>(cpus: &mut Cpus<R>, id: CyclicId) -> SystemTotals
    ensures did { (way : List Counted) × (map (λ a. a.cpu) way ≡ cpus_with id cpus.old)
        × Works R.Raise (map (asked id) way) cpus.old cpus.new × GoingOn way result }
    ensures holds { (records : List Record) (last : ℕ) → Holds (system cpus.old records last)
        → Holds (system cpus.new records last) }
    ensures expired { result.expired ≤ most_cpus * 2 ^ 64 }
    ensures lost { result.lost ≤ most_cpus * 2 ^ 64 }
{
    let mut sum = SystemTotals {
        expired: 0,
        lost: 0,
        pending: 0,
    };
    for number in 0..cpus.count() {
        if let Some(part) = cpus.cpu_mut(number).totals(id) {
            sum.expired += u128::from(part.expired);
            sum.lost += u128::from(part.lost);
            sum.pending += u64::from(part.pending);
        }
    }
    sum
}

/// The counts of a cyclic over all CPUs that have it, with those of its stays that have ended, and its calls that are
/// outstanding. None where no cyclic has the id. Takes no memory.
///
/// No crate here calls it: `agreed_totals` answers the same of CPUs and records that agree, and asks the one CPU of most cyclics.
pub fn system_totals<R: Raise>(
    cpus: &mut Cpus<R>,
    records: &Records,
    id: CyclicId,
) -> Option<SystemTotals>
    ensures did { (last : ℕ) → AsksTotals R.Raise id result (system cpus.old records.now.list last)
        (system cpus.new records.now.list last) }
    ensures holds { (last : ℕ) → Holds (system cpus.old records.now.list last) → Holds (system cpus.new records.now.list last) }
{
    records.law();
    let position = records.find(id)?;
    let record = records.at(position);
    let going_on = ask_each(cpus, id);
    Some(SystemTotals {
        expired: record.ended_sent() + going_on.expired,
        lost: record.ended_lost() + going_on.lost,
        pending: going_on.pending,
    })
}
