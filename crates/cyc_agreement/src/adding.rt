//! An omnipresent cyclic comes to every online CPU.

ghost use Rattle.std.specs.Prelude.{◌≡◌, ◌<◌, ◌≤◌, ℕ, [], ◌∷◌, Err, length};
ghost use Rattle.cyc_types.specs.Limits.{last_id};
ghost use Rattle.cyc_types.specs.Series.{never};
ghost use Rattle.cyc_types.specs.Reasons.{bad_now};
ghost use Rattle.cyc_cpu.specs.Cpu.{HasNoCyclic, MayWiden};
ghost use Rattle.cyc_agreement.specs.Cpus.{OfCpu, IsOnline, online_cpus, Works};
ghost use Rattle.cyc_agreement.specs.Adding.{add_request, entering};
ghost use Rattle.cyc_agreement.specs.Holding.{Holds};
ghost use Rattle.cyc_agreement.specs.System.{SystemView};
ghost use Rattle.cyc_agreement.specs.Refusals.{Unless, ids_spent};
ghost use Rattle.cyc_agreement.specs.Omni.{entering_each, AddsOmni, last_after};

use crate::component::component_first;
use crate::cpus::Cpus;
use cyc_places::{Placement, Records};
use cyc_types::{CyclicId, Interval, Level, Moment, Raise, Refusal, Sent, When};

/// A CPU that has the memory grows where it must, and takes a cyclic that has not expired yet, with its first expiration in
/// nanoseconds (`cyclic_add_here`). Refuses nothing, and takes no memory.
pub fn enter<R: Raise>(
    cpus: &mut Cpus<R>,
    number: u32,
    id: CyclicId,
    level: Level,
    interval: Interval,
    moment: Moment,
)
    requires number { number < length cpus.old.cpus }
    requires room { OfCpu number (MayWiden R.view 1) cpus.old }
    requires absent { OfCpu number (λ cpu. HasNoCyclic id cpu.cyclics) cpus.old }
    ensures { Works R.Raise (entering number id level interval moment) cpus.old cpus.new }
{
    cpus.cpu_mut(number).widen(1);
    cpus.cpu_mut(number)
        .place(id, level, interval, moment, Sent { sent: 0, lost: 0 });
}

/// Every online CPU, each of which has the memory, takes its component, which has not expired yet.
fn enter_each<R: Raise>(
    cpus: &mut Cpus<R>,
    id: CyclicId,
    level: Level,
    start: Moment,
    interval: Interval,
    skew: Moment,
    now: Moment,
)
    requires now { now < never }
    requires room { (n : ℕ) → IsOnline n cpus.old → OfCpu n (MayWiden R.view 1) cpus.old }
    requires absent { (n : ℕ) → OfCpu n (λ cpu. HasNoCyclic id cpu.cyclics) cpus.old }
    ensures { Works R.Raise (entering_each (online_cpus cpus.old) id level
        (record { start = start; interval = interval }) skew now) cpus.old cpus.new }
{
    for number in 0..cpus.count() {
        if cpus.is_online(number) {
            let first = component_first(number, start, interval, skew, now);
            enter(cpus, number, id, level, interval, first);
        }
    }
}

/// Adds an omnipresent cyclic, with a component on each online CPU, and gives its id, the one after the `last` that was given
/// (`cyclic_add_omni`). The component of CPU `c` starts `c` times the skew after the cyclic's own start, and at most at never;
/// its first expiration is what that start says at `now`.
///
/// Refuses with BadNow where `now` is never, then with IdsSpent where the last id was given; then with what `room` of one says
/// on the first online CPU that has none, in rising number: Full, Busy, Expanding; then with Memory. All memory is taken before
/// the first CPU grows. A refused call spends no id.
pub fn add_omni<R: Raise>(
    cpus: &mut Cpus<R>,
    records: &mut Records,
    last: u64,
    level: Level,
    when: When,
    skew: Moment,
    now: Moment,
) -> Result<CyclicId, Refusal>
    requires low { last ≤ last_id }
    requires holds { Holds (record { cpus = cpus.old; records = records.old.list; last = last }) }
    ensures did { Unless {S = SystemView R} (bad_now now ∷ ids_spent
        (record { cpus = cpus.old; records = records.old.list; last = last }) ∷ [])
        (λ e. Err e) result (record { cpus = cpus.old; records = records.old.list; last = last })
        (record { cpus = cpus.new; records = records.new.list; last = last_after last result })
        (AddsOmni R.Raise (add_request level when now) skew result
        (record { cpus = cpus.old; records = records.old.list; last = last })
        (record { cpus = cpus.new; records = records.new.list; last = last_after last result })) }
    ensures holds { Holds (record { cpus = cpus.new; records = records.new.list; last = last_after last result }) }
{
    if now.nanoseconds() == Moment::NEVER.nanoseconds() {
        return Err(Refusal::BadNow);
    }
    let Some(id) = CyclicId::new(last + 1) else {
        return Err(Refusal::IdsSpent);
    };
    cpus.law();
    cpus.reserve_each(1)?;
    records.reserve()?;
    let When { start, interval } = when;
    enter_each(cpus, id, level, start, interval, skew, now);
    let when = When { start, interval };
    records.push(id, level, Placement::Everywhere { when, skew });
    Ok(id)
}
