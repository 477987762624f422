//! A CPU takes part again, with its components.

ghost use Rattle.std.specs.Prelude.{◌≡◌, ◌<◌, ◌≤◌, ℕ, [], ◌∷◌, Err, length, filter, map, slice_set, true};
ghost use Rattle.cyc_types.specs.Limits.{most_cpus};
ghost use Rattle.cyc_types.specs.Series.{never};
ghost use Rattle.cyc_types.specs.Reasons.{bad_now};
ghost use Rattle.cyc_types.specs.Counting.{no_counts};
ghost use Rattle.cyc_cpu.specs.Calls.{MayPlace};
ghost use Rattle.cyc_places.specs.declared.record.Record.{Record as TheRecord};
ghost use Rattle.cyc_places.specs.Places.{IsRecord, HasRisingIds, HaveCounts, ended_on, with_ended, is_everywhere};
ghost use Rattle.cyc_agreement.specs.Cpus.{OfCpu, Works};
ghost use Rattle.cyc_agreement.specs.Holding.{Holds};
ghost use Rattle.cyc_agreement.specs.System.{SystemView};
ghost use Rattle.cyc_agreement.specs.Refusals.{Unless, no_cpu};
ghost use Rattle.cyc_agreement.specs.Online.{online_cpu, is_staying as is_staying_of, staying, return_at, returns, after_return};
ghost use Rattle.cyc_agreement.specs.Online.{GoesOnline};

use cyc_agreement::{Cpus, component_first, is_leaving};
use cyc_places::{Placement, Record, Records};
use cyc_types::{Moment, Raise, Refusal, When};

/// Whether the cyclic at this position is omnipresent, and its removal is not open.
fn is_staying<R: Raise>(cpus: &Cpus<R>, records: &Records, position: usize) -> bool
    requires { position < length records.now.list }
    ensures { (r : TheRecord) → IsRecord records.now.list position r → result ≡ is_staying_of cpus.now r }
{
    let record = records.at(position);
    record.placement.is_everywhere() && !is_leaving(cpus, record.id)
}

/// How many omnipresent cyclics there are whose removal is not open.
fn count_staying<R: Raise>(cpus: &Cpus<R>, records: &Records) -> usize
    ensures { result ≡ length (filter (is_staying_of cpus.now) records.now.list) }
{
    let mut count = 0;
    for position in 0..records.len() {
        if is_staying(cpus, records, position) {
            count += 1;
        }
    }
    count
}

/// The omnipresent cyclic at this position comes back to a CPU that has an index for it, with the counts that it left there.
fn bring_back<R: Raise>(
    cpus: &mut Cpus<R>,
    records: &mut Records,
    number: u32,
    position: usize,
    now: Moment,
)
    requires now { now < never }
    requires number { number < length cpus.old.cpus }
    requires few { length cpus.old.cpus ≤ most_cpus }
    requires position { position < length records.old.list }
    requires everywhere { (r : TheRecord) → IsRecord records.old.list position r → is_everywhere r.placement ≡ true }
    requires fits { (r : TheRecord) → IsRecord records.old.list position r
        → OfCpu number (MayPlace r.id (ended_on number r)) cpus.old }
    ensures did { (r : TheRecord) → IsRecord records.old.list position r → Works R.Raise
        (return_at number now r.id r.level (ended_on number r) r.placement) cpus.old cpus.new }
    ensures list { (r : TheRecord) → IsRecord records.old.list position r
        → records.new.list ≡ slice_set records.old.list position (with_ended number no_counts r) }
{
    let Record {
        id,
        level,
        placement: there,
        ended: _,
    } = *records.at(position);
    let Placement::Everywhere { when, skew } = there else {
        unreachable!()
    };
    let When { start, interval } = when;
    let counts = records.take_ended(position, number as usize);
    let first = component_first(number, start, interval, skew, now);
    cpus.cpu_mut(number)
        .place(id, level, interval, first, counts);
}

/// All omnipresent cyclics whose removal is not open come back to a CPU that has no cyclic and an index for each of them.
fn bring_all_back<R: Raise>(cpus: &mut Cpus<R>, records: &mut Records, number: u32, now: Moment)
    requires now { now < never }
    requires number { number < length cpus.old.cpus }
    requires few { length cpus.old.cpus ≤ most_cpus }
    requires rising { HasRisingIds records.old.list }
    requires counts { HaveCounts records.old.list }
    requires empty { OfCpu number (λ cpu. cpu.cyclics ≡ []) cpus.old }
    requires room { OfCpu number (λ cpu. length (filter (is_staying_of cpus.old) records.old.list) ≤ cpu.size) cpus.old }
    requires within { (k : ℕ) (r : TheRecord) → IsRecord records.old.list k r
        → OfCpu number (λ cpu. (ended_on number r).sent ≤ cpu.most) cpus.old }
    ensures did { Works R.Raise (returns number now (filter (is_staying_of cpus.old) records.old.list)) cpus.old cpus.new }
    ensures list { records.new.list ≡ map (after_return number cpus.old) records.old.list }
{
    for position in 0..records.len() {
        if is_staying(cpus, records, position) {
            bring_back(cpus, records, number, position, now);
        }
    }
}

/// A CPU takes part again, with a component of each omnipresent cyclic whose removal is not open (`cyclic_online`). A component
/// begins from its start, as one that is added at `now`, with the counts that its earlier stays left on this CPU. The CPU grows
/// once, to the smallest size that holds them all.
///
/// Refuses with NoCpu where there is no such CPU, with Online where it takes part already, with BadNow where `now` is never,
/// with Expanding where the CPU has to grow and its last growth is not over, then with Memory.
pub(crate) fn online<R: Raise>(
    cpus: &mut Cpus<R>,
    records: &mut Records,
    number: u32,
    now: Moment,
) -> Result<(), Refusal>
    requires holds { (last : ℕ) × Holds (record { cpus = cpus.old; records = records.old.list; last = last }) }
    ensures did { (last : ℕ) → Unless {S = SystemView R}
        (no_cpu number (record { cpus = cpus.old; records = records.old.list; last = last })
        ∷ online_cpu number (record { cpus = cpus.old; records = records.old.list; last = last }) ∷ bad_now now ∷ [])
        (λ e. Err e) result (record { cpus = cpus.old; records = records.old.list; last = last })
        (record { cpus = cpus.new; records = records.new.list; last = last })
        (GoesOnline R.Raise number now result (record { cpus = cpus.old; records = records.old.list; last = last })
        (record { cpus = cpus.new; records = records.new.list; last = last })) }
    ensures holds { (last : ℕ) → Holds (record { cpus = cpus.old; records = records.old.list; last = last })
        → Holds (record { cpus = cpus.new; records = records.new.list; last = last }) }
{
    if number >= cpus.count() {
        return Err(Refusal::NoCpu);
    }
    if cpus.is_online(number) {
        return Err(Refusal::Online);
    }
    if now.nanoseconds() == Moment::NEVER.nanoseconds() {
        return Err(Refusal::BadNow);
    }
    cpus.law();
    records.law();
    let more = count_staying(cpus, records);
    cpus.cpu_mut(number).reserve(more)?;
    cpus.cpu_mut(number).widen(more);
    bring_all_back(cpus, records, number, now);
    cpus.set_online(number, true);
    Ok(())
}
