//! The turn of one cyclic in a juggle.

ghost use Rattle.std.specs.Prelude.{◌≡◌, ℕ, ◌+◌, ◌<◌, length, true, false, Some, None};
ghost use Rattle.std.specs.List.{slice_get};
ghost use Rattle.cyc_types.specs.Limits.{cyclics};
ghost use Rattle.cyc_places.specs.declared.record.Placement.TheVariants.{On};
ghost use Rattle.cyc_places.specs.declared.record.Record.{Record};
ghost use Rattle.cyc_places.specs.Places.{IsRecord};
ghost use Rattle.cyc_agreement.specs.Destination.{destination};
ghost use Rattle.cyc_agreement.specs.System.{has, ids_on, removal_on};
ghost use Rattle.cyc_agreement.specs.Agreement.{Agrees};
ghost use Rattle.cyc_system.specs.Juggling.{system_of, TakesTurn, counted};
ghost use Rattle.cyc_system.specs.Walking.{Visits, VisitsOne, all_turns};

use cyc_agreement::Cpus;
use cyc_places::{Placement, Records};
use cyc_types::{CyclicId, JuggleReport, Raise, Refusal};

/// What became of one cyclic at its turn.
#[derive(Clone, Copy)]
pub enum Turn {
    /// It stays: it is bound to its CPU.
    StaysBound,
    /// It stays: calls of it are outstanding.
    StaysPending,
    /// It stays: its destination has no room for it, or no memory.
    StaysRefused,
    /// It is at its destination now.
    Moves,
}

/// A cyclic that is not bound goes to its destination, if it can (`cyclic_juggle_one`).
fn go<R: Raise>(
    cpus: &mut Cpus<R>,
    records: &mut Records,
    source: u32,
    id: CyclicId,
    position: usize,
) -> Turn
    requires agrees { (last : ℕ) × Agrees (system_of cpus.old records.old last) }
    requires record { (r : Record) × IsRecord records.old.list position r × (r.id ≡ id) × (r.placement ≡ On source false) }
    requires still { removal_on source cpus.old ≡ None }
    requires other { (d : ℕ) × (destination (Some source) cpus.old ≡ Some d) }
    ensures did { (last : ℕ) → TakesTurn R.Raise source id result (system_of cpus.old records.old last)
        (system_of cpus.new records.new last) }
    ensures agrees { (last : ℕ) → Agrees (system_of cpus.old records.old last) → Agrees (system_of cpus.new records.new last) }
{
    cpus.law();
    records.law();
    let Some(target) = cpus.destination(Some(source)) else {
        unreachable!()
    };
    match cpus.shift(id, source, target) {
        Ok(()) => {
            let there = Placement::On {
                cpu: target,
                bound: false,
            };
            records.set_placement(position, there);
            Turn::Moves
        }
        Err(why) => match why {
            Refusal::Pending => Turn::StaysPending,
            _ => Turn::StaysRefused,
        },
    }
}

/// The turn of a cyclic of the source. None where it is omnipresent: then it has none.
fn turn_of<R: Raise>(
    cpus: &mut Cpus<R>,
    records: &mut Records,
    source: u32,
    id: CyclicId,
) -> Option<Turn>
    requires agrees { (last : ℕ) × Agrees (system_of cpus.old records.old last) }
    requires here { has source id cpus.old ≡ true }
    requires still { removal_on source cpus.old ≡ None }
    requires other { (d : ℕ) × (destination (Some source) cpus.old ≡ Some d) }
    ensures did { (last : ℕ) → Visits R.Raise source id result (system_of cpus.old records.old last)
        (system_of cpus.new records.new last) }
    ensures agrees { (last : ℕ) → Agrees (system_of cpus.old records.old last) → Agrees (system_of cpus.new records.new last) }
{
    records.law();
    let Some(position) = records.find(id) else {
        unreachable!()
    };
    match records.at(position).placement {
        Placement::On { cpu: _, bound } => {
            if bound {
                return Some(Turn::StaysBound);
            }
            Some(go(cpus, records, source, id, position))
        }
        Placement::Everywhere { when: _, skew: _ } => None,
    }
}

/// Counts a turn.
fn count(report: &mut JuggleReport, turn: Turn)
    requires { all_turns report.old < cyclics }
    ensures { report.new ≡ counted turn report.old }
{
    match turn {
        Turn::StaysBound => report.bound += 1,
        Turn::StaysPending => report.pending += 1,
        Turn::StaysRefused => report.refused += 1,
        Turn::Moves => report.moved += 1,
    }
}

/// The turn of a cyclic of the source, which is counted.
pub(crate) fn visit<R: Raise>(
    cpus: &mut Cpus<R>,
    records: &mut Records,
    source: u32,
    id: CyclicId,
    report: &mut JuggleReport,
)
    requires agrees { (last : ℕ) × Agrees (system_of cpus.old records.old last) }
    requires here { has source id cpus.old ≡ true }
    requires still { removal_on source cpus.old ≡ None }
    requires other { (d : ℕ) × (destination (Some source) cpus.old ≡ Some d) }
    requires few { all_turns report.old < cyclics }
    ensures did { VisitsOne R.Raise source id (record { report = report.old; cpus = cpus.old; records = records.old })
        (record { report = report.new; cpus = cpus.new; records = records.new }) }
    ensures agrees { (last : ℕ) → Agrees (system_of cpus.old records.old last) → Agrees (system_of cpus.new records.new last) }
{
    let Some(turn) = turn_of(cpus, records, source, id) else {
        return;
    };
    count(report, turn);
}
