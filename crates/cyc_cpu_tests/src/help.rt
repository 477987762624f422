//! CPUs over rings and over levels that one thread has, and calls at both that are always allowed.
ghost use Rattle.std.specs.Prelude.{◌≡◌, ◌-◌, ◌^◌, [], IfOk, OnOk};
ghost use Rattle.cyc_core.specs.Tables.{level_of};
ghost use Rattle.cyc_core.specs.FiringSide.{firing_view};
ghost use Rattle.cyc_ring.specs.Ends.{IsRaiseSeatOf, IsDrainSeatOf, raise_trail, end_view};
ghost use Rattle.cyc_cpu.specs.Cpu.{IsFresh};

use cyc_core::LevelCore;
use cyc_cpu::Hard;
use cyc_ring::{DrainEnd, DrainSeat, RaiseEnd, RaiseSeat, Ring, softint};
use cyc_soft::Ran;
use cyc_timers::Fired;
use cyc_types::{Ceiling, CyclicId, Level, Moment, Raise, Soft, Tally, When};
use std::alloc::Global;
use std::fmt::Debug;
use std::process::Abort;
use std::test::Fail;

/// An id.
pub(crate) fn id(number: u64) -> Result<CyclicId, Fail> {
    match CyclicId::new(number) {
        Some(id) => Ok(id),
        None => Err(Fail::from("an id")),
    }
}

/// A new ring of this ceiling, and its two seats.
pub(crate) fn open(alloc: Global, ceiling: u32) -> Result<(Ring, RaiseSeat, DrainSeat), Fail>
    ensures own { IfOk result (λ r. IsRaiseSeatOf r.0 r.1 × IsDrainSeatOf r.0 r.2) }
    ensures empty { IfOk result (λ r. raise_trail r.1 ≡ []) }
{
    let Some(ceiling) = Ceiling::new(ceiling) else {
        return Err(Fail::from("a ceiling"));
    };
    match Ring::open(alloc, ceiling, 0) {
        Ok(opened) => Ok(opened),
        Err(_) => Err(Fail::from("memory")),
    }
}

/// The firing end of a new ring.
pub(crate) fn raise_end<'a>(ring: &'a Ring, seat: RaiseSeat) -> RaiseEnd<'a>
    requires own { IsRaiseSeatOf ring.now seat }
    requires empty { raise_trail seat ≡ [] }
    ensures { IsFresh (end_view result) }
{
    RaiseEnd::new(ring, seat)
}

/// A new level of this ceiling.
pub(crate) fn level(alloc: Global, ceiling: u32) -> Result<LevelCore, Fail>
    ensures { IfOk result (λ core. IsFresh (firing_view (level_of core))) }
{
    let Some(ceiling) = Ceiling::new(ceiling) else {
        return Err(Fail::from("a ceiling"));
    };
    match LevelCore::new(alloc, ceiling) {
        Ok(core) => Ok(core),
        Err(_) => Err(Fail::from("memory")),
    }
}

/// A CPU over two new ends, whose cyclics expire as often as a count goes.
pub(crate) fn cpu<R: Raise + Drop>(alloc: Global, lock: R, low: R) -> Result<Hard<R>, Fail>
    requires lock { IsFresh (R.view lock) }
    requires low { IsFresh (R.view low) }
    ensures { IfOk result (λ cpu. cpu.most ≡ 2 ^ 64 - 1) }
{
    match Hard::new(alloc, u64::MAX, lock, low) {
        Ok(cpu) => Ok(cpu),
        Err(_) => Err(Fail::from("memory")),
    }
}

/// Adds a cyclic of this level, start and interval, at this moment.
pub(crate) fn add<R: Raise>(
    cpu: &mut Hard<R>,
    id: CyclicId,
    level: Level,
    start: i64,
    interval: i64,
    now: i64,
) -> Result<(), Fail>
    ensures { OnOk result (cpu.new.most ≡ cpu.old.most) }
{
    let when = When::new(start, interval)?;
    let now = Moment::new(now)?;
    let None = cpu.pending(id) else {
        return Err(Fail::from("an id that is not here"));
    };
    match cpu.add(id, level, when, now) {
        Ok(()) => Ok(()),
        Err(refusal) => Err(Fail::from(refusal)),
    }
}

/// Fires at this moment: the expirations and the losses.
pub(crate) fn fire<R: Raise>(
    cpu: &mut Hard<R>,
    tally: &mut Tally,
    now: i64,
) -> Result<(u64, u64), Fail>
    ensures { OnOk result (cpu.new.most ≡ cpu.old.most) }
{
    let now = Moment::new(now)?;
    match cpu.fire(now, tally) {
        Ok(
            Fired {
                expired,
                lost,
                next: _,
            },
        ) => Ok((expired, lost)),
        Err(refused) => Err(Fail::from(refused)),
    }
}

/// The counts of a cyclic, as a report has them.
#[derive(Clone, Copy, Debug, PartialEq, Eq)]
pub(crate) struct Counts {
    pub(crate) expired: u64,
    pub(crate) called: u64,
    pub(crate) lost: u64,
    /// The calls that are outstanding.
    pub(crate) pending: u32,
}

/// The counts of the id. None where it is not on this CPU.
pub(crate) fn report<R: Raise>(cpu: &mut Hard<R>, tally: &Tally, id: CyclicId) -> Option<Counts>
    ensures { cpu.new.most ≡ cpu.old.most }
{
    let called = tally.count(id)?;
    match cpu.totals(id) {
        Some(totals) => Some(Counts {
            expired: totals.expired,
            called,
            lost: totals.lost,
            pending: totals.pending,
        }),
        None => None,
    }
}

/// A soft interrupt over a ring: its calls, and whether it is idle.
// It has no contract, and so the proofs of the tests that call it are short.
pub(crate) fn interrupts(
    drain: &mut DrainEnd,
    tally: &mut Tally,
    level: Soft,
    budget: u32,
) -> Result<(u32, bool), Fail> {
    match softint(drain, tally, level, budget) {
        Ok(Ran { calls, idle }) => Ok((calls, idle)),
        Err(refused) => Err(Fail::from(refused)),
    }
}

/// Ends the test where what was found is not what was wanted.
// As a call of its own it keeps the proofs of the tests short.
pub(crate) fn expect<T: PartialEq + Debug + Copy>(rt: &impl Abort, found: T, wanted: T) {
    assert_eq!(rt; found, wanted);
}
