//! A cyclic that moves between two CPUs, each over two rings.
ghost use Rattle.std.specs.Prelude.{◌≡◌, [], IfOk};
ghost use Rattle.cyc_ring.specs.Ends.{IsRaiseSeatOf, IsDrainSeatOf, raise_trail, end_view};
ghost use Rattle.cyc_cpu.specs.Cpu.{IsFresh};

use crate::help::{id, two};
use cyc_agreement::{SystemRemoval, SystemTotals};
use cyc_ring::{DrainEnd, DrainSeat, RaiseEnd, RaiseSeat, Ring, softint};
use cyc_soft::Ran;
use cyc_system::{CpuOrOmni, System, away_law};
use cyc_types::{
    Ceiling, CyclicId, JuggleReport, Level, Moment, Raise, Refusal, Soft, Tally, When,
};
use std::alloc::Global;
use std::process::Abort;
use std::test::Fail;

/// A new ring of ceiling 2, and its two seats.
fn open(alloc: Global) -> Result<(Ring, RaiseSeat, DrainSeat), Fail>
    ensures own { IfOk result (λ r. IsRaiseSeatOf r.0 r.1 × IsDrainSeatOf r.0 r.2) }
    ensures empty { IfOk result (λ r. raise_trail r.1 ≡ []) }
{
    let Some(ceiling) = Ceiling::new(2) else {
        return Err(Fail::from("a ceiling"));
    };
    match Ring::open(alloc, ceiling, 0) {
        Ok(opened) => Ok(opened),
        Err(_) => Err(Fail::from("memory")),
    }
}

/// The firing end of a new ring.
fn raise_end<'a>(ring: &'a Ring, seat: RaiseSeat) -> RaiseEnd<'a>
    requires own { IsRaiseSeatOf ring.now seat }
    requires empty { raise_trail seat ≡ [] }
    ensures { IsFresh (end_view result) }
{
    RaiseEnd::new(ring, seat)
}

fn add<R: Raise>(system: &mut System<R>) -> Result<CyclicId, Fail> {
    let when = When::new(10, 10)?;
    match system.add(Level::Low, when, Moment::new(0)?) {
        Ok(id) => Ok(id),
        Err(refusal) => Err(Fail::from(refusal)),
    }
}

/// Fires a CPU: the expirations.
fn fire<R: Raise>(
    system: &mut System<R>,
    tally: &mut Tally,
    cpu: u32,
    now: i64,
) -> Result<u64, Fail> {
    match system.fire_one(cpu, Moment::new(now)?, tally) {
        Ok(fired) => Ok(fired.expired),
        Err(refused) => Err(Fail::from(refused)),
    }
}

fn bind<R: Raise>(system: &mut System<R>, id: CyclicId, cpu: u32) -> Result<(), Refusal> {
    system.bind(id, Some(cpu))
}

/// The calls of a soft interrupt of the low level.
fn interrupts(drain: &mut DrainEnd, tally: &mut Tally) -> Result<(u32, bool), Fail> {
    match softint(drain, tally, Soft::Low, 8) {
        Ok(Ran { calls, idle }) => Ok((calls, idle)),
        Err(_) => Err(Fail::from("a handler")),
    }
}

/// A cyclic of CPU 0 with a call outstanding stays there, and moves to CPU 1 once the call is made.
fn goes<R: Raise>(
    rt: &impl Abort,
    system: &mut System<R>,
    first: &mut DrainEnd,
    tally: &mut Tally,
    a: CyclicId,
) -> Result<(), Fail> {
    assert_eq!(rt; fire(system, tally, 0, 10)?, 1);
    assert_eq!(rt; bind(system, a, 1), Err(Refusal::Pending));
    assert_eq!(rt; interrupts(first, tally)?, (1, true));
    assert_eq!(rt; bind(system, a, 1), Ok(()));
    assert_eq!(rt; system.place_of(a), Some(CpuOrOmni::Cpu(1)));
    Ok(())
}

/// It expires on CPU 1 alone, and its call is made there.
fn arrives<R: Raise>(
    rt: &impl Abort,
    system: &mut System<R>,
    first: &mut DrainEnd,
    second: &mut DrainEnd,
    tally: &mut Tally,
) -> Result<(), Fail> {
    assert_eq!(rt; fire(system, tally, 0, 20)?, 0);
    assert_eq!(rt; fire(system, tally, 1, 20)?, 1);
    assert_eq!(rt; interrupts(first, tally)?, (0, true));
    assert_eq!(rt; interrupts(second, tally)?, (1, true));
    Ok(())
}

fn moves_with<R: Raise>(
    rt: &impl Abort,
    system: &mut System<R>,
    first: &mut DrainEnd,
    second: &mut DrainEnd,
    tally: &mut Tally,
) -> Result<(), Fail> {
    let a = add(system)?;
    goes(rt, system, first, tally, a)?;
    arrives(rt, system, first, second, tally)?;
    assert_eq!(rt; tally.count(a), Some(2));
    leaves(rt, system, a)
}

fn moves<R: Raise>(
    rt: &impl Abort,
    alloc: Global,
    system: &mut System<R>,
    first: &mut DrainEnd,
    second: &mut DrainEnd,
) -> Result<(), Fail> {
    let mut tally = Tally::new(alloc, id(1)?, 1, u64::MAX)?;
    moves_with(rt, system, first, second, &mut tally)
}

/// It moves back, and its CPU goes offline and comes back.
fn goes_back<R: Raise>(rt: &impl Abort, system: &mut System<R>, a: CyclicId) -> Result<(), Fail> {
    let now = Moment::new(20)?;
    let when = When::new(0, 10)?;
    let moved = JuggleReport {
        moved: 1,
        bound: 0,
        pending: 0,
        refused: 0,
    };
    assert_eq!(rt; system.bind(a, None), Ok(()));
    assert_eq!(rt; system.juggle(1), Ok(moved));
    assert_eq!(rt; system.place_of(a), Some(CpuOrOmni::Cpu(0)));
    assert_eq!(rt; system.offline(1), Ok(()));
    let everywhere = system.add_omni(Level::High, when, Moment::new(0)?, now);
    assert_eq!(rt; everywhere, Ok(id(2)?));
    assert_eq!(rt; system.online(1, now), Ok(()));
    Ok(())
}

/// The other calls of a system, of which one moves the cyclic back and one removes it.
fn leaves<R: Raise>(rt: &impl Abort, system: &mut System<R>, a: CyclicId) -> Result<(), Fail> {
    goes_back(rt, system, a)?;
    let totals = SystemTotals {
        expired: 2,
        lost: 0,
        pending: 0,
    };
    assert_eq!(rt; system.totals(a), Some(totals));
    assert_eq!(rt; system.poll_remove(a), Err(Refusal::NoCyclic));
    let Ok(SystemRemoval::Done(receipt)) = system.begin_remove(a) else {
        return Err(Fail::from("a removal"));
    };
    assert_eq!(rt; receipt.calls(), 2);
    Ok(())
}

/// A ring with its two seats.
type Opened = (Ring, RaiseSeat, DrainSeat);

/// The new rings of a CPU: that of the lock level, and that of the low one.
fn rings_of_a_cpu(alloc: Global) -> Result<(Opened, Opened), Fail>
    ensures lock { IfOk result (λ r. IsRaiseSeatOf r.0.0 r.0.1 × (raise_trail r.0.1 ≡ [])) }
    ensures low { IfOk result
        (λ r. IsRaiseSeatOf r.1.0 r.1.1 × IsDrainSeatOf r.1.0 r.1.2 × (raise_trail r.1.1 ≡ [])) }
{
    let lock = open(alloc)?;
    let low = open(alloc)?;
    Ok((lock, low))
}

/// Parts a system into its sides, and puts it together again.
fn part_and_unite<R: Raise + Drop>(rt: &impl Abort, system: System<R>) {
    let (desk, hards) = system.split();
    away_law::<Tally, R>();
    let system = desk.unite(hards);
    assert_eq!(rt; (system.len(0), system.len(1)), (Some(1), Some(1)));
}

/// Moves a cyclic between two CPUs over these new firing ends, whose soft interrupts are of these draining ends.
fn moves_over<R: Raise + Drop>(
    rt: &impl Abort,
    alloc: Global,
    ends: ((R, R), (R, R)),
    first: &mut DrainEnd,
    second: &mut DrainEnd,
) -> Result<(), Fail>
    requires first_lock { IsFresh (R.view ends.0.0) }
    requires first_low { IsFresh (R.view ends.0.1) }
    requires second_lock { IsFresh (R.view ends.1.0) }
    requires second_low { IsFresh (R.view ends.1.1) }
{
    let mut system = two(alloc, ends.0, ends.1)?;
    moves(rt, alloc, &mut system, first, second)?;
    part_and_unite(rt, system);
    Ok(())
}

/// Moves a cyclic between two CPUs, each over two of these rings.
fn moves_on(
    rt: &impl Abort,
    alloc: Global,
    lock: Opened,
    low: Opened,
    other_lock: Opened,
    other_low: Opened,
) -> Result<(), Fail>
    requires lock { IsRaiseSeatOf lock.0 lock.1 × (raise_trail lock.1 ≡ []) }
    requires low { IsRaiseSeatOf low.0 low.1 × IsDrainSeatOf low.0 low.2 × (raise_trail low.1 ≡ []) }
    requires other_lock { IsRaiseSeatOf other_lock.0 other_lock.1 × (raise_trail other_lock.1 ≡ []) }
    requires other_low { IsRaiseSeatOf other_low.0 other_low.1 × IsDrainSeatOf other_low.0 other_low.2
        × (raise_trail other_low.1 ≡ []) }
{
    let (lock, lock_seat, _lock_drainer) = lock;
    let (low, low_seat, low_drainer) = low;
    let (other_lock, other_lock_seat, _other_lock_drainer) = other_lock;
    let (other_low, other_low_seat, other_low_drainer) = other_low;
    let mut first = DrainEnd::new(&low, low_drainer);
    let mut second = DrainEnd::new(&other_low, other_low_drainer);
    let one = (raise_end(&lock, lock_seat), raise_end(&low, low_seat));
    let other = (
        raise_end(&other_lock, other_lock_seat),
        raise_end(&other_low, other_low_seat),
    );
    moves_over(rt, alloc, (one, other), &mut first, &mut second)
}

#[test]
fn a_cyclic_moves_from_rings_to_rings(rt: HostRuntime) -> Result<(), Fail> {
    let (lock, low) = rings_of_a_cpu(rt.alloc())?;
    let (other_lock, other_low) = rings_of_a_cpu(rt.alloc())?;
    moves_on(&rt, rt.alloc(), lock, low, other_lock, other_low)
}
