//! A cyclic moves between two CPUs over rings.

ghost use Rattle.std.specs.Prelude.{◌≡◌, ◌-◌, ◌^◌, IfOk, OnOk};

use crate::help::{Counts, add, cpu, expect, fire, id, interrupts, level, report};
use cyc_core::LevelCore;
use cyc_cpu::{Hard, Taken};
use cyc_ring::DrainEnd;
use cyc_types::{CyclicId, Interval, Level, Moment, Raise, Refusal, Sent, Soft, Tally};
use std::alloc::Global;
use std::process::Abort;
use std::test::Fail;

/// Moves the cyclic to another CPU (`cyclic_juggle_one_to`): all that it took along. None where calls of it are outstanding.
fn moves<A: Raise, B: Raise>(
    from: &mut Hard<A>,
    to: &mut Hard<B>,
    id: CyclicId,
) -> Result<Option<Taken>, Fail>
    requires { to.old.most ≡ from.old.most }
    ensures { OnOk result ((from.new.most ≡ from.old.most) × (to.new.most ≡ to.old.most)) }
{
    let None = to.pending(id) else {
        return Err(Fail::from("an id that is not here"));
    };
    to.reserve(1)?;
    to.widen(1);
    match from.take_now(id) {
        Ok(taken) => {
            to.place(id, taken.level, taken.interval, taken.moment, taken.sent);
            Ok(Some(taken))
        }
        Err(Refusal::Pending) => Ok(None),
        Err(refusal) => Err(Fail::from(refusal)),
    }
}

/// A CPU over two levels of this ceiling that one thread has.
fn plain(alloc: Global, ceiling: u32) -> Result<Hard<LevelCore>, Fail>
    ensures { IfOk result (λ cpu. cpu.most ≡ 2 ^ 64 - 1) }
{
    cpu(alloc, level(alloc, ceiling)?, level(alloc, ceiling)?)
}

/// A low cyclic of interval 1 that lost three of these expirations, with its next one.
fn taken(moment: i64, sent: u64) -> Result<Taken, Fail> {
    Ok(Taken {
        level: Level::Low,
        interval: Interval::new(1)?,
        moment: Moment::new(moment)?,
        sent: Sent { sent, lost: 3 },
    })
}

/// The counts of a cyclic that lost three expirations, and of which no call is outstanding.
fn drained(expired: u64, called: u64) -> Counts {
    Counts {
        expired,
        called,
        lost: 3,
        pending: 0,
    }
}

/// Moves the cyclic once its calls are made: three of its first five expirations are lost, and the count of them goes along.
fn there<R: Raise>(
    rt: &impl Abort,
    plain: &mut Hard<LevelCore>,
    shared: &mut Hard<R>,
    tally: &mut Tally,
) -> Result<(), Fail>
    requires { shared.old.most ≡ plain.old.most }
    ensures { OnOk result ((plain.new.most ≡ plain.old.most) × (shared.new.most ≡ shared.old.most)) }
{
    let a = id(1)?;
    add(plain, a, Level::Low, 1, 1, 0)?;
    expect(rt, fire(plain, tally, 5)?, (5, 3));
    expect(rt, moves(plain, shared, a)?, None);
    let ran = plain.softint(Soft::Low, tally, 8)?;
    expect(rt, (ran.calls, ran.idle), (2, true));
    expect(rt, moves(plain, shared, a)?, Some(taken(6, 5)?));
    expect(rt, report(plain, tally, a), None);
    expect(rt, report(shared, tally, a), Some(drained(5, 2)));
    Ok(())
}

/// Lets it expire once there, and moves it back.
fn back<R: Raise>(
    rt: &impl Abort,
    plain: &mut Hard<LevelCore>,
    shared: &mut Hard<R>,
    drain: &mut DrainEnd,
    tally: &mut Tally,
) -> Result<(), Fail>
    requires { shared.old.most ≡ plain.old.most }
{
    let a = id(1)?;
    expect(rt, fire(shared, tally, 6)?, (1, 0));
    expect(rt, moves(shared, plain, a)?, None);
    expect(rt, interrupts(drain, tally, Soft::Low, 8)?, (1, true));
    expect(rt, moves(shared, plain, a)?, Some(taken(7, 6)?));
    expect(rt, report(shared, tally, a), None);
    expect(rt, report(plain, tally, a), Some(drained(6, 3)));
    Ok(())
}

/// A cyclic that moves from one CPU to the other, and back.
fn both_ways<R: Raise>(
    rt: &impl Abort,
    plain: &mut Hard<LevelCore>,
    shared: &mut Hard<R>,
    drain: &mut DrainEnd,
    tally: &mut Tally,
) -> Result<(), Fail>
    requires { shared.old.most ≡ plain.old.most }
{
    there(rt, plain, shared, tally)?;
    back(rt, plain, shared, drain, tally)
}

/// A cyclic that moves from a CPU over plain levels to this one, and back. The ceiling is 2.
pub(crate) fn there_and_back<R: Raise>(
    rt: &impl Abort,
    alloc: Global,
    shared: &mut Hard<R>,
    drain: &mut DrainEnd,
    tally: &mut Tally,
) -> Result<(), Fail>
    requires { shared.old.most ≡ 2 ^ 64 - 1 }
{
    let mut plain = plain(alloc, 2)?;
    both_ways(rt, &mut plain, shared, drain, tally)
}
