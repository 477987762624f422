//! Calls of a system as values, so that a worked row is a table.

use crate::help::{id, of_one_cpu, of_two_cpus};
use cyc_agreement::{SystemRemoval, SystemTotals};
use cyc_core::LevelCore;
use cyc_soft::{Ran, SoftRefused};
use cyc_system::{CpuOrOmni, SoftFault, System};
use cyc_timers::{FireRefused, Fired};
use cyc_types::{CyclicId, JuggleReport, Level, Moment, Receipt, Refusal, Soft, When};
use std::alloc::Global;
use std::process::Abort;
use std::test::Fail;
use test_handlers::Handlers;

/// A call of a system.
#[derive(Clone, Copy)]
pub(crate) enum Step {
    /// Adds a cyclic of the level, with this start and interval, at this moment.
    Add(Level, i64, i64, i64),
    /// Adds an omnipresent cyclic of the level, with this start, interval and skew, at this moment.
    Omni(Level, i64, i64, i64, i64),
    /// Begins the removal of the id, and asks for its end.
    Remove(u64),
    Poll(u64),
    /// The counts of the id.
    Totals(u64),
    /// Moves the cyclics of a CPU away.
    Juggle(u32),
    /// Takes a CPU offline.
    Offline(u32),
    /// Takes a CPU back at this moment.
    Online(u32, i64),
    /// Binds the id to a CPU, or to none.
    Bind(u64, Option<u32>),
    /// Gives the id this next expiration.
    Reprogram(u64, i64),
    /// Gives the component of the id on a CPU this next expiration.
    ReprogramOn(u64, u32, i64),
    /// Fires a CPU at this moment.
    Fire(u32, i64),
    /// The soft interrupt of a level of a CPU with this budget.
    Softint(u32, Soft, u32),
    /// Where the id is.
    Place(u64),
    /// How many cyclics a CPU has.
    Len(u32),
    /// The handler call of this number, counted from 0.
    Call(usize),
}

/// What a call answers.
#[derive(Clone, Copy, Debug, PartialEq, Eq)]
pub(crate) enum Answer {
    Done,
    Id(u64),
    Refused(Refusal),
    /// Expirations, losses, and the next expiration.
    Fired(u64, u64, u64),
    /// The refusal, with the expirations and losses before it.
    FireRefused(Refusal, u64, u64),
    /// The handler calls, and whether it was idle.
    Ran(u32, bool),
    /// The id that was refused, and the handler calls before it.
    SoftRefused(u64, u32),
    /// A receipt's expirations and losses.
    Receipt(u128, u128),
    /// The calls that a removal keeps.
    Kept(u64),
    /// Expirations, losses and outstanding calls.
    Totals(u128, u128, u64),
    /// Those that moved, are bound, have calls outstanding, and were refused.
    Juggled(u32, u32, u32, u32),
    Place(CpuOrOmni),
    Len(usize),
    /// The id and the level.
    Call(u64, Level),
    Nothing,
}

fn done(answer: Result<(), Refusal>) -> Answer {
    match answer {
        Ok(()) => Answer::Done,
        Err(refusal) => Answer::Refused(refusal),
    }
}

fn given(answer: Result<CyclicId, Refusal>) -> Answer {
    match answer {
        Ok(id) => Answer::Id(id.number()),
        Err(refusal) => Answer::Refused(refusal),
    }
}

fn receipt(receipt: Receipt) -> Answer {
    Answer::Receipt(receipt.sent, receipt.lost)
}

fn remove(system: &mut System<LevelCore>, id: CyclicId) -> Answer {
    match system.begin_remove(id) {
        Ok(SystemRemoval::Done(all)) => receipt(all),
        Ok(SystemRemoval::Kept(kept)) => Answer::Kept(kept),
        Err(refusal) => Answer::Refused(refusal),
    }
}

fn poll(system: &mut System<LevelCore>, id: CyclicId) -> Answer {
    match system.poll_remove(id) {
        Ok(Some(all)) => receipt(all),
        Ok(None) => Answer::Nothing,
        Err(refusal) => Answer::Refused(refusal),
    }
}

fn totals(system: &mut System<LevelCore>, id: CyclicId) -> Answer {
    match system.totals(id) {
        Some(
            SystemTotals {
                expired,
                lost,
                pending,
            },
        ) => Answer::Totals(expired, lost, pending),
        None => Answer::Nothing,
    }
}

fn juggle(system: &mut System<LevelCore>, cpu: u32) -> Answer {
    match system.juggle(cpu) {
        Ok(
            JuggleReport {
                moved,
                bound,
                pending,
                refused,
            },
        ) => Answer::Juggled(moved, bound, pending, refused),
        Err(refusal) => Answer::Refused(refusal),
    }
}

fn fire(system: &mut System<LevelCore>, calls: &mut Handlers, cpu: u32, now: Moment) -> Answer {
    match system.fire_one(cpu, now, calls) {
        Ok(
            Fired {
                expired,
                lost,
                next,
            },
        ) => Answer::Fired(expired, lost, next.nanoseconds()),
        Err(FireRefused { why, expired, lost }) => Answer::FireRefused(why, expired, lost),
    }
}

fn softint(
    system: &mut System<LevelCore>,
    calls: &mut Handlers,
    cpu: u32,
    level: Soft,
    budget: u32,
) -> Answer {
    match system.softint(cpu, level, calls, budget) {
        Ok(Ran { calls, idle }) => Answer::Ran(calls, idle),
        Err(SoftFault::NoCpu) => Answer::Refused(Refusal::NoCpu),
        Err(SoftFault::Refused(SoftRefused { id, calls })) => {
            Answer::SoftRefused(id.number(), calls)
        }
    }
}

/// Asks for what is there.
fn ask(system: &System<LevelCore>, calls: &Handlers, step: Step) -> Result<Answer, Fail> {
    match step {
        Step::Place(number) => match system.place_of(id(number)?) {
            Some(place) => Ok(Answer::Place(place)),
            None => Ok(Answer::Nothing),
        },
        Step::Len(cpu) => match system.len(cpu) {
            Some(len) => Ok(Answer::Len(len)),
            None => Ok(Answer::Nothing),
        },
        Step::Call(number) => match calls.noted(number) {
            Some((id, level)) => Ok(Answer::Call(id, level)),
            None => Ok(Answer::Nothing),
        },
        _ => Err(Fail::from("a question")),
    }
}

/// Makes a call about one cyclic.
fn change(system: &mut System<LevelCore>, step: Step) -> Result<Answer, Fail> {
    match step {
        Step::Add(level, start, interval, now) => {
            let when = When::new(start, interval)?;
            Ok(given(system.add(level, when, Moment::new(now)?)))
        }
        Step::Omni(level, start, interval, skew, now) => {
            let when = When::new(start, interval)?;
            let skew = Moment::new(skew)?;
            Ok(given(system.add_omni(level, when, skew, Moment::new(now)?)))
        }
        Step::Bind(number, cpu) => Ok(done(system.bind(id(number)?, cpu))),
        Step::Reprogram(number, moment) => {
            Ok(done(system.reprogram(id(number)?, Moment::new(moment)?)))
        }
        Step::ReprogramOn(number, cpu, moment) => Ok(done(system.reprogram_on(
            id(number)?,
            cpu,
            Moment::new(moment)?,
        ))),
        _ => Err(Fail::from("a call about a cyclic")),
    }
}

/// Makes a call about the end of a cyclic, or about one CPU.
fn shift(system: &mut System<LevelCore>, step: Step) -> Result<Answer, Fail> {
    match step {
        Step::Remove(number) => Ok(remove(system, id(number)?)),
        Step::Poll(number) => Ok(poll(system, id(number)?)),
        Step::Totals(number) => Ok(totals(system, id(number)?)),
        Step::Juggle(cpu) => Ok(juggle(system, cpu)),
        Step::Offline(cpu) => Ok(done(system.offline(cpu))),
        Step::Online(cpu, now) => Ok(done(system.online(cpu, Moment::new(now)?))),
        _ => Err(Fail::from("a call about a CPU")),
    }
}

/// Makes the call.
fn make(system: &mut System<LevelCore>, calls: &mut Handlers, step: Step) -> Result<Answer, Fail> {
    match step {
        Step::Fire(cpu, now) => Ok(fire(system, calls, cpu, Moment::new(now)?)),
        Step::Softint(cpu, level, budget) => Ok(softint(system, calls, cpu, level, budget)),
        Step::Place(_) | Step::Len(_) | Step::Call(_) => ask(system, calls, step),
        Step::Remove(_) | Step::Poll(_) | Step::Totals(_) => shift(system, step),
        Step::Juggle(_) | Step::Offline(_) | Step::Online(_, _) => shift(system, step),
        _ => change(system, step),
    }
}

/// Makes each call, which must give its answer.
pub(crate) fn play(
    rt: &impl Abort,
    system: &mut System<LevelCore>,
    calls: &mut Handlers,
    steps: &[(Step, Answer)],
) -> Result<(), Fail> {
    for &(step, answer) in steps {
        let made = make(system, calls, step)?;
        assert_eq!(rt; made, answer);
    }
    Ok(())
}

/// Makes the calls on a new system of one CPU, whose first id is this one and whose cyclics expire at most so often.
pub(crate) fn within(
    rt: &impl Abort,
    alloc: Global,
    first: u64,
    most: u64,
    steps: &[(Step, Answer)],
) -> Result<(), Fail> {
    let mut system = of_one_cpu(alloc, first, most)?;
    let mut calls = Handlers::new(alloc, 0)?;
    play(rt, &mut system, &mut calls, steps)
}

/// Makes the calls on a new system of one CPU.
pub(crate) fn on_one_cpu(
    rt: &impl Abort,
    alloc: Global,
    steps: &[(Step, Answer)],
) -> Result<(), Fail> {
    within(rt, alloc, 1, u64::MAX, steps)
}

/// Makes the calls on a new system of two CPUs.
pub(crate) fn on_two_cpus(
    rt: &impl Abort,
    alloc: Global,
    steps: &[(Step, Answer)],
) -> Result<(), Fail> {
    let mut system = of_two_cpus(alloc)?;
    let mut calls = Handlers::new(alloc, 0)?;
    play(rt, &mut system, &mut calls, steps)
}
