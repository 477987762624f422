//! Calls of a CPU as values, so that a worked row is a table.

ghost use Rattle.std.specs.Prelude.{◌≡◌, IfOk};
ghost use Rattle.cyc_core.specs.Tables.{level_of};
ghost use Rattle.cyc_core.specs.FiringSide.{firing_view};
ghost use Rattle.cyc_cpu.specs.Cpu.{IsFresh};

use cyc_core::LevelCore;
use cyc_cpu::{Hard, Removal, Taken, Totals};
use cyc_soft::{Ran, SoftRefused};
use cyc_timers::{FireRefused, Fired};
use cyc_types::{Ceiling, CyclicId, Level, Moment, Receipt, Refusal, Sent, Soft, When};
use std::alloc::Global;
use std::process::Abort;
use std::test::Fail;
use test_handlers::Handlers;

/// A call of a CPU.
#[derive(Clone, Copy)]
pub(crate) enum Step {
    /// Adds the id at the level, with this start and interval, at this moment.
    Add(u64, Level, i64, i64, i64),
    /// Fires at this moment.
    Fire(i64),
    /// The soft interrupt of a level with this budget.
    Softint(Soft, u32),
    /// Gives the id this next expiration.
    Reprogram(u64, i64),
    /// Asks for room for so many more.
    Room(usize),
    /// Reserves the memory for so many more.
    Reserve(usize),
    /// Reserves and makes the size what so many more need.
    Widen(usize),
    /// Begins the removal of the id.
    BeginRemove(u64),
    /// Asks whether the open removal has ended.
    PollRemove,
    /// Takes the id off this CPU.
    TakeNow(u64),
    /// Asks whether the CPU has settled.
    Settled,
    /// Suspends the CPU.
    Suspend,
    /// Resumes it.
    Resume,
    /// Asks whether it is suspended.
    IsSuspended,
    /// The counts of the id.
    Totals(u64),
    /// The calls of the id that are outstanding.
    Pending(u64),
    /// How many cyclics there are.
    Len,
    /// How often the handler of the id was called.
    Called(u64),
    /// The handler call of this number, counted from 0.
    Call(usize),
}

/// What a call answers.
#[derive(Clone, Copy, Debug, PartialEq, Eq)]
pub(crate) enum Answer {
    Done,
    Refused(Refusal),
    /// Expirations, losses, and the next expiration.
    Fired(u64, u64, u64),
    /// The refusal, with the expirations and losses before it.
    FireRefused(Refusal, u64, u64),
    /// The handler calls, and whether it was idle.
    Ran(u32, bool),
    /// The id that was refused, and the handler calls before it.
    SoftRefused(u64, u32),
    /// Expirations, losses, calls that are outstanding.
    Totals(u64, u64, u32),
    Pending(u32),
    Len(usize),
    /// The id is not here, or no removal has ended.
    Nothing,
    /// The calls that are kept.
    Kept(u32),
    /// The id that is removed, its expirations, its losses and its calls.
    Receipt(u64, u128, u128, u128),
    /// Level, interval, next expiration, expirations and losses.
    Taken(Level, u64, u64, u64, u64),
    Settled(bool),
    Suspended(bool),
    Called(u64),
    /// The id and the level.
    Call(u64, Level),
}

/// What bounds a CPU of a test.
#[derive(Clone, Copy)]
pub(crate) struct Bounds {
    /// How often each cyclic may expire.
    pub(crate) most: u64,
    /// The ceiling of both soft levels.
    pub(crate) ceiling: u32,
    /// The handler call that is refused, counted from 1; with 0 none is.
    pub(crate) refused: u32,
}

/// No bounds but those of a count.
pub(crate) const FREE: Bounds = Bounds {
    most: u64::MAX,
    ceiling: u32::MAX,
    refused: 0,
};

/// An id.
pub(crate) fn id(number: u64) -> Result<CyclicId, Fail> {
    match CyclicId::new(number) {
        Some(id) => Ok(id),
        None => Err(Fail::from("an id")),
    }
}

/// A new level with this ceiling.
fn level(alloc: Global, ceiling: u32) -> Result<LevelCore, Fail>
    ensures { IfOk result (λ core. IsFresh (firing_view (level_of core))) }
{
    let ceiling = Ceiling::new(ceiling).ok_or("a ceiling")?;
    match LevelCore::new(alloc, ceiling) {
        Ok(core) => Ok(core),
        Err(_) => Err(Fail::from("memory")),
    }
}

/// A CPU over two new levels of this ceiling, whose cyclics expire at most so often.
pub(crate) fn cpu(alloc: Global, most: u64, ceiling: u32) -> Result<Hard<LevelCore>, Fail>
    ensures { IfOk result (λ cpu. cpu.most ≡ most) }
{
    let lock = level(alloc, ceiling)?;
    let low = level(alloc, ceiling)?;
    match Hard::new(alloc, most, lock, low) {
        Ok(cpu) => Ok(cpu),
        Err(_) => Err(Fail::from("memory")),
    }
}

fn done(answer: Result<(), Refusal>) -> Answer {
    match answer {
        Ok(()) => Answer::Done,
        Err(refusal) => Answer::Refused(refusal),
    }
}

fn fired(answer: Result<Fired, FireRefused>) -> Answer {
    match answer {
        Ok(
            Fired {
                expired,
                lost,
                next,
            },
        ) => Answer::Fired(expired, lost, next.nanoseconds()),
        Err(FireRefused { why, expired, lost }) => Answer::FireRefused(why, expired, lost),
    }
}

fn ran(answer: Result<Ran, SoftRefused>) -> Answer {
    match answer {
        Ok(Ran { calls, idle }) => Answer::Ran(calls, idle),
        Err(SoftRefused { id, calls }) => Answer::SoftRefused(id.number(), calls),
    }
}

fn counted(answer: Option<Totals>) -> Answer {
    match answer {
        Some(
            Totals {
                expired,
                lost,
                pending,
            },
        ) => Answer::Totals(expired, lost, pending),
        None => Answer::Nothing,
    }
}

fn received(receipt: Receipt) -> Answer {
    let (id, sent, lost) = (receipt.id, receipt.sent, receipt.lost);
    Answer::Receipt(id.number(), sent, lost, receipt.calls())
}

fn begun(answer: Result<Removal, Refusal>) -> Answer {
    match answer {
        Ok(Removal::Done(receipt)) => received(receipt),
        Ok(Removal::Kept(calls)) => Answer::Kept(calls),
        Err(refusal) => Answer::Refused(refusal),
    }
}

fn taken(answer: Result<Taken, Refusal>) -> Answer {
    match answer {
        Ok(
            Taken {
                level,
                interval,
                moment,
                sent: Sent { sent, lost },
            },
        ) => Answer::Taken(
            level,
            interval.nanoseconds(),
            moment.nanoseconds(),
            sent,
            lost,
        ),
        Err(refusal) => Answer::Refused(refusal),
    }
}

/// Adds a cyclic whose id is not here yet.
fn add(
    cpu: &mut Hard<LevelCore>,
    id: CyclicId,
    level: Level,
    when: When,
    now: Moment,
) -> Result<Answer, Fail> {
    match cpu.pending(id) {
        Some(_) => Err(Fail::from("an id that is not here")),
        None => Ok(done(cpu.add(id, level, when, now))),
    }
}

/// Reserves for so many more, and widens where that was accepted.
fn widen(cpu: &mut Hard<LevelCore>, more: usize) -> Answer {
    match cpu.reserve(more) {
        Ok(()) => {
            cpu.widen(more);
            Answer::Done
        }
        Err(refusal) => Answer::Refused(refusal),
    }
}

/// What the handlers counted and noted.
fn noted(calls: &Handlers, step: Step) -> Result<Answer, Fail> {
    match step {
        Step::Called(number) => match calls.count(id(number)?) {
            Some(times) => Ok(Answer::Called(times)),
            None => Ok(Answer::Nothing),
        },
        Step::Call(number) => match calls.noted(number) {
            Some((id, level)) => Ok(Answer::Call(id, level)),
            None => Ok(Answer::Nothing),
        },
        _ => Err(Fail::from("a question to the handlers")),
    }
}

/// Makes a call about the whole CPU.
fn make_whole(cpu: &mut Hard<LevelCore>, step: Step) -> Answer {
    match step {
        Step::Room(more) => done(cpu.room(more)),
        Step::Reserve(more) => done(cpu.reserve(more)),
        Step::Widen(more) => widen(cpu, more),
        Step::Settled => Answer::Settled(cpu.settled()),
        Step::Suspend => {
            cpu.suspend();
            Answer::Done
        }
        Step::Resume => {
            cpu.resume();
            Answer::Done
        }
        Step::IsSuspended => Answer::Suspended(cpu.is_suspended()),
        Step::PollRemove => match cpu.poll_remove() {
            Some(receipt) => received(receipt),
            None => Answer::Nothing,
        },
        _ => Answer::Len(cpu.len()),
    }
}

/// Makes a call about one cyclic that is there, or about the whole CPU.
fn make_plain(cpu: &mut Hard<LevelCore>, step: Step) -> Result<Answer, Fail> {
    match step {
        Step::Totals(number) => Ok(counted(cpu.totals(id(number)?))),
        Step::Pending(number) => match cpu.pending(id(number)?) {
            Some(calls) => Ok(Answer::Pending(calls)),
            None => Ok(Answer::Nothing),
        },
        Step::BeginRemove(number) => Ok(begun(cpu.begin_remove(id(number)?))),
        Step::TakeNow(number) => Ok(taken(cpu.take_now(id(number)?))),
        _ => Ok(make_whole(cpu, step)),
    }
}

// A small function for each of the two calls whose contracts say most keeps the proof of their caller short.
fn fire(cpu: &mut Hard<LevelCore>, calls: &mut Handlers, now: Moment) -> Answer {
    fired(cpu.fire(now, calls))
}

fn softint(cpu: &mut Hard<LevelCore>, calls: &mut Handlers, level: Soft, budget: u32) -> Answer {
    ran(cpu.softint(level, calls, budget))
}

/// Makes the call.
fn make(cpu: &mut Hard<LevelCore>, calls: &mut Handlers, step: Step) -> Result<Answer, Fail> {
    match step {
        Step::Add(number, level, start, interval, now) => {
            let when = When::new(start, interval)?;
            add(cpu, id(number)?, level, when, Moment::new(now)?)
        }
        Step::Fire(now) => Ok(fire(cpu, calls, Moment::new(now)?)),
        Step::Softint(level, budget) => Ok(softint(cpu, calls, level, budget)),
        Step::Reprogram(number, moment) => {
            Ok(done(cpu.reprogram(id(number)?, Moment::new(moment)?)))
        }
        Step::Called(_) | Step::Call(_) => noted(calls, step),
        _ => make_plain(cpu, step),
    }
}

/// Makes each call, which must give its answer.
pub(crate) fn play(
    rt: &impl Abort,
    cpu: &mut Hard<LevelCore>,
    calls: &mut Handlers,
    steps: &[(Step, Answer)],
) -> Result<(), Fail> {
    for (number, &(step, expected)) in steps.iter().enumerate() {
        let answer = make(cpu, calls, step)?;
        assert_eq!(rt; answer, expected, "at step {number}");
    }
    Ok(())
}

/// Makes the calls on a new CPU within these bounds, with new handlers.
pub(crate) fn alone(
    rt: &impl Abort,
    alloc: Global,
    bounds: Bounds,
    steps: &[(Step, Answer)],
) -> Result<(), Fail> {
    let mut cpu = cpu(alloc, bounds.most, bounds.ceiling)?;
    let mut calls = Handlers::new(alloc, bounds.refused)?;
    play(rt, &mut cpu, &mut calls, steps)
}
