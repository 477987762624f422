//! Moves of cyclics off a CPU: a cyclic for which memory is refused stays where it is, and each has its moment and its counts.

use crate::seen::Seen;
use crate::systems::{three, two};
use cyc_core::LevelCore;
use cyc_system::{CpuOrOmni, System};
use cyc_types::{CyclicId, JuggleReport, Level, Moment, Refusal, Soft, Tally, When};
use std::alloc::Global;

/// Whether the answer is a report of so many moved and refused, and none bound or pending.
fn reports(answer: &Result<JuggleReport, Refusal>, moved: u32, refused: u32) -> bool {
    match answer {
        Ok(told) => {
            let stayed = told.bound == 0 && told.pending == 0;
            told.moved == moved && stayed && told.refused == refused
        }
        Err(_) => false,
    }
}

/// Whether the cyclic is on this CPU.
fn stands(system: &System<LevelCore>, id: CyclicId, cpu: u32) -> bool {
    system.place_of(id) == Some(CpuOrOmni::Cpu(cpu))
}

/// Soft interrupts of all levels, so that each has followed and no call is pending.
fn settle(system: &mut System<LevelCore>, tally: &mut Tally) {
    for cpu in 0..3u32 {
        let _ = system.softint(cpu, Soft::Low, tally, 100);
        let _ = system.softint(cpu, Soft::Lock, tally, 100);
    }
}

/// The expirations of all online CPUs at this moment.
fn fire_all(system: &mut System<LevelCore>, tally: &mut Tally, now: i64) -> Option<u64> {
    let now = Moment::new(now).ok()?;
    let mut expired: u64 = 0;
    for cpu in 0..3u32 {
        match system.fire_one(cpu, now, tally) {
            Ok(fired) => expired = expired.wrapping_add(fired.expired),
            Err(refused) => if refused.why != Refusal::NoCpu && refused.why != Refusal::Offline {
                return None;
            },
        }
    }
    Some(expired)
}

fn added(
    system: &mut System<LevelCore>,
    level: Level,
    start: i64,
    interval: i64,
) -> Result<CyclicId, Refusal> {
    let when = When::new(start, interval)?;
    let now = Moment::new(0)?;
    system.add(level, when, now)
}

/// Three high cyclics of two CPUs, each 10 nanoseconds from 10 on. The first and the third are on the first CPU.
#[derive(Clone, Copy)]
struct Three {
    a: CyclicId,
    b: CyclicId,
    c: CyclicId,
}

fn put_three(system: &mut System<LevelCore>) -> Result<Three, Refusal> {
    Ok(Three {
        a: added(system, Level::High, 10, 10)?,
        b: added(system, Level::High, 10, 10)?,
        c: added(system, Level::High, 10, 10)?,
    })
}

/// Whether these are the cyclic's counts, with no call pending.
fn has_counts(system: &mut System<LevelCore>, id: CyclicId, expired: u128, lost: u128) -> bool {
    match system.totals(id) {
        Some(totals) => totals.expired == expired && totals.lost == lost && totals.pending == 0,
        None => false,
    }
}

/// Whether all three expire at 10 for the first time.
fn expire_at_10(system: &mut System<LevelCore>, tally: &mut Tally, ids: &Three) -> bool {
    fire_all(system, tally, 9) == Some(0)
        && fire_all(system, tally, 10) == Some(3)
        && has_counts(system, ids.a, 1, 0)
        && has_counts(system, ids.b, 1, 0)
        && has_counts(system, ids.c, 1, 0)
}

/// Whether the three stand there.
fn three_stand(system: &System<LevelCore>, ids: &Three, a: u32, b: u32, c: u32) -> bool {
    stands(system, ids.a, a) && stands(system, ids.b, b) && stands(system, ids.c, c)
}

/// With ample memory the first cyclic moves and the third finds no room. Where memory is refused for the first, the third moves,
/// and the first does at the next juggle.
fn juggle_on(system: &mut System<LevelCore>, tally: &mut Tally, ids: &Three) -> Seen {
    let told = reports(&system.juggle(0), 1, 1);
    let done = three_stand(system, ids, 1, 1, 0);
    let stayed = three_stand(system, ids, 0, 1, 1);
    if !told || !expire_at_10(system, tally, ids) {
        return Seen::Wrong;
    }
    if done {
        return Seen::Done;
    }
    settle(system, tally);
    let again = reports(&system.juggle(0), 1, 0);
    let moved = three_stand(system, ids, 1, 1, 1);
    if stayed && again && moved {
        Seen::Refused
    } else {
        Seen::Wrong
    }
}

fn put_and_juggle(system: &mut System<LevelCore>, tally: &mut Tally) -> Result<Seen, Refusal> {
    let ids = put_three(system)?;
    Ok(juggle_on(system, tally, &ids))
}

fn juggled(alloc: Global) -> Result<Seen, Refusal> {
    let mut tally = tally(alloc)?;
    let mut system = two(alloc)?;
    put_and_juggle(&mut system, &mut tally)
}

/// `System::juggle` of two cyclics, of which only one finds room.
pub(crate) fn juggle_of_two(alloc: Global) -> Seen {
    juggled(alloc).unwrap_or(Seen::Before)
}

fn tally(alloc: Global) -> Result<Tally, Refusal> {
    let Some(first) = CyclicId::new(1) else {
        return Err(Refusal::IdsSpent);
    };
    Ok(Tally::new(alloc, first, 8, u64::MAX)?)
}

/// How cyclics leave a CPU.
#[derive(Clone, Copy, PartialEq, Eq)]
pub(crate) enum Move {
    Juggle,
    Offline,
}

/// The cyclics of three CPUs: two on the first CPU, and an omnipresent one, whose component is all that the others have.
#[derive(Clone, Copy)]
struct Cyclics {
    a: CyclicId,
    b: CyclicId,
    everywhere: CyclicId,
}

fn put_cyclics(system: &mut System<LevelCore>, tally: &mut Tally) -> Result<Cyclics, Refusal> {
    let when = When::new(6, 20)?;
    let now = Moment::new(0)?;
    system.offline(1)?;
    system.offline(2)?;
    let everywhere = system.add_omni(Level::Low, when, now, now)?;
    let a = added(system, Level::Low, 1, 4)?;
    settle(system, tally);
    let b = added(system, Level::Lock, 4, 20)?;
    settle(system, tally);
    system.online(1, now)?;
    system.online(2, now)?;
    Ok(Cyclics { a, b, everywhere })
}

/// Whether the two are on these CPUs, and all have the counts of their expirations up to 20, of which the first lost one.
fn two_stand(system: &mut System<LevelCore>, ids: &Cyclics, a: u32, b: u32) -> bool {
    stands(system, ids.a, a)
        && stands(system, ids.b, b)
        && has_counts(system, ids.a, 5, 1)
        && has_counts(system, ids.b, 1, 0)
        && has_counts(system, ids.everywhere, 3, 0)
}

/// Whether this cyclic expires at this moment, and no other does.
fn expires(system: &mut System<LevelCore>, tally: &mut Tally, id: CyclicId, now: i64) -> bool {
    let before = system.totals(id).map(|totals| totals.expired);
    let expired = fire_all(system, tally, now);
    let after = system.totals(id).map(|totals| totals.expired);
    expired == Some(1) && before.map(|n| n.wrapping_add(1)) == after
}

/// Whether both have the next expiration that they had before they moved or stayed.
fn have_their_moments(system: &mut System<LevelCore>, tally: &mut Tally, ids: &Cyclics) -> bool {
    expires(system, tally, ids.a, 21)
        && fire_all(system, tally, 23) == Some(0)
        && expires(system, tally, ids.b, 24)
}

/// How the cyclics left the first CPU.
#[derive(Clone, Copy, PartialEq, Eq)]
enum Went {
    Both,
    One,
    Wrong,
}

/// Moves the two cyclics off the first CPU.
fn leave(system: &mut System<LevelCore>, how: Move) -> Went {
    let answer = match how {
        Move::Juggle => system.juggle(0),
        Move::Offline => match system.offline(0) {
            Ok(()) => return Went::Both,
            Err(Refusal::Left(told)) => Ok(told),
            Err(why) => Err(why),
        },
    };
    if reports(&answer, 2, 0) && how == Move::Juggle {
        Went::Both
    } else if reports(&answer, 1, 1) {
        Went::One
    } else {
        Went::Wrong
    }
}

/// Moves again what stayed: whether all is done then.
fn leave_again(system: &mut System<LevelCore>, how: Move) -> bool {
    match how {
        Move::Juggle => reports(&system.juggle(0), 1, 0),
        Move::Offline => system.offline(0).is_ok(),
    }
}

/// With ample memory both cyclics leave. Where memory is refused for one of them it stays, the other goes to the CPU that has
/// fewest cyclics then, and the next call moves it.
fn leave_on(system: &mut System<LevelCore>, tally: &mut Tally, ids: &Cyclics, how: Move) -> Seen {
    let went = leave(system, how);
    if went == Went::Both {
        let right = two_stand(system, ids, 1, 2);
        let kept = have_their_moments(system, tally, ids);
        return if right && kept {
            Seen::Done
        } else {
            Seen::Wrong
        };
    }
    let one_stayed = two_stand(system, ids, 0, 1) || two_stand(system, ids, 1, 0);
    let again = leave_again(system, how);
    let both_left = two_stand(system, ids, 2, 1) || two_stand(system, ids, 1, 2);
    let kept = have_their_moments(system, tally, ids);
    if went == Went::One && one_stayed && again && both_left && kept {
        Seen::Refused
    } else {
        Seen::Wrong
    }
}

fn put_and_leave(
    system: &mut System<LevelCore>,
    tally: &mut Tally,
    how: Move,
) -> Result<Seen, Refusal> {
    let ids = put_cyclics(system, tally)?;
    let Some(_) = fire_all(system, tally, 20) else {
        return Ok(Seen::Wrong);
    };
    settle(system, tally);
    Ok(leave_on(system, tally, &ids, how))
}

fn left(alloc: Global, how: Move) -> Result<Seen, Refusal> {
    let mut tally = tally(alloc)?;
    let mut system = three(alloc)?;
    put_and_leave(&mut system, &mut tally, how)
}

/// `System::juggle` or `System::offline` of a CPU, two of whose cyclics have to go to CPUs that grow for them.
pub(crate) fn leaving(alloc: Global, how: Move) -> Seen {
    left(alloc, how).unwrap_or(Seen::Before)
}
