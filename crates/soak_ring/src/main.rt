//! `soak_ring ROUNDS`: hands over expirations from one thread to another, with removals, new stays and all switches of banks,
//! and compares, for each id, what was raised, what was called and what the closed rings say. A round is a new ring, on which
//! the two threads stop once after many calls, and then 200 times after a few, and others go on. The sums go to standard error,
//! since they differ from run to run.
#![tactic(auto)]

mod ledger;
mod rounds;
mod stops;
mod sums;

use crate::ledger::{IDS, Ledger};
use crate::rounds::both;
use crate::stops::{Random, stop_often};
use crate::sums::{Counts, Sums};
use anyhow::{Context, Result, bail};
use cyc_ring_sides::open;
use cyc_types::{Ceiling, CyclicId, Refusal, Tally};
use std::alloc::Global;
use std::env::{self, Env};
use std::thread::Threads;

/// The calls of a round before its stop, and after it.
const CALLS: u64 = 500_000;

/// A round on a new ring. False where it does not add up.
fn round<R: Threads>(
    rt: &R,
    alloc: Global,
    ceiling: Ceiling,
    start: u32,
    tally: Tally,
    random: Random,
    sums: &mut Sums,
) -> Result<bool, Refusal> {
    let (ring, raise_seat, drain_seat) = open(alloc, ceiling, start)?;
    let (raise_seat, drain_seat) = both(
        rt,
        &ring,
        (raise_seat, Ledger::new()),
        (drain_seat, tally),
        CALLS,
    );
    let (raise_seat, drain_seat) = both(rt, &ring, raise_seat, drain_seat, CALLS);
    let ((seat, ledger), (other, tally)) = stop_often(rt, &ring, raise_seat, drain_seat, random);
    let closed = ring.close(seat.seat(), other);
    Ok(sums.add(&closed, &ledger, &tally))
}

/// The ceiling and the first buffer index of a round: few calls pending and many lost, or none lost and indexes that wrap.
fn setting(round: u64) -> (u32, u32) {
    if round % 2 == 0 {
        (3, 0)
    } else {
        (u32::MAX, u32::MAX)
    }
}

/// So many rounds. False where one does not add up.
fn soak<R: Threads>(rt: &R, alloc: Global, rounds: u64, sums: &mut Sums) -> Result<bool> {
    let first = CyclicId::new(1).context("an id")?;
    for i in 0..rounds {
        let (ceiling, start) = setting(i);
        let ceiling = Ceiling::new(ceiling).context("a ceiling")?;
        let tally = Tally::new(alloc, first, IDS, u64::MAX)?;
        if !round(rt, alloc, ceiling, start, tally, Random::of(i), sums)? {
            return Ok(false);
        }
    }
    Ok(true)
}

fn wanted<R: Env + Alloc>(rt: &R) -> Result<u64> {
    let Some(word) = env::args(rt)?.nth(1) else {
        bail!("how many rounds?");
    };
    Ok(word.parse::<u64>()?)
}

/// Says the counts of each id, and those of all, on standard error.
fn tell_counts<R: Eprint>(rt: &R, sums: &Sums) -> Result<()> {
    for at in 0..IDS {
        let Counts {
            sent,
            done,
            pending,
            lost,
        } = sums.of[at];
        eprintln!(rt;
            "id {}: {sent} = {done} done + {pending} pending + {lost} lost",
            at + 1
        )?;
    }
    let Counts {
        sent,
        done,
        pending,
        lost,
    } = sums.in_all();
    eprintln!(rt; "in all: {sent} = {done} done + {pending} pending + {lost} lost")?;
    Ok(())
}

/// Says what the removals and the switches of banks came to, on standard error.
fn tell_steps<R: Eprint>(rt: &R, sums: &Sums) -> Result<()> {
    let (removals, switches) = (sums.removals, sums.switches);
    eprintln!(rt; "removals answered: {removals}, switches of banks: {switches}")?;
    Ok(())
}

fn main(rt: HostRuntime) -> Result<()> {
    let rounds = wanted(&rt)?;
    let mut sums = Sums::new();
    let adds_up = soak(&rt, rt.alloc(), rounds, &mut sums)?;
    tell_counts(&rt, &sums)?;
    tell_steps(&rt, &sums)?;
    if !adds_up {
        bail!("a round does not add up");
    }
    println!(rt; "{rounds} rounds add up: expirations = done + pending + lost for each id")?;
    Ok(())
}
