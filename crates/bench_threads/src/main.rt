//! Raises on one thread and serves on another over one ring, and writes the number of calls that were made. How long it took
//! goes to standard error, since it differs from run to run.
#![tactic(auto)]

ghost use Rattle.std.specs.Prelude.{◌≡◌, ◌<◌, ◌≤◌};
ghost use Rattle.cyc_ring.specs.Ends.{end_view};
ghost use Rattle.bench_sides.specs.Ready.{IsReadyLevel};

use anyhow::{Context, Result, bail};
use bench_sides::{fill, raise_done, serve_until};
use cyc_ring::{DrainEnd, RaiseEnd, Ring};
use cyc_types::Ceiling;
use std::env::{self, Env};
use std::thread::{Threads, join};
use std::time::Instant;

/// The cyclics that are raised, as many as the items that the peers of the benchmark have on the way.
const IDS: u16 = 256;

/// Raises so many times, the ids round, each where its calls are done.
fn raise_all(mut raise: RaiseEnd<'_>, count: u64)
    requires { IsReadyLevel 256 0 (end_view raise) }
{
    raise_done(&mut raise, IDS, count);
}

/// Makes so many calls.
fn serve_all(mut drain: DrainEnd<'_>, count: u64) -> u64 {
    serve_until(&mut drain, count)
}

/// Both at once. The answer is how many calls were made.
fn both<R: Threads>(rt: &R, raise: RaiseEnd<'_>, drain: DrainEnd<'_>, count: u64) -> u64
    requires { IsReadyLevel 256 0 (end_view raise) }
{
    let (_, made) = join(rt, || raise_all(raise, count), || serve_all(drain, count));
    made
}

/// How many raises the program is asked for.
fn wanted<R: Env + Alloc>(rt: &R) -> Result<u64> {
    let Some(word) = env::args(rt)?.nth(1) else {
        bail!("how many raises?");
    };
    Ok(word.parse::<u64>()?)
}

fn main(rt: HostRuntime) -> Result<()> {
    let count = wanted(&rt)?;
    let ceiling = Ceiling::new(u32::MAX).context("a ceiling")?;
    let (ring, raise_seat, drain_seat) = Ring::open(rt.alloc(), ceiling, 0)?;
    let mut raise = RaiseEnd::new(&ring, raise_seat);
    let drain = DrainEnd::new(&ring, drain_seat);
    fill(&mut raise, IDS);
    let start = Instant::now(&rt)?;
    let made = both(&rt, raise, drain, count);
    let spent = start.elapsed(&rt)?;
    eprintln!(rt; "{}", spent.as_nanos())?;
    println!(rt; "{made} calls")?;
    Ok(())
}
