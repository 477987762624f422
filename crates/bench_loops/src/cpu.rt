//! A CPU: whole runs of fires over two plain levels.

ghost use Rattle.std.specs.Prelude.{◌≡◌, None, IfOk, OnOk};

use cyc_core::LevelCore;
use cyc_cpu::Hard;
use cyc_types::{Ceiling, CyclicId, Level, Moment, Refusal, Soft, Tally, When};
use std::alloc::Global;

/// A CPU over two plain levels.
type Cpu = Hard<LevelCore>;

/// The moment of this many nanoseconds.
fn moment_of(nanoseconds: u64) -> Result<Moment, Refusal> {
    match i64::try_from(nanoseconds) {
        Ok(nanoseconds) => Moment::new(nanoseconds),
        Err(_) => Err(Refusal::BadWhen),
    }
}

/// Expirations from the end of the first interval on.
fn when_of(interval: u64) -> Result<When, Refusal> {
    match i64::try_from(interval) {
        Ok(interval) => When::new(interval, interval),
        Err(_) => Err(Refusal::BadInterval),
    }
}

/// A CPU with no cyclic.
fn opened(alloc: Global) -> Result<Cpu, Refusal>
    ensures { IfOk result (λ cpu. cpu.removal ≡ None) }
{
    let ceiling = Ceiling::new(u32::MAX).ok_or(Refusal::Memory)?;
    let lock = LevelCore::new(alloc, ceiling)?;
    let low = LevelCore::new(alloc, ceiling)?;
    Hard::new(alloc, u64::MAX, lock, low)
}

/// Adds a cyclic of this id, which no other has.
fn add(cpu: &mut Cpu, id: u64, level: Level, interval: u64) -> Result<(), Refusal>
    requires { cpu.old.removal ≡ None }
    ensures { OnOk result (cpu.new.removal ≡ None) }
{
    let id = CyclicId::new(id).ok_or(Refusal::IdsSpent)?;
    if cpu.pending(id).is_some() {
        return Err(Refusal::IdsSpent);
    }
    cpu.add(id, level, when_of(interval)?, Moment::ZERO)
}

/// A CPU with a cyclic for each interval, the ids from 1 on, all of this level.
fn started(alloc: Global, intervals: &[u64], level: Level) -> Result<Cpu, Refusal> {
    let mut cpu = opened(alloc)?;
    cpu.reserve(intervals.len())?;
    cpu.widen(intervals.len());
    for (k, interval) in intervals.iter().enumerate() {
        add(&mut cpu, k as u64 + 1, level, *interval)?;
    }
    Ok(cpu)
}

/// A count for the handler of each cyclic.
fn tally(alloc: Global, len: usize) -> Result<Tally, Refusal> {
    let first = CyclicId::new(1).ok_or(Refusal::IdsSpent)?;
    Ok(Tally::new(alloc, first, len, u64::MAX)?)
}

/// The counts, folded into one number.
fn folded(tally: &Tally, len: usize) -> u64 {
    let mut all: u64 = 0;
    for id in 0..len as u64 {
        let count = CyclicId::new(id.wrapping_add(1)).and_then(|id| tally.count(id));
        all = all.wrapping_mul(31).wrapping_add(count.unwrap_or(0));
    }
    all
}

/// Fires so many times, and after each fire serves the low level until it is idle.
fn run(
    alloc: Global,
    level: Level,
    intervals: &[u64],
    step: u64,
    fires: u64,
) -> Result<u64, Refusal> {
    let mut cpu = started(alloc, intervals, level)?;
    let mut calls = tally(alloc, intervals.len())?;
    let mut now = 0u64;
    for _ in 0..fires {
        now = now.wrapping_add(step);
        if let Err(refused) = cpu.fire(moment_of(now)?, &mut calls) {
            return Err(refused.why);
        }
        if level == Level::Low && cpu.softint(Soft::Low, &mut calls, u32::MAX).is_err() {
            return Err(Refusal::NoCyclic);
        }
    }
    Ok(folded(&calls, intervals.len()))
}

/// Fires `fires` times, `step` nanoseconds apart, with a high cyclic for each interval, and answers the calls of each handler
/// folded into one number; 0 where memory was refused.
#[unsafe(no_mangle)]
pub extern "C" fn bench_fire_high(alloc: Global, intervals: &[u64], step: u64, fires: u64) -> u64 {
    run(alloc, Level::High, intervals, step, fires).unwrap_or(0)
}

/// The same with low cyclics, and a soft interrupt after each fire.
#[unsafe(no_mangle)]
pub extern "C" fn bench_fire_low(alloc: Global, intervals: &[u64], step: u64, fires: u64) -> u64 {
    run(alloc, Level::Low, intervals, step, fires).unwrap_or(0)
}
