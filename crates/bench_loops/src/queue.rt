//! The timer wheel of tokio-util, as the kit has ported it: the same run of expirations.

use cyc_types::{CYCLICS, Refusal};
use futures::util::wheel::Wheel;
use std::alloc::Global;

/// A timer of the run: its next expiration, its interval, and the calls of its handler.
#[derive(Drop)]
struct Timer {
    moment: u64,
    interval: u64,
    calls: u64,
}

/// A timer for each interval, which is the moment of its first expiration too.
fn timers_of(alloc: Global, intervals: &[u64]) -> Result<Vec<Timer>, Refusal> {
    let mut timers = Vec::with_capacity(alloc, intervals.len())?;
    for interval in intervals {
        timers.push(Timer {
            moment: *interval,
            interval: *interval,
            calls: 0,
        })?;
    }
    Ok(timers)
}

/// A wheel with a key for each timer.
fn armed(alloc: Global, timers: &[Timer]) -> Result<Wheel, Refusal> {
    let mut wheel = Wheel::new(alloc)?;
    for (key, timer) in timers.iter().enumerate() {
        wheel.reserve_key(key)?;
        wheel.insert(key, timer.moment);
    }
    Ok(wheel)
}

/// Makes every expiration up to `now`: a key that is due is armed anew, an interval later.
fn round(wheel: &mut Wheel, timers: &mut [Timer], now: u64) -> Result<(), Refusal> {
    for _ in 0..u64::MAX {
        let Some(key) = wheel.poll(now) else {
            break;
        };
        let Some(timer) = timers.get_mut(key) else {
            break;
        };
        timer.moment = timer.moment.wrapping_add(timer.interval);
        timer.calls = timer.calls.wrapping_add(1);
        wheel.reserve_key(key)?;
        wheel.insert(key, timer.moment);
    }
    Ok(())
}

fn run(alloc: Global, intervals: &[u64], step: u64, fires: u64) -> Result<u64, Refusal> {
    if intervals.len() > usize::from(CYCLICS) {
        return Err(Refusal::Full);
    }
    let mut timers = timers_of(alloc, intervals)?;
    let mut wheel = armed(alloc, &timers)?;
    let mut now = 0u64;
    for _ in 0..fires {
        now = now.wrapping_add(step);
        round(&mut wheel, &mut timers, now)?;
    }
    let mut folded: u64 = 0;
    for timer in &timers {
        folded = folded.wrapping_mul(31).wrapping_add(timer.calls);
    }
    Ok(folded)
}

/// Turns the wheel `fires` times, `step` nanoseconds apart, and answers the calls of each timer folded into one number; 0 where
/// memory was refused.
#[unsafe(no_mangle)]
pub extern "C" fn bench_queue(alloc: Global, intervals: &[u64], step: u64, fires: u64) -> u64 {
    run(alloc, intervals, step, fires).unwrap_or(0)
}
