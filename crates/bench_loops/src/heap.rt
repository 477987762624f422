//! The heap: a whole run of expirations over `ExpiryHeap`.

use cyc_heap::ExpiryHeap;
use cyc_types::{CYCLICS, CyclicId, Index, Moment, Refusal};
use std::alloc::Global;

/// Stands for a handler: it is called, and folds the ids in the order of the calls into one number.
#[inline(never)]
fn call(order: &mut u64, id: u64) {
    *order = order.wrapping_mul(31).wrapping_add(id);
}

/// A heap in which each index has the moment of its first expiration, which is its interval.
fn started(alloc: Global, intervals: &[u64]) -> Result<ExpiryHeap, Refusal> {
    let mut heap = ExpiryHeap::new(alloc)?;
    if intervals.len() > usize::from(CYCLICS) {
        return Err(Refusal::Full);
    }
    heap.reserve(intervals.len())?;
    heap.widen(intervals.len());
    for (k, interval) in intervals.iter().enumerate() {
        let moment = moment_of(*interval)?;
        let id = CyclicId::new(k as u64 + 1).ok_or(Refusal::IdsSpent)?;
        if heap.len() >= heap.size() {
            return Err(Refusal::Full);
        }
        heap.insert(moment, id);
    }
    Ok(heap)
}

fn moment_of(nanoseconds: u64) -> Result<Moment, Refusal> {
    match i64::try_from(nanoseconds) {
        Ok(nanoseconds) => Moment::new(nanoseconds),
        Err(_) => Err(Refusal::BadWhen),
    }
}

/// Makes every expiration up to `now`.
fn fire(
    heap: &mut ExpiryHeap,
    intervals: &[u64],
    now: u64,
    order: &mut u64,
) -> Result<(), Refusal> {
    for _ in 0..u64::MAX {
        let Some((index, moment, id)) = heap.root() else {
            break;
        };
        if moment.nanoseconds() > now {
            break;
        }
        call(order, id.number());
        let interval = interval_of(intervals, index);
        let next = moment_of(moment.nanoseconds().wrapping_add(interval))?;
        heap.lower_root(next);
    }
    Ok(())
}

fn interval_of(intervals: &[u64], index: Index) -> u64 {
    let index = index.number() as usize;
    if index < intervals.len() {
        intervals[index]
    } else {
        1
    }
}

fn run(alloc: Global, intervals: &[u64], step: u64, fires: u64) -> Result<u64, Refusal> {
    let mut heap = started(alloc, intervals)?;
    let mut now = 0u64;
    let mut order = 0;
    for _ in 0..fires {
        now = now.wrapping_add(step);
        fire(&mut heap, intervals, now, &mut order)?;
    }
    Ok(order)
}

/// Fires `fires` times, `step` nanoseconds apart, and answers the ids in order folded into one number; 0 where memory was
/// refused.
#[unsafe(no_mangle)]
pub extern "C" fn bench_heap(alloc: Global, intervals: &[u64], step: u64, fires: u64) -> u64 {
    run(alloc, intervals, step, fires).unwrap_or(0)
}
