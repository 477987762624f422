//! Reports that are the same whatever the schedule, with the calls and the books that stand behind them.

use crate::help::{Outcome, called, id, ran, tallies};
use cyc_ring::{Book, Closed};
use cyc_threads::Ended;
use cyc_types::{Index, Tally};
use std::alloc::Global;
use std::process::Abort;
use std::sync::Wait;
use std::test::Fail;
use std::thread::Threads;

/// A script on four CPUs.
const FOUR: &str =
    "{\"cpus\":4,\"steps\":[[\"add\",\"a\",\"high\",10,10],[\"add\",\"b\",\"lock\",5,10],[\"add\",\"c\",\"low\",0,7],\
     [\"omni\",\"o\",\"low\",10,10,1],[\"advance\",100],[\"remove\",\"b\"],[\"juggle\",0],[\"advance\",200]]}";

const FOUR_TEXT: &str =
    "a expired 20 called 20 lost 0 pending 0\nb expired 10 called 10 lost 0 pending 0\n\
     c expired 28 called 28 lost 0 pending 0\no expired 77 called 77 lost 0 pending 0\n";

/// What a run with handlers that count ended with, and what it wrote.
fn counted<W: Threads + Wait + Sync>(
    rt: &W,
    alloc: Global,
    cpus: usize,
    script: &str,
) -> Result<(Ended<Tally>, Vec<u8>), Fail> {
    let Outcome { ended, written } = ran(rt, alloc, script, tallies(alloc, cpus)?)?;
    match ended {
        Ok(ended) => Ok((ended, written)),
        Err(_) => Err(Fail::from("the run ends")),
    }
}

/// What a run of `FOUR` left: its bytes, and that each level's handlers had the calls of their level.
fn is_of_four(rt: &impl Abort, ended: &Ended<Tally>, written: &[u8]) -> Result<(), Fail> {
    let wanted = [[20u64, 0, 0], [0, 10, 0], [0, 0, 28], [0, 0, 77]];
    assert_eq!(rt; written, FOUR_TEXT.as_bytes());
    assert_eq!(rt; ended.calls.len(), 12);
    assert_eq!(rt; ended.rings.len(), 8);
    for number in 0..4 {
        for kind in 0..3 {
            let calls = called(ended.calls.as_slice(), kind, number as u64 + 1)?;
            assert_eq!(rt; calls, wanted[number][kind]);
        }
    }
    Ok(())
}

#[test]
fn a_hundred_runs_write_the_same(rt: HostRuntime) -> Result<(), Fail> {
    for _ in 0..100 {
        let (ended, written) = counted(&rt, rt.alloc(), 4, FOUR)?;
        is_of_four(&rt, &ended, written.as_slice())?;
    }
    Ok(())
}

/// The book of index 0 of the ring at this position.
fn book(rings: &[Closed], position: usize) -> Result<Option<Book>, Fail> {
    let Some(index) = Index::new(0) else {
        return Err(Fail::from("an index"));
    };
    match rings.get(position) {
        Some(ring) => Ok(ring.book(index)),
        None => Err(Fail::from("a ring")),
    }
}

/// The book of id 1 on a ring where nothing is outstanding.
fn settled(sent: u64, lost: u64) -> Result<Book, Fail> {
    Ok(Book {
        id: id(1)?,
        sent,
        done: sent.saturating_sub(lost),
        count: 0,
        lost,
        marked: false,
    })
}

/// What a run of one low cyclic on one CPU left: its bytes, the calls of the low level, and no book but this one of the low ring.
fn is_left(
    rt: &impl Abort,
    ended: &Ended<Tally>,
    written: &[u8],
    text: &str,
    calls: u64,
    low: Option<Book>,
) -> Result<(), Fail> {
    assert_eq!(rt; written, text.as_bytes());
    assert_eq!(rt; called(ended.calls.as_slice(), 2, 1)?, calls);
    assert_eq!(rt; ended.rings.len(), 2);
    assert_eq!(rt; book(ended.rings.as_slice(), 0)?, None);
    assert_eq!(rt; book(ended.rings.as_slice(), 1)?, low);
    Ok(())
}

/// What a run of a hundred expirations writes.
const HUNDRED: &str = "a expired 100 called 100 lost 0 pending 0\n";

// The low ring made all calls of a low cyclic, and the lock ring none.
#[test]
fn the_low_ring_has_the_calls(rt: HostRuntime) -> Result<(), Fail> {
    let script = "{\"cpus\":1,\"steps\":[[\"add\",\"a\",\"low\",1,1],[\"advance\",100]]}";
    let low = settled(100, 0)?;
    let (ended, written) = counted(&rt, rt.alloc(), 1, script)?;
    is_left(&rt, &ended, written.as_slice(), HUNDRED, 100, Some(low))
}

// A removal ends the stay on its ring, and nothing expires after it.
#[test]
fn a_removed_cyclic_has_no_book(rt: HostRuntime) -> Result<(), Fail> {
    let script =
        "{\"cpus\":1,\"steps\":[[\"add\",\"a\",\"low\",1,1],[\"advance\",100],[\"remove\",\"a\"],[\"advance\",200]]}";
    let (ended, written) = counted(&rt, rt.alloc(), 1, script)?;
    is_left(&rt, &ended, written.as_slice(), HUNDRED, 100, None)
}

/// What a run of five expirations with so many losses writes.
fn five(lost: usize) -> Option<&'static str> {
    let texts = [
        "a expired 5 called 5 lost 0 pending 0\n",
        "a expired 5 called 4 lost 1 pending 0\n",
        "a expired 5 called 3 lost 2 pending 0\n",
        "a expired 5 called 2 lost 3 pending 0\n",
    ];
    texts.get(lost).copied()
}

/// What a run of five expirations left, of which at most three are lost.
fn is_of_five(rt: &impl Abort, ended: &Ended<Tally>, written: &[u8]) -> Result<(), Fail> {
    let calls = called(ended.calls.as_slice(), 2, 1)?;
    let lost = 5u64.saturating_sub(calls);
    let Some(text) = five(lost as usize) else {
        return Err(Fail::from("at most three are lost"));
    };
    is_left(rt, ended, written, text, calls, Some(settled(5, lost)?))
}

// Each expiration is called or lost at the ceiling: of five at most three are lost where two calls may be pending.
#[test]
fn at_most_three_are_lost_at_the_ceiling(rt: HostRuntime) -> Result<(), Fail> {
    let script =
        "{\"cpus\":1,\"ceiling\":2,\"steps\":[[\"add\",\"a\",\"low\",1,1],[\"advance\",5]]}";
    for _ in 0..20 {
        let (ended, written) = counted(&rt, rt.alloc(), 1, script)?;
        is_of_five(&rt, &ended, written.as_slice())?;
    }
    Ok(())
}
