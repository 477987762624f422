//! Removals of cyclics whose calls stand in rings, and what settles such a CPU.
use crate::help::{Counts, add, expect, fire, id, interrupts, report};
use cyc_cpu::{Hard, Removal};
use cyc_ring::DrainEnd;
use cyc_types::{CyclicId, Level, Raise, Receipt, Soft, Tally};
use std::process::Abort;
use std::test::Fail;

/// What a removal answered.
#[derive(Clone, Copy, Debug, PartialEq, Eq)]
enum Answer {
    /// So many calls are kept.
    Kept(u32),
    /// The cyclic is gone, after so many expirations and calls.
    Gone(u128, u128),
    /// A refusal, or no answer yet.
    Nothing,
}

fn gone(receipt: Receipt) -> Answer {
    let sent = receipt.sent;
    Answer::Gone(sent, receipt.calls())
}

fn begun<R: Raise>(cpu: &mut Hard<R>, id: CyclicId) -> Answer {
    match cpu.begin_remove(id) {
        Ok(Removal::Kept(calls)) => Answer::Kept(calls),
        Ok(Removal::Done(receipt)) => gone(receipt),
        Err(_) => Answer::Nothing,
    }
}

// It has no contract, and so the proofs of the tests that call it are short.
fn settled<R: Raise>(cpu: &mut Hard<R>) -> bool {
    cpu.settled()
}

fn polled<R: Raise>(cpu: &mut Hard<R>) -> Answer {
    match cpu.poll_remove() {
        Some(receipt) => gone(receipt),
        None => Answer::Nothing,
    }
}

/// A removal keeps two calls, and answers once they are made. The CPU has not settled before that. The ceiling is 2, so one of
/// three expirations is lost.
pub(crate) fn keeps_its_calls<R: Raise>(
    rt: &impl Abort,
    cpu: &mut Hard<R>,
    drain: &mut DrainEnd,
    tally: &mut Tally,
) -> Result<(), Fail> {
    let a = id(1)?;
    add(cpu, a, Level::Low, 1, 1, 0)?;
    expect(rt, settled(cpu), true);
    expect(rt, fire(cpu, tally, 3)?, (3, 1));
    expect(rt, settled(cpu), false);
    expect(rt, begun(cpu, a), Answer::Kept(2));
    expect(rt, fire(cpu, tally, 9)?, (0, 0));
    expect(rt, interrupts(drain, tally, Soft::Low, 1)?, (1, false));
    expect(rt, polled(cpu), Answer::Nothing);
    expect(rt, interrupts(drain, tally, Soft::Low, 8)?, (1, true));
    expect(rt, settled(cpu), false);
    expect(rt, polled(cpu), Answer::Gone(3, 2));
    expect(rt, settled(cpu), true);
    Ok(())
}

/// The soft interrupt of the lock level makes the calls of its ring. The CPU grows meanwhile, and has settled where both soft
/// sides have followed: then a removal is done at once.
pub(crate) fn drains_both<R: Raise>(
    rt: &impl Abort,
    cpu: &mut Hard<R>,
    lock: &mut DrainEnd,
    low: &mut DrainEnd,
    tally: &mut Tally,
) -> Result<(), Fail> {
    let (a, b) = (id(1)?, id(2)?);
    add(cpu, a, Level::Lock, 1, 1, 0)?;
    expect(rt, fire(cpu, tally, 2)?, (2, 0));
    add(cpu, b, Level::Low, 9, 1, 2)?;
    expect(rt, interrupts(low, tally, Soft::Low, 8)?, (0, true));
    expect(rt, settled(cpu), false);
    expect(rt, interrupts(lock, tally, Soft::Lock, 8)?, (2, true));
    expect(rt, settled(cpu), true);
    let drained = Counts {
        expired: 2,
        called: 2,
        lost: 0,
        pending: 0,
    };
    expect(rt, report(cpu, tally, a), Some(drained));
    expect(rt, begun(cpu, a), Answer::Gone(2, 2));
    Ok(())
}
