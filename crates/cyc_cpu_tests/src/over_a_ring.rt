//! A CPU over rings: growing, soft interrupts and removals.

use crate::help::{Counts, add, expect, fire, id, interrupts, report};
use cyc_cpu::Hard;
use cyc_ring::DrainEnd;
use cyc_types::{Level, Raise, Soft, Tally};
use std::process::Abort;
use std::test::Fail;

/// The second cyclic makes the CPU grow while the call of the first stands in the buffer of the old bank.
pub(crate) fn drains_the_old_bank<R: Raise>(
    rt: &impl Abort,
    cpu: &mut Hard<R>,
    drain: &mut DrainEnd,
    tally: &mut Tally,
) -> Result<(), Fail> {
    let (a, b) = (id(1)?, id(2)?);
    add(cpu, a, Level::Low, 1, 10, 0)?;
    expect(rt, fire(cpu, tally, 1)?, (1, 0));
    add(cpu, b, Level::Low, 2, 10, 1)?;
    expect(rt, fire(cpu, tally, 2)?, (1, 0));
    expect(rt, interrupts(drain, tally, Soft::Low, 1)?, (1, false));
    let drained = Counts {
        expired: 1,
        called: 1,
        lost: 0,
        pending: 0,
    };
    let waiting = Counts {
        expired: 1,
        called: 0,
        lost: 0,
        pending: 1,
    };
    expect(rt, report(cpu, tally, a), Some(drained));
    expect(rt, report(cpu, tally, b), Some(waiting));
    Ok(())
}
