//! Ids, scripts and their runs for the tests.

use cyc_script::{Script, read_script};
use cyc_text::{Out, RunFault};
use cyc_threads::{Ended, run};
use cyc_types::{Calls, CyclicId, Tally};
use std::alloc::Global;
use std::sync::Wait;
use std::test::Fail;
use std::thread::Threads;

/// An id.
pub(crate) fn id(number: u64) -> Result<CyclicId, Fail> {
    match CyclicId::new(number) {
        Some(id) => Ok(id),
        None => Err(Fail::from("an id")),
    }
}

/// The script of this text.
pub(crate) fn script_of(alloc: Global, text: &str) -> Result<Script, Fail> {
    match read_script(alloc, text.as_bytes()) {
        Ok(script) => Ok(script),
        Err(_) => Err(Fail::from("a script")),
    }
}

/// What a run ended with, and what it wrote.
#[derive(Drop)]
pub(crate) struct Outcome<C> {
    pub(crate) ended: Result<Ended<C>, RunFault>,
    pub(crate) written: Vec<u8>,
}

/// Runs the script of this text with these handlers.
pub(crate) fn ran<W: Threads + Wait + Sync, C: Calls + Send + Drop>(
    rt: &W,
    alloc: Global,
    text: &str,
    calls: Vec<C>,
) -> Result<Outcome<C>, Fail> {
    let script = script_of(alloc, text)?;
    if calls.len() != 3 * script.cpus as usize {
        return Err(Fail::from("three handlers for each CPU"));
    }
    let mut written: Vec<u8> = Vec::new(alloc);
    let mut out = Out::new(&mut written);
    let ended = run(rt, alloc, &script, calls, &mut out);
    drop(out);
    Ok(Outcome { ended, written })
}

/// Handlers that count the calls of the ids 1 to 4: three for each CPU.
pub(crate) fn tallies(alloc: Global, cpus: usize) -> Result<Vec<Tally>, Fail> {
    let mut calls = Vec::new(alloc);
    for _ in 0..cpus {
        for _ in 0..3 {
            calls.push(Tally::new(alloc, id(1)?, 4, u64::MAX)?)?;
        }
    }
    Ok(calls)
}

/// The calls of an id that the workers of one kind made on all CPUs: the firing ones 0, those of the lock level 1, of the low 2.
pub(crate) fn called(calls: &[Tally], kind: usize, number: u64) -> Result<u64, Fail> {
    let id = id(number)?;
    let mut all: u64 = 0;
    for position in 0..calls.len() {
        if position % 3 == kind {
            all = all.wrapping_add(calls[position].count(id).unwrap_or(0));
        }
    }
    Ok(all)
}
