//! A script that runs in threads.

use crate::digest::Digest;
use crate::random::Random;
use crate::text::{Parameter, Text};
use anyhow::Result;
use cyc_script::read_script;
use cyc_text::Out;
use cyc_threads::{run, tallies};
use std::alloc::{AllocError, Global};
use std::sync::Wait;
use std::thread::Threads;

/// The CPUs of the script.
const CPUS: u32 = 4;

/// The cyclics that it has at a time.
const CYCLICS: u32 = 64;

fn level_of(number: u32) -> Parameter<'static> {
    match number % 3 {
        0 => Parameter::Word("low"),
        1 => Parameter::Word("lock"),
        _ => Parameter::Word("high"),
    }
}

fn add(text: &mut Text, random: &mut Random, name: u32, clock: u64) -> Result<(), AllocError> {
    let interval = u64::from(random.interval(10, 16));
    let start = clock.saturating_add(interval);
    let parameters = [
        Parameter::Name(name),
        level_of(name),
        Parameter::Number(start),
        Parameter::Number(interval),
    ];
    text.step("add", &parameters)
}

/// A word that changes one of the cyclics, of which the newest has this name.
fn change(text: &mut Text, random: &mut Random, newest: u32, clock: u64) -> Result<(), AllocError> {
    let back = random.below(CYCLICS - 1);
    let name = Parameter::Name(newest.saturating_sub(back));
    if random.below(2) == 0 {
        let cpu = Parameter::Number(u64::from(random.below(CPUS)));
        return text.step("bind", &[name, cpu]);
    }
    let next = clock.saturating_add(u64::from(random.below(50_000)));
    text.step("reprogram", &[name, Parameter::Number(next)])
}

/// A script of so many rounds: an advance, a change of a cyclic, and now and then one that goes and one that comes.
fn script(alloc: Global, size: u32, random: &mut Random) -> Result<String, AllocError> {
    let mut text = Text::new(alloc, CPUS)?;
    let mut clock: u64 = 0;
    let mut names: u32 = 0;
    for _ in 0..CYCLICS {
        add(&mut text, random, names, clock)?;
        names = names.saturating_add(1);
    }
    for _ in 0..size {
        clock = clock.saturating_add(u64::from(random.interval(12, 19)));
        text.step("advance", &[Parameter::Number(clock)])?;
        if random.below(8) == 0 {
            let oldest = Parameter::Name(names.saturating_sub(CYCLICS));
            text.step("remove", &[oldest])?;
            add(&mut text, random, names, clock)?;
            names = names.saturating_add(1);
        }
        change(&mut text, random, names.saturating_sub(1), clock)?;
    }
    text.finish()
}

/// A script of so many rounds runs in threads.
pub(crate) fn threads<R: Threads + Wait + Sync>(
    rt: &R,
    alloc: Global,
    size: u32,
    seed: u32,
) -> Result<u64> {
    let mut random = Random::of(seed);
    let text = script(alloc, size, &mut random)?;
    let script = read_script(alloc, text.as_bytes())?;
    let calls = tallies(alloc, &script)?;
    let mut out = Out::new(Vec::new(alloc));
    let _ended = run(rt, alloc, &script, calls, &mut out)?;
    let mut digest = Digest::new();
    digest.add_bytes(out.into_inner().as_slice());
    Ok(digest.number())
}
