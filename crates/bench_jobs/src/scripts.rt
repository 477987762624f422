//! Scripts that are read and replayed.

use crate::digest::Digest;
use crate::random::Random;
use crate::text::{Parameter, Text};
use anyhow::Result;
use cyc_replay::replay;
use cyc_script::read_script;
use cyc_text::Out;
use std::alloc::{AllocError, Global};

/// The CPUs of a script.
const CPUS: u32 = 8;

/// The steps of a script.
const STEPS: u32 = 20_000;

/// What the steps of a script are made from.
#[derive(Drop)]
struct Author {
    text: Text,
    random: Random,
    names: u32,
    clock: u64,
}

impl Author {
    fn level(&mut self) -> Parameter<'static> {
        match self.random.below(3) {
            0 => Parameter::Word("low"),
            1 => Parameter::Word("lock"),
            _ => Parameter::Word("high"),
        }
    }

    fn soft(&mut self) -> Parameter<'static> {
        match self.random.below(3) {
            0 => Parameter::Word("lock"),
            _ => Parameter::Word("low"),
        }
    }

    fn cpu(&mut self) -> Parameter<'static> {
        Parameter::Number(u64::from(self.random.below(CPUS)))
    }

    /// Any name that was given, most often one of the last.
    fn name(&mut self) -> Parameter<'static> {
        let back = self.random.below(self.names.min(400));
        Parameter::Name(self.names.wrapping_sub(back).wrapping_sub(1))
    }

    fn interval(&mut self) -> Parameter<'static> {
        Parameter::Number(u64::from(self.random.interval(13, 24)))
    }

    fn later(&mut self, most: u32) -> Parameter<'static> {
        let later = u64::from(self.random.below(most));
        Parameter::Number(self.clock.saturating_add(later))
    }

    /// A cyclic of a new name, at times an omnipresent one.
    fn add(&mut self) -> Result<(), AllocError> {
        let name = Parameter::Name(self.names);
        self.names = self.names.wrapping_add(1);
        let level = self.level();
        let start = self.later(1 << 16);
        let interval = self.interval();
        if self.random.below(64) == 0 {
            let skew = Parameter::Number(u64::from(self.random.below(100)));
            return self
                .text
                .step("omni", &[name, level, start, interval, skew]);
        }
        self.text.step("add", &[name, level, start, interval])
    }

    fn advance(&mut self) -> Result<(), AllocError> {
        let passed = u64::from(self.random.below(5_000));
        self.clock = self.clock.saturating_add(passed);
        self.text.step("advance", &[Parameter::Number(self.clock)])
    }

    fn softint(&mut self) -> Result<(), AllocError> {
        let cpu = self.cpu();
        let level = self.soft();
        let budget = Parameter::Number(u64::from(self.random.below(200)));
        self.text.step("softint", &[cpu, level, budget])
    }

    fn reprogram(&mut self) -> Result<(), AllocError> {
        let name = self.name();
        let next = self.later(1 << 20);
        self.text.step("reprogram", &[name, next])
    }

    fn bind(&mut self) -> Result<(), AllocError> {
        let name = self.name();
        let cpu = self.cpu();
        self.text.step("bind", &[name, cpu])
    }

    fn named(&mut self, word: &str) -> Result<(), AllocError> {
        let name = self.name();
        self.text.step(word, &[name])
    }

    fn moved(&mut self) -> Result<(), AllocError> {
        let cpu = self.cpu();
        match self.random.below(3) {
            0 => self.text.step("offline", &[cpu]),
            1 => self.text.step("online", &[cpu]),
            _ => self.text.step("juggle", &[cpu]),
        }
    }

    /// Any step.
    fn step(&mut self) -> Result<(), AllocError> {
        match self.random.below(64) {
            0..6 => self.add(),
            6..24 => self.advance(),
            24..46 => self.softint(),
            46..54 => self.reprogram(),
            54..57 => self.bind(),
            57..59 => self.named("unbind"),
            59..63 => self.named("remove"),
            _ => self.moved(),
        }
    }
}

/// A script of all words.
fn script(alloc: Global, random: Random) -> Result<(String, Random), AllocError> {
    let mut author = Author {
        text: Text::new(alloc, CPUS)?,
        random,
        names: 0,
        clock: 0,
    };
    for _ in 0..8 {
        author.add()?;
    }
    for _ in 8..STEPS {
        author.step()?;
    }
    let Author { text, random, .. } = author;
    Ok((text.finish()?, random))
}

/// So many scripts are read and replayed, one after another.
pub(crate) fn scripts(alloc: Global, size: u32, seed: u32) -> Result<u64> {
    let mut random = Random::of(seed);
    let mut digest = Digest::new();
    for _ in 0..size {
        let (text, next) = script(alloc, random)?;
        random = next;
        let script = read_script(alloc, text.as_bytes())?;
        let mut out = Out::new(Vec::new(alloc));
        replay(alloc, &script, &mut out)?;
        digest.add_bytes(out.into_inner().as_slice());
    }
    Ok(digest.number())
}
