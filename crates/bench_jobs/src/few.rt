//! CPUs with few cyclics each, that come, go, are armed again and expire.

use crate::fires::{level_of, tick};
use crate::machine::{Machine, moment, open};
use cyc_system::CpuOrOmni;
use cyc_types::{CyclicId, Refusal, When};
use std::alloc::Global;

/// The CPUs.
const CPUS: u32 = 16;

/// The cyclics that a CPU has at most; at least it has one.
const MOST: u32 = 17;

/// The calls of a round.
const CALLS: u32 = 16;

/// The fires of each CPU in a round.
const TICKS: u32 = 4;

/// The rounds after which there are to be more cyclics, or fewer.
const TIDE: u32 = 256;

/// The machine, the ids that are there, and how many there are to be.
#[derive(Drop)]
struct Handful {
    machine: Machine,
    ids: Vec<CyclicId>,
    wanted: u32,
}

impl Handful {
    /// How many cyclics there are.
    fn len(&self) -> u32 {
        u32::try_from(self.ids.len()).unwrap_or(u32::MAX)
    }

    /// Any cyclic, and its position in the list of ids.
    fn any(&mut self) -> Option<(usize, CyclicId)> {
        let len = self.len();
        let position = self.machine.random.below(len) as usize;
        let id = self.ids.get(position).copied()?;
        Some((position, id))
    }

    /// Whether the CPU has room for one more of few.
    fn has_room(&self, cpu: u32) -> bool {
        self.machine.system.len(cpu).unwrap_or(0) < MOST as usize
    }

    /// Whether there is another cyclic on the CPU of this one.
    fn has_neighbour(&self, id: CyclicId) -> bool {
        match self.machine.system.place_of(id) {
            Some(CpuOrOmni::Cpu(cpu)) => self.machine.system.len(cpu).unwrap_or(0) > 1,
            _ => false,
        }
    }

    /// When a new cyclic expires: one of two only once, until it is armed again.
    fn when(&mut self) -> Result<When, Refusal> {
        let interval = u64::from(self.machine.random.interval(12, 18));
        let start = self.machine.clock.saturating_add(interval);
        let interval = match self.machine.random.below(2) {
            0 => i64::MAX,
            _ => i64::try_from(interval).unwrap_or(i64::MAX),
        };
        When::new(i64::try_from(start).unwrap_or(i64::MAX), interval)
    }

    /// A cyclic comes, to the CPU that has the fewest.
    fn come(&mut self) -> Result<(), Refusal> {
        let level = level_of(u64::from(self.machine.random.below(3)));
        let when = self.when()?;
        let now = moment(self.machine.clock)?;
        match self.machine.system.add(level, when, now) {
            Ok(id) => {
                self.machine.digest.add(0);
                self.machine.digest.add(id.number());
                self.ids.push(id)?;
            }
            Err(why) => self.machine.refused(&why),
        }
        Ok(())
    }

    /// A cyclic goes, where it isn't the only one of its CPU.
    fn go(&mut self) {
        let Some((position, id)) = self.any() else {
            return;
        };
        if !self.has_neighbour(id) {
            return;
        }
        self.machine.remove(id);
        let Some(last) = self.ids.pop() else {
            return;
        };
        if let Some(there) = self.ids.get_mut(position) {
            *there = last;
        }
    }

    /// A cyclic is armed again.
    fn arm(&mut self) -> Result<(), Refusal> {
        let Some((_, id)) = self.any() else {
            return Ok(());
        };
        let later = u64::from(self.machine.random.below(1 << 16));
        let next = moment(self.machine.clock.saturating_add(later))?;
        let answer = self.machine.system.reprogram(id, next);
        self.machine.answered(answer);
        Ok(())
    }

    /// A cyclic goes to any CPU that has room, where it isn't the only one of its own.
    fn change_cpu(&mut self) {
        let Some((_, id)) = self.any() else {
            return;
        };
        let cpu = self.machine.random.below(CPUS);
        if self.has_room(cpu) && self.has_neighbour(id) {
            let answer = self.machine.system.bind(id, Some(cpu));
            self.machine.answered(answer);
        }
    }

    /// Any call.
    fn call(&mut self) -> Result<(), Refusal> {
        match self.machine.random.below(16) {
            0..8 => self.arm()?,
            8..10 => self.change_cpu(),
            10..12 => {
                if let Some((_, id)) = self.any() {
                    self.machine.count(id);
                }
            }
            _ if self.len() < self.wanted => self.come()?,
            _ => self.go(),
        }
        Ok(())
    }

    /// Some calls, and some fires of each CPU with its soft interrupts.
    fn round(&mut self) -> Result<(), Refusal> {
        for _ in 0..CALLS {
            self.call()?;
        }
        for _ in 0..TICKS {
            let passed = u64::from(self.machine.random.below(4_000));
            tick(&mut self.machine, passed, 2)?;
        }
        Ok(())
    }
}

/// So many rounds on 16 CPUs, each with 1 to 17 cyclics.
pub(crate) fn few(alloc: Global, size: u32, seed: u32) -> Result<u64, Refusal> {
    let mut handful = Handful {
        machine: open(alloc, CPUS, u32::MAX, seed)?,
        ids: Vec::new(alloc),
        wanted: CPUS,
    };
    for _ in 0..CPUS {
        handful.come()?;
    }
    for round in 0..size {
        if round % TIDE == 0 {
            let more = handful.machine.random.below(CPUS * (MOST - 1) + 1);
            handful.wanted = CPUS.saturating_add(more);
        }
        handful.round()?;
    }
    for position in 0..handful.ids.len() {
        if let Some(id) = handful.ids.get(position).copied() {
            handful.machine.count(id);
        }
    }
    Ok(handful.machine.digest.number())
}
