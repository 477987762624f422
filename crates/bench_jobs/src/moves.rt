//! Cyclics that get other moments, move, come and go on 16 CPUs.

ghost use Rattle.std.specs.Prelude.{◌≤◌};

use crate::machine::{Machine, id_of, moment, open};
use cyc_types::{CyclicId, Level, Refusal};
use std::alloc::Global;

/// The CPUs.
const CPUS: u32 = 16;

/// The cyclics that there are at a time.
const CYCLICS: u32 = 3_600;

/// The calls of a round.
const CALLS: u32 = 64;

/// The machine, and the ids that are there.
#[derive(Drop)]
struct Fleet {
    machine: Machine,
    ids: Vec<u64>,
}

/// A level, most often high.
fn level_of(number: u32) -> Level {
    match number {
        0 => Level::Low,
        1 => Level::Lock,
        _ => Level::High,
    }
}

impl Fleet {
    /// A cyclic of any level is added. The answer is the number of its id.
    fn add(&mut self) -> Result<u64, Refusal> {
        let level = level_of(self.machine.random.below(4));
        let interval = self.machine.random.interval(14, 24);
        self.machine.add(level, interval)
    }

    /// Any position in the list of ids.
    fn position(&mut self) -> usize {
        self.machine.random.below(CYCLICS) as usize
    }

    /// The id at the position.
    fn id(&self, position: usize) -> Result<CyclicId, Refusal> {
        id_of(self.ids.get(position).copied().unwrap_or(1))
    }

    /// A cyclic gets another next expiration.
    fn reprogram(&mut self, id: CyclicId) -> Result<(), Refusal> {
        let later = u64::from(self.machine.random.below(1 << 20));
        let next = moment(self.machine.clock.saturating_add(later))?;
        let answer = self.machine.system.reprogram(id, next);
        self.machine.answered(answer);
        Ok(())
    }

    /// A cyclic is bound to any CPU, or no more to one.
    fn bind(&mut self, id: CyclicId, bound: bool) {
        let cpu = if bound {
            Some(self.machine.random.below(CPUS))
        } else {
            None
        };
        let answer = self.machine.system.bind(id, cpu);
        self.machine.answered(answer);
    }

    /// A cyclic is removed, and another one is added in its place.
    fn replace(&mut self, position: usize) -> Result<(), Refusal> {
        let id = self.id(position)?;
        self.machine.remove(id);
        let number = self.add()?;
        if let Some(there) = self.ids.get_mut(position) {
            *there = number;
        }
        Ok(())
    }

    /// Any call on any cyclic.
    fn call(&mut self) -> Result<(), Refusal> {
        let position = self.position();
        let id = self.id(position)?;
        match self.machine.random.below(16) {
            0..8 => self.reprogram(id)?,
            8..11 => self.bind(id, true),
            11..13 => self.bind(id, false),
            13..15 => self.machine.count(id),
            _ => self.replace(position)?,
        }
        Ok(())
    }

    /// The cyclics of a CPU move to others; at times it is offline for a while.
    fn shift(&mut self) -> Result<(), Refusal> {
        let cpu = self.machine.random.below(CPUS);
        if self.machine.random.below(4) == 0 {
            let answer = self.machine.system.offline(cpu);
            self.machine.answered(answer);
            let now = moment(self.machine.clock)?;
            let answer = self.machine.system.online(cpu, now);
            self.machine.answered(answer);
            return Ok(());
        }
        let answer = self.machine.system.juggle(cpu);
        self.machine.juggled(answer);
        Ok(())
    }

    /// Some calls, a fire of each CPU and its soft interrupts, and once in a while a CPU whose cyclics move.
    fn round(&mut self) -> Result<(), Refusal> {
        for _ in 0..CALLS {
            self.call()?;
        }
        let passed = u64::from(self.machine.random.below(4_000));
        self.machine.clock = self.machine.clock.saturating_add(passed);
        for cpu in 0..CPUS {
            self.machine.fire(cpu)?;
        }
        self.machine.drain();
        if self.machine.random.below(16) == 0 {
            self.shift()?;
        }
        Ok(())
    }
}

/// So many rounds on 16 CPUs that are nearly full.
pub(crate) fn moves(alloc: Global, size: u32, seed: u32) -> Result<u64, Refusal> {
    let mut fleet = Fleet {
        machine: open(alloc, CPUS, u32::MAX, seed)?,
        ids: Vec::new(alloc),
    };
    for _ in 0..CYCLICS {
        let number = fleet.add()?;
        fleet.ids.push(number)?;
    }
    for _ in 0..size {
        fleet.round()?;
    }
    for position in 0..fleet.ids.len() {
        let id = fleet.id(position)?;
        fleet.machine.count(id);
    }
    Ok(fleet.machine.digest.number())
}
