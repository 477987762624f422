//! Questions to a system that change nothing.

ghost use Rattle.std.specs.Prelude.{◌≡◌, ◌≤◌, ◌<◌, length, IfNone, IfSome};
ghost use Rattle.cyc_agreement.specs.Cpus.{OfCpu};

use crate::system::System;
use cyc_places::Placement;
use cyc_types::{CyclicId, Raise};

/// Where a cyclic is.
#[derive(Clone, Copy, Debug, PartialEq, Eq)]
pub enum CpuOrOmni {
    /// On the CPU of this number.
    Cpu(u32),
    /// On every online CPU.
    Omni,
}

impl<R: Raise> System<R> {
    ghost use Rattle.cyc_agreement.specs.System.{removal_on};
    ghost use Rattle.cyc_system.specs.Asking.{place_of};

    /// How many cyclics the CPU has, with one whose removal is open. None where there is no such CPU.
    pub fn len(&self, cpu: u32) -> Option<usize>
        ensures none { IfNone result (length self.now.cpus.cpus ≤ cpu) }
        ensures some { IfSome result (λ n. cpu < length self.now.cpus.cpus) }
        ensures value { IfSome result (λ n. OfCpu cpu (λ own. n ≡ length own.cyclics) self.now.cpus) }
    {
        if cpu < self.cpus.count() {
            Some(self.cpus.cpu(cpu).len())
        } else {
            None
        }
    }

    /// Where the cyclic is. None where the id was not given, and once its removal has answered.
    pub fn place_of(&self, id: CyclicId) -> Option<CpuOrOmni>
        ensures { result ≡ place_of id self.now }
    {
        self.records.law();
        let position = self.records.find(id)?;
        match self.records.at(position).placement {
            Placement::On { cpu, bound: _ } => Some(CpuOrOmni::Cpu(cpu)),
            Placement::Everywhere { when: _, skew: _ } => Some(CpuOrOmni::Omni),
        }
    }

    /// The id whose removal is open on the CPU. None where no removal is, and where there is no such CPU.
    pub fn removal(&self, cpu: u32) -> Option<CyclicId>
        ensures { result ≡ removal_on cpu self.now.cpus }
    {
        if cpu < self.cpus.count() {
            self.cpus.cpu(cpu).removal()
        } else {
            None
        }
    }
}
