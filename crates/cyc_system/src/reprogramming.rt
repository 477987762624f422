//! A cyclic, or a component, gets another next expiration.

ghost use Rattle.std.specs.Prelude.{◌≡◌, ◌≢◌, ◌<◌, ◌&&◌, length, Ok, Some};
ghost use Rattle.cyc_cpu.specs.Removal.{HasCyclic};
ghost use Rattle.cyc_cpu.specs.Calls.{Reprogram as CpuReprogram};
ghost use Rattle.cyc_agreement.specs.Cpus.{OfCpu, on, DoesAt};

use crate::system::System;
use cyc_agreement::Cpus;
use cyc_places::Placement;
use cyc_types::{CyclicId, Moment, Raise, Refusal};

/// A cyclic of the CPU gets another next expiration.
fn reprogram_at<R: Raise>(cpus: &mut Cpus<R>, number: u32, id: CyclicId, moment: Moment)
    requires number { number < length cpus.old.cpus }
    requires here { OfCpu number (λ cpu. HasCyclic id cpu.cyclics) cpus.old }
    requires still { OfCpu number (λ cpu. cpu.removal ≢ Some id) cpus.old }
    ensures { DoesAt R.Raise cpus.old (on number (CpuReprogram id moment (Ok tt))) cpus.new }
{
    let Ok(()) = cpus.cpu_mut(number).reprogram(id, moment) else {
        unreachable!()
    };
}

impl<R: Raise> System<R> {
    ghost use Rattle.cyc_places.specs.declared.record.Record.{Record as TheRecord};
    ghost use Rattle.cyc_places.specs.Places.{IsRecord};
    ghost use Rattle.cyc_agreement.specs.System.{has, is_omnipresent};
    ghost use Rattle.cyc_agreement.specs.Refusals.{IsPresent};
    ghost use Rattle.cyc_system.specs.Calls.{Changes, Reprogram, ReprogramOn};

    /// Gives the cyclic another next expiration, and changes nothing else (`cyclic_reprogram`).
    ///
    /// Refuses with NoCyclic where there is no such cyclic or its removal is open, then with Omnipresent where it has several
    /// components (our own; `reprogram_on` is for these). Takes no memory.
    pub fn reprogram(&mut self, id: CyclicId, moment: Moment) -> Result<(), Refusal>
        ensures { Changes R.Raise self.old (Reprogram id moment result) self.new }
    {
        if let Some(position) = self.records.soon(id) {
            return self.reprogram_found(id, position, moment);
        }
        self.reprogram_anew(id, moment)
    }

    /// As `reprogram`, of a cyclic that two looks at the records did not find: out of the way of one that they find.
    #[cold]
    #[inline(never)]
    fn reprogram_anew(&mut self, id: CyclicId, moment: Moment) -> Result<(), Refusal>
        ensures { Changes R.Raise self.old (Reprogram id moment result) self.new }
    {
        let Some(position) = self.seek(id) else {
            return Err(Refusal::NoCyclic);
        };
        self.reprogram_found(id, position, moment)
    }

    /// As `reprogram`, of the cyclic of the record at this position.
    #[inline(always)]
    fn reprogram_found(
        &mut self,
        id: CyclicId,
        position: usize,
        moment: Moment,
    ) -> Result<(), Refusal>
        requires { (r : TheRecord) × IsRecord self.old.records position r × (r.id ≡ id) }
        ensures { Changes R.Raise self.old (Reprogram id moment result) self.new }
    {
        if !self.stays(id, position) {
            return Err(Refusal::NoCyclic);
        }
        match self.records.at(position).placement {
            Placement::On { cpu, bound: _ } => {
                reprogram_at(&mut self.cpus, cpu, id, moment);
                Ok(())
            }
            Placement::Everywhere { when: _, skew: _ } => Err(Refusal::Omnipresent),
        }
    }

    /// Gives the component of an omnipresent cyclic on this CPU another next expiration, and changes nothing else
    /// (`cyclic_reprogram`, which speaks of the CPU that it runs on).
    ///
    /// Refuses with NoCyclic where there is no such cyclic or its removal is open, then with NoCpu, then with Offline, then with
    /// NoCyclic where the cyclic has no component there. Takes no memory.
    pub fn reprogram_on(&mut self, id: CyclicId, cpu: u32, moment: Moment) -> Result<(), Refusal>
        ensures { Changes R.Raise self.old (ReprogramOn id cpu moment result) self.new }
    {
        let Some(position) = self.present(id) else {
            return Err(Refusal::NoCyclic);
        };
        if cpu >= self.cpus.count() {
            return Err(Refusal::NoCpu);
        }
        if !self.cpus.is_online(cpu) {
            return Err(Refusal::Offline);
        }
        if !self.has_component(position, id, cpu) {
            return Err(Refusal::NoCyclic);
        }
        reprogram_at(&mut self.cpus, cpu, id, moment);
        Ok(())
    }

    /// Whether the cyclic, of which this is the position, is omnipresent and has a component on the CPU.
    fn has_component(&self, position: usize, id: CyclicId, cpu: u32) -> bool
        requires number { cpu < length self.now.cpus.cpus }
        requires present { (r : TheRecord) × IsPresent id position r self.now }
        ensures { result ≡ (is_omnipresent id self.now && has cpu id self.now.cpus) }
    {
        if !self.records.at(position).placement.is_everywhere() {
            return false;
        }
        self.cpus.cpu(cpu).has(id)
    }
}
