//! The move of one cyclic.

ghost use Rattle.std.specs.Prelude.{◌≡◌, ◌≢◌, ◌<◌, ◌≤◌, length, Ok, [], ◌∷◌};
ghost use Rattle.cyc_cpu.specs.Cpu.{HasNoCyclic, MayWiden};
ghost use Rattle.cyc_cpu.specs.Removal.{HasCyclic};
ghost use Rattle.cyc_cpu.specs.Calls.{TakeNow, Widen, Place};
ghost use Rattle.cyc_agreement.specs.Cpus.{OfCpu, on, DoesAt, Works};
ghost use Rattle.cyc_agreement.specs.Shifting.{MayLeave, move_of, Shifts};

use crate::cpus::Cpus;
use cyc_cpu::Taken;
use cyc_types::{CyclicId, Raise, Refusal};

impl<R: Raise> Cpus<R> {
    /// Moves a cyclic from one CPU to another, with its id, its level, its interval, its next expiration and its counts
    /// (`cyclic_juggle_one_to`). What may be refused comes before the cyclic leaves.
    ///
    /// Refuses with Busy while any removal is open at the source, then with Pending where calls of the cyclic are
    /// outstanding, then as `reserve` of one at the target. Takes memory at the target alone.
    pub fn shift(&mut self, id: CyclicId, source: u32, target: u32) -> Result<(), Refusal>
        requires source { source < length self.old.cpus }
        requires target { target < length self.old.cpus }
        requires apart { target ≢ source }
        requires here { OfCpu source (λ cpu. HasCyclic id cpu.cyclics) self.old }
        requires absent { OfCpu target (λ cpu. HasNoCyclic id cpu.cyclics) self.old }
        requires most { OfCpu source (λ from. OfCpu target (λ to. from.most ≤ to.most) self.old) self.old }
        ensures { Shifts R.Raise (move_of id source target) result self.old self.new }
    {
        if let Some(removed) = self.cpu(source).removal() {
            return Err(Refusal::Busy(removed));
        }
        if self.cpu_mut(source).pending(id) != Some(0) {
            return Err(Refusal::Pending);
        }
        self.cpu_mut(target).reserve(1)?;
        let taken = self.take(id, source);
        self.bring(id, target, taken);
        Ok(())
    }

    /// Takes a cyclic that can leave at once.
    fn take(&mut self, id: CyclicId, source: u32) -> Taken
        requires source { source < length self.old.cpus }
        requires leaves { OfCpu source (MayLeave R.view id) self.old }
        ensures did { DoesAt R.Raise self.old (on source (TakeNow id (Ok result))) self.new }
        ensures counts { OfCpu source (λ cpu. (result.sent.lost ≤ result.sent.sent) × (result.sent.sent ≤ cpu.most)) self.old }
    {
        let Ok(taken) = self.cpu_mut(source).take_now(id) else {
            unreachable!()
        };
        taken
    }

    /// Puts in a cyclic that was taken elsewhere.
    fn bring(&mut self, id: CyclicId, target: u32, taken: Taken)
        requires target { target < length self.old.cpus }
        requires room { OfCpu target (MayWiden R.view 1) self.old }
        requires absent { OfCpu target (λ cpu. HasNoCyclic id cpu.cyclics) self.old }
        requires lost { taken.sent.lost ≤ taken.sent.sent }
        requires most { OfCpu target (λ cpu. taken.sent.sent ≤ cpu.most) self.old }
        ensures { Works R.Raise (on target (Widen 1) ∷ on target
            (Place id taken.level taken.interval taken.moment taken.sent) ∷ []) self.old self.new }
    {
        self.cpu_mut(target).widen(1);
        self.cpu_mut(target)
            .place(id, taken.level, taken.interval, taken.moment, taken.sent);
    }
}
