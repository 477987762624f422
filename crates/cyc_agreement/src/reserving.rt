//! Memory on every online CPU.

ghost use Rattle.std.specs.Prelude.{◌≡◌, ℕ, IfOk, IfErr, OnOk};
ghost use Rattle.cyc_cpu.specs.Cpu.{HasRoom, MayWiden};
ghost use Rattle.cyc_agreement.specs.Cpus.{OfCpu, IsOnline, online_cpus, Works};
ghost use Rattle.cyc_agreement.specs.Reserving.{rooms, reserves, ReservesEach, WhyNoRooms, WhyNotAllReserved};

use crate::cpus::Cpus;
use cyc_types::{Raise, Refusal};

impl<R: Raise> Cpus<R> {
    /// Takes the memory that so many more cyclics need on every online CPU, so that on each `widen` and adding them take none
    /// (the first part of `cyclic_add_omni`).
    ///
    /// Refuses with what `room` of the first CPU says that has none, in rising number; only then with Memory.
    pub fn reserve_each(&mut self, more: usize) -> Result<(), Refusal>
        ensures did { ReservesEach R.Raise more result self.old self.new }
        ensures ready { OnOk result ((n : ℕ) → IsOnline n self.new → OfCpu n (MayWiden R.view more) self.new) }
    {
        self.room_on_each(more)?;
        self.reserve_on_each(more)
    }

    /// Asks every online CPU for room, up to the first that has none.
    fn room_on_each(&mut self, more: usize) -> Result<(), Refusal>
        ensures online { self.new.online ≡ self.old.online }
        ensures ok { IfOk result (λ done. Works R.Raise (rooms more (online_cpus self.old)) self.old self.new) }
        ensures room { OnOk result ((n : ℕ) → IsOnline n self.new → OfCpu n (HasRoom R.view more) self.new) }
        ensures err { IfErr result (λ refusal. WhyNoRooms R.Raise more refusal self.old self.new) }
    {
        for number in 0..self.count() {
            if self.is_online(number) {
                self.cpu_mut(number).room(more)?;
            }
        }
        Ok(())
    }

    /// Takes the memory on every online CPU, up to the first that has none.
    fn reserve_on_each(&mut self, more: usize) -> Result<(), Refusal>
        requires { (n : ℕ) → IsOnline n self.old → OfCpu n (HasRoom R.view more) self.old }
        ensures ok { IfOk result (λ done. Works R.Raise (reserves more (online_cpus self.old)) self.old self.new) }
        ensures ready { OnOk result ((n : ℕ) → IsOnline n self.new → OfCpu n (MayWiden R.view more) self.new) }
        ensures err { IfErr result (λ refusal. WhyNotAllReserved R.Raise more refusal self.old self.new) }
    {
        for number in 0..self.count() {
            if self.is_online(number) {
                self.cpu_mut(number).reserve(more)?;
            }
        }
        Ok(())
    }
}
