//! A cyclic is bound to a CPU, or no more.

ghost use Rattle.std.specs.Prelude.{◌≡◌, ◌≢◌, ◌<◌, ◌≤◌, length};
ghost use Rattle.cyc_cpu.specs.Cpu.{HasNoCyclic};
ghost use Rattle.cyc_cpu.specs.Removal.{HasCyclic};
ghost use Rattle.cyc_agreement.specs.Cpus.{OfCpu};
ghost use Rattle.cyc_agreement.specs.Binding.{GoesTo};
ghost use Rattle.cyc_agreement.specs.Shifting.{move_of};

use crate::system::System;
use cyc_agreement::Cpus;
use cyc_places::Placement;
use cyc_types::{CyclicId, Raise, Refusal};

/// A cyclic goes to a CPU, where it is not there.
fn go<R: Raise>(cpus: &mut Cpus<R>, id: CyclicId, home: u32, target: u32) -> Result<(), Refusal>
    requires home { home < length cpus.old.cpus }
    requires target { target < length cpus.old.cpus }
    requires here { OfCpu home (λ cpu. HasCyclic id cpu.cyclics) cpus.old }
    requires absent { target ≢ home → OfCpu target (λ cpu. HasNoCyclic id cpu.cyclics) cpus.old }
    requires most { OfCpu home (λ from. OfCpu target (λ to. from.most ≤ to.most) cpus.old) cpus.old }
    ensures { GoesTo R.Raise (move_of id home target) result cpus.old cpus.new }
{
    if home == target {
        return Ok(());
    }
    cpus.shift(id, home, target)
}

impl<R: Raise> System<R> {
    ghost use Rattle.cyc_system.specs.Calls.{Changes, Bind};

    /// Binds a cyclic to a CPU, where it stays when the CPU's cyclics are moved; where it is not there it moves there first. With
    /// no CPU it is bound no more (`cyclic_bind`).
    ///
    /// Refuses with NoCyclic where there is no such cyclic or its removal is open, then with Omnipresent. With a CPU then with
    /// NoCpu, then with Offline; and where the cyclic must move, with Busy while a removal is open where it is, then with Pending
    /// where calls of it are outstanding, then with Full, Busy, Expanding or Memory of the CPU where it is to go. Takes memory
    /// there alone.
    pub fn bind(&mut self, id: CyclicId, cpu: Option<u32>) -> Result<(), Refusal>
        ensures { Changes R.Raise self.old (Bind id cpu result) self.new }
    {
        let Some(position) = self.present(id) else {
            return Err(Refusal::NoCyclic);
        };
        self.cpus.law();
        self.records.law();
        let Placement::On {
            cpu: home,
            bound: _,
        } = self.records.at(position).placement
        else {
            return Err(Refusal::Omnipresent);
        };
        let Some(target) = cpu else {
            let there = Placement::On {
                cpu: home,
                bound: false,
            };
            self.records.set_placement(position, there);
            return Ok(());
        };
        if target >= self.cpus.count() {
            return Err(Refusal::NoCpu);
        }
        if !self.cpus.is_online(target) {
            return Err(Refusal::Offline);
        }
        go(&mut self.cpus, id, home, target)?;
        let there = Placement::On {
            cpu: target,
            bound: true,
        };
        self.records.set_placement(position, there);
        Ok(())
    }
}
