//! A system in which no CPU fires for a while.

ghost use Rattle.std.specs.Prelude.{◌≡◌};

use crate::system::System;
use cyc_types::{Raise, Refusal};

impl<R: Raise> System<R> {
    ghost use Rattle.cyc_agreement.specs.Suspending.{is_suspended};
    ghost use Rattle.cyc_system.specs.Calls.{Changes, Suspend, Resume};

    /// From now on no CPU makes a fire, offline ones included, until `resume` (`cyclic_suspend`). Every other call goes on as
    /// before, and a CPU that comes online is suspended.
    ///
    /// Refuses with Suspended where the system is suspended. Takes no memory.
    pub fn suspend(&mut self) -> Result<(), Refusal>
        ensures { Changes R.Raise self.old (Suspend result) self.new }
    {
        if self.is_suspended() {
            return Err(Refusal::Suspended);
        }
        self.cpus.suspend_each();
        Ok(())
    }

    /// Every CPU makes fires again, and the next one of each makes all that is due by then (`cyclic_resume`).
    ///
    /// Refuses with NotSuspended where the system is not suspended. Takes no memory.
    pub fn resume(&mut self) -> Result<(), Refusal>
        ensures { Changes R.Raise self.old (Resume result) self.new }
    {
        if !self.is_suspended() {
            return Err(Refusal::NotSuspended);
        }
        self.cpus.resume_each();
        Ok(())
    }

    /// Whether the system is suspended: all its CPUs are, or none is. Takes no memory.
    pub fn is_suspended(&self) -> bool
        ensures { result ≡ is_suspended self.now }
    {
        self.law();
        self.cpus.cpu(0).is_suspended()
    }
}
