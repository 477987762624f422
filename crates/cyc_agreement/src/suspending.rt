//! Every CPU is suspended, or every one is resumed.

ghost use Rattle.std.specs.Prelude.{length};
ghost use Rattle.cyc_cpu.specs.Calls.{Suspend, Resume};
ghost use Rattle.cyc_agreement.specs.Cpus.{Works};
ghost use Rattle.cyc_agreement.specs.Suspending.{on_each};

use crate::cpus::Cpus;
use cyc_types::Raise;

impl<R: Raise> Cpus<R> {
    /// Suspends every CPU, offline ones too. Takes no memory.
    pub fn suspend_each(&mut self)
        ensures { Works R.Raise (on_each Suspend (length self.old.cpus)) self.old self.new }
    {
        for number in 0..self.count() {
            self.cpu_mut(number).suspend();
        }
    }

    /// Resumes every CPU, offline ones too. Takes no memory.
    pub fn resume_each(&mut self)
        ensures { Works R.Raise (on_each Resume (length self.old.cpus)) self.old self.new }
    {
        for number in 0..self.count() {
            self.cpu_mut(number).resume();
        }
    }
}
