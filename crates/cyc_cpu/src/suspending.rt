//! A CPU on which no fire is made for a while.

ghost use Rattle.std.specs.Prelude.{◌≡◌};

use crate::hard::Hard;
use cyc_types::Raise;

impl<R: Raise> Hard<R> {
    ghost use Rattle.cyc_cpu.specs.Calls.{CpuChanges, Suspend, Resume};

    /// From now on no fire is made here, until `resume` (`cyclic_suspend`). Every other call goes on as before. It refuses
    /// nothing, also where the CPU is suspended. Takes no memory.
    pub fn suspend(&mut self)
        ensures { CpuChanges R.Raise self.old Suspend self.new }
    {
        self.suspended = true;
    }

    /// Fires are made here again, and the next one makes all that is due by then (`cyclic_resume`). It refuses nothing, also
    /// where the CPU is not suspended. Takes no memory.
    pub fn resume(&mut self)
        ensures { CpuChanges R.Raise self.old Resume self.new }
    {
        self.suspended = false;
    }

    /// Whether the CPU is suspended.
    pub fn is_suspended(&self) -> bool
        ensures { result ≡ self.now.suspended }
    {
        self.suspended
    }
}
