//! The handle of a CPU on one thread.

ghost use Rattle.std.specs.Prelude.{◌≡◌, Some, None, IsSome, IfSome, IfNone, IsTrue, ◌↔◌};

use crate::loose::Loose;
use crate::sealed::Sealed;
use cyc_border::cpu::Cpu;
use std::alloc::Global;

/// A CPU as a program in C has it, or a closed handle. C copies none of it and changes none of it.
#[repr(C)]
#[derive(Drop)]
pub struct CyclicCpu {
    pub inner: Sealed,
    pub open: bool,
    pub ghost told: { IsTrue «open» ↔ IsSome inner.held },
}

impl CyclicCpu {
    /// Takes the CPU out of the handle, which is closed from then on. None where it is closed.
    pub(crate) fn take(&mut self, alloc: Global) -> Option<Box<Cpu>>
        ensures some { IfSome result (λ cpu. self.old.inner.held ≡ Some cpu.value) }
        ensures none { IfNone result (self.old.inner.held ≡ None) }
        ensures closed { self.new.inner.held ≡ None }
    {
        if !self.open {
            return None;
        }
        self.open = false;
        let inner = std::mem::replace(&mut self.inner, Sealed::none());
        Some(inner.into_loose(alloc).into_box())
    }

    /// Puts the CPU into the handle.
    pub(crate) fn put(&mut self, cpu: Box<Cpu>)
        ensures { self.new.inner.held ≡ Some cpu.value }
    {
        self.inner = Sealed::of(Loose::of(cpu));
        self.open = true;
    }
}
