//! The handle of a soft side.

ghost use Rattle.std.specs.Prelude.{◌≡◌, Some, None, IsSome, IfSome, IfNone, IsTrue, ◌↔◌};

use crate::loose::Loose;
use crate::sealed_soft::SealedSoft;
use cyc_border::soft_side::SoftSide;
use std::alloc::Global;

/// One soft side of a CPU between threads as a program in C has it, or a closed handle. C copies none of it and changes none of
/// it.
#[repr(C)]
#[derive(Drop)]
pub struct CyclicSoft {
    pub inner: SealedSoft,
    pub open: bool,
    pub ghost told: { IsTrue «open» ↔ IsSome inner.held },
}

impl CyclicSoft {
    /// Takes it out of the handle, which is closed from then on. None where it is closed.
    pub(crate) fn take(&mut self, alloc: Global) -> Option<Box<SoftSide>>
        ensures some { IfSome result (λ cpu. self.old.inner.held ≡ Some cpu.value) }
        ensures none { IfNone result (self.old.inner.held ≡ None) }
        ensures closed { self.new.inner.held ≡ None }
    {
        if !self.open {
            return None;
        }
        self.open = false;
        let inner = std::mem::replace(&mut self.inner, SealedSoft::none());
        Some(inner.into_loose(alloc).into_box())
    }

    /// Puts it into the handle.
    pub(crate) fn put(&mut self, value: Box<SoftSide>)
        ensures { self.new.inner.held ≡ Some value.value }
    {
        self.inner = SealedSoft::of(Loose::of(value));
        self.open = true;
    }
}
