//! A boxed soft side behind a pointer.

ghost use Rattle.std.specs.Prelude.{◌≡◌, Option, Some, None, IsSome};
ghost use Rattle.std.specs.Borrow.{sem};
ghost use Rattle.cyclic_c.specs.Owns.{owned};
ghost use Rattle.cyc_border.specs.declared.soft_side.SoftSide.{SoftSide};
ghost use Rattle.cyc_border.specs.contracts.soft_side.SoftSide as inner;

use crate::loose::Loose;
use cyc_border::soft_side::SoftSide;
use std::alloc::Global;
use std::marker::Model;
use std::ptr::null_mut;

/// A boxed soft side, or none, as a pointer whose type nobody sees.
#[repr(C)]
#[derive(Drop)]
pub struct SealedSoft {
    at: *mut u8,
    pub ghost held: { Option SoftSide },
}

impl Model for SealedSoft {
    ghost also_owns = { λ h. owned inner.the_row h.at h.held };
}

impl SealedSoft {
    ghost use Rattle.cyclic_c.specs.Lending.{LendsSoftSide};

    pub(crate) fn of(loose: Loose<SoftSide, Global>) -> SealedSoft
        ensures { result.held ≡ Some loose.value }
    {
        let Loose { at, alloc: _ } = loose;
        SealedSoft { at: at as *mut u8 }
    }

    pub(crate) fn into_loose(self, alloc: Global) -> Loose<SoftSide, Global>
        requires { IsSome self.held }
        ensures { self.held ≡ Some result.value }
    {
        let SealedSoft { at } = self;
        Loose {
            at: at as *mut SoftSide,
            alloc,
        }
    }

    pub(crate) fn none() -> SealedSoft
        ensures { result.held ≡ None }
    {
        SealedSoft { at: null_mut() }
    }

    /// What one that isn't empty owns, where it stands.
    pub(crate) fn lend(&mut self) -> &mut SoftSide
        requires { IsSome self.old.held }
        ensures* writes_back { sem 𝓛 (LendsSoftSide self.entry result) }
        ensures value { self.old.held ≡ Some result.now }
    {
        let at = self.at as *mut SoftSide;
        unsafe { &mut *at }
    }
}
