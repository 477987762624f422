//! A boxed firing side behind a pointer.

ghost use Rattle.std.specs.Prelude.{◌≡◌, Option, Some, None, IsSome};
ghost use Rattle.std.specs.Borrow.{sem};
ghost use Rattle.cyclic_c.specs.Owns.{owned};
ghost use Rattle.cyc_border.specs.declared.pair.Firing.{Firing};
ghost use Rattle.cyc_border.specs.contracts.pair.Firing as inner;

use crate::loose::Loose;
use cyc_border::pair::Firing;
use std::alloc::Global;
use std::marker::Model;
use std::ptr::null_mut;

/// A boxed firing side, or none, as a pointer whose type nobody sees.
#[repr(C)]
#[derive(Drop)]
pub struct SealedFiring {
    at: *mut u8,
    pub ghost held: { Option Firing },
}

impl Model for SealedFiring {
    ghost also_owns = { λ h. owned inner.the_row h.at h.held };
}

impl SealedFiring {
    ghost use Rattle.cyclic_c.specs.Lending.{LendsFiring};

    pub(crate) fn of(loose: Loose<Firing, Global>) -> SealedFiring
        ensures { result.held ≡ Some loose.value }
    {
        let Loose { at, alloc: _ } = loose;
        SealedFiring { at: at as *mut u8 }
    }

    pub(crate) fn into_loose(self, alloc: Global) -> Loose<Firing, Global>
        requires { IsSome self.held }
        ensures { self.held ≡ Some result.value }
    {
        let SealedFiring { at } = self;
        Loose {
            at: at as *mut Firing,
            alloc,
        }
    }

    pub(crate) fn none() -> SealedFiring
        ensures { result.held ≡ None }
    {
        SealedFiring { at: null_mut() }
    }

    /// What one that isn't empty owns, where it stands.
    pub(crate) fn lend(&mut self) -> &mut Firing
        requires { IsSome self.old.held }
        ensures* writes_back { sem 𝓛 (LendsFiring self.entry result) }
        ensures value { self.old.held ≡ Some result.now }
    {
        let at = self.at as *mut Firing;
        unsafe { &mut *at }
    }
}
