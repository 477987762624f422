//! A boxed shelf with books behind a pointer.

ghost use Rattle.std.specs.Prelude.{◌≡◌, Option, Some, None, IsSome};
ghost use Rattle.std.specs.Borrow.{sem};
ghost use Rattle.cyclic_c.specs.Owns.{owned};
ghost use Rattle.cyc_border.specs.declared.pair.Shelf.{Shelf};
ghost use Rattle.cyc_border.specs.contracts.pair.Shelf as inner;

use crate::loose::Loose;
use cyc_border::pair::Shelf;
use std::alloc::Global;
use std::marker::Model;
use std::ptr::null_mut;

/// The boxed shelf of a CPU, or none, as a pointer whose type nobody sees.
#[repr(C)]
#[derive(Drop)]
pub struct SealedBooks {
    at: *mut u8,
    pub ghost held: { Option Shelf },
}

impl Model for SealedBooks {
    ghost also_owns = { λ h. owned inner.the_row h.at h.held };
}

impl SealedBooks {
    ghost use Rattle.cyclic_c.specs.Lending.{LendsShelf};

    pub(crate) fn of(loose: Loose<Shelf, Global>) -> SealedBooks
        ensures { result.held ≡ Some loose.value }
    {
        let Loose { at, alloc: _ } = loose;
        SealedBooks { at: at as *mut u8 }
    }

    pub(crate) fn into_loose(self, alloc: Global) -> Loose<Shelf, Global>
        requires { IsSome self.held }
        ensures { self.held ≡ Some result.value }
    {
        let SealedBooks { at } = self;
        Loose {
            at: at as *mut Shelf,
            alloc,
        }
    }

    pub(crate) fn none() -> SealedBooks
        ensures { result.held ≡ None }
    {
        SealedBooks { at: null_mut() }
    }

    /// What one that isn't empty owns, where it stands.
    pub(crate) fn lend(&mut self) -> &mut Shelf
        requires { IsSome self.old.held }
        ensures* writes_back { sem 𝓛 (LendsShelf self.entry result) }
        ensures value { self.old.held ≡ Some result.now }
    {
        let at = self.at as *mut Shelf;
        unsafe { &mut *at }
    }
}
