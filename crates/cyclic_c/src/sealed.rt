//! A boxed CPU behind a pointer.

ghost use Rattle.std.specs.Prelude.{◌≡◌, Option, Some, None, IsSome};
ghost use Rattle.std.specs.Borrow.{sem};
ghost use Rattle.cyclic_c.specs.Owns.{owned};
ghost use Rattle.cyc_border.specs.declared.cpu.Cpu.{Cpu};
ghost use Rattle.cyc_border.specs.contracts.cpu.Cpu as cpu;

use crate::loose::Loose;
use cyc_border::cpu::Cpu;
use std::alloc::Global;
use std::marker::Model;
use std::ptr::null_mut;

/// A boxed CPU, or none, as a pointer whose type nobody sees.
#[repr(C)]
#[derive(Drop)]
pub struct Sealed {
    at: *mut u8,
    pub ghost held: { Option Cpu },
}

impl Model for Sealed {
    ghost also_owns = { λ h. owned cpu.the_row h.at h.held };
}

impl Sealed {
    ghost use Rattle.cyclic_c.specs.Lending.{LendsCpu};

    pub(crate) fn of(loose: Loose<Cpu, Global>) -> Sealed
        ensures { result.held ≡ Some loose.value }
    {
        let Loose { at, alloc: _ } = loose;
        Sealed { at: at as *mut u8 }
    }

    pub(crate) fn into_loose(self, alloc: Global) -> Loose<Cpu, Global>
        requires { IsSome self.held }
        ensures { self.held ≡ Some result.value }
    {
        let Sealed { at } = self;
        Loose {
            at: at as *mut Cpu,
            alloc,
        }
    }

    pub(crate) fn none() -> Sealed
        ensures { result.held ≡ None }
    {
        Sealed { at: null_mut() }
    }

    /// The CPU of one that holds it, where it stands.
    pub(crate) fn lend(&mut self) -> &mut Cpu
        requires { IsSome self.old.held }
        ensures* writes_back { sem 𝓛 (LendsCpu self.entry result) }
        ensures value { self.old.held ≡ Some result.now }
    {
        let at = self.at as *mut Cpu;
        unsafe { &mut *at }
    }
}
