//! The handle of the books.

ghost use Rattle.std.specs.Prelude.{◌≡◌, ◌≢◌, Some, None, IsSome, IfSome, IfNone, IsTrue, ◌↔◌};
ghost use Rattle.std.specs.Option.{ForSome};

use crate::loose::Loose;
use crate::sealed_books::SealedBooks;
use cyc_border::pair::Shelf;
use std::alloc::Global;

/// The books of a closed CPU as a program in C has it, or a closed handle. C copies none of it and changes none of it.
#[repr(C)]
#[derive(Drop)]
pub struct CyclicBooks {
    pub inner: SealedBooks,
    pub open: bool,
    pub ghost told: { IsTrue «open» ↔ IsSome inner.held },
    pub ghost filled: { ForSome inner.held (λ s. s.books ≢ None) },
}

impl CyclicBooks {
    /// Takes it out of the handle, which is closed from then on. None where it is closed.
    pub(crate) fn take(&mut self, alloc: Global) -> Option<Box<Shelf>>
        ensures some { IfSome result (λ shelf. self.old.inner.held ≡ Some shelf.value) }
        ensures filled { IfSome result (λ shelf. shelf.value.books ≢ None) }
        ensures none { IfNone result (self.old.inner.held ≡ None) }
        ensures closed { self.new.inner.held ≡ None }
    {
        if !self.open {
            return None;
        }
        self.open = false;
        let inner = std::mem::replace(&mut self.inner, SealedBooks::none());
        Some(inner.into_loose(alloc).into_box())
    }

    /// Puts it into the handle.
    pub(crate) fn put(&mut self, shelf: Box<Shelf>)
        requires { shelf.value.books ≢ None }
        ensures { self.new.inner.held ≡ Some shelf.value }
    {
        self.inner = SealedBooks::of(Loose::of(shelf));
        self.open = true;
    }
}
