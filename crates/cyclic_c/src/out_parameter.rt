//! A number of the caller's that a call writes, behind a pointer that may be null.

ghost use Rattle.std.specs.Prelude.{◌≡◌, ℕ, Option};
ghost use Rattle.std.specs.Borrow.{full_share, sem, u64};
ghost use Rattle.std.specs.Ptr.{lies_at};
ghost use denote.RawPtr.{Testable};

use std::marker::Model;

/// The number behind a pointer that isn't null.
#[derive(Drop)]
pub struct OutParameter {
    at: *mut u64,
    pub ghost number: { ℕ },
}

impl Model for OutParameter {
    ghost also_owns = { λ p. lies_at u64 full_share p.at p.number };
}

impl OutParameter {
    ghost use Rattle.cyclic_c.specs.OutParameters.{number_behind, pointer_of, number_out, LeavesNumber};

    /// What is behind the pointer, None where it is null.
    pub(crate) unsafe fn behind(at: *mut u64) -> Option<OutParameter>
        ghost number: { Option ℕ }
        requires testable { Testable at }
        requires* memory { sem 𝓛 (number_behind at number) }
        ensures { pointer_of result ≡ at }
    {
        if at.is_null() {
            None
        } else {
            Some(OutParameter { at })
        }
    }

    fn write(&mut self, number: u64)
        ensures { self.new ≡ record self.old { number = number } }
    {
        unsafe { *self.at = number };
    }

    /// Writes the number, where there is an out-parameter.
    pub(crate) fn written(parameter: Option<OutParameter>, number: u64) -> Option<OutParameter>
        ensures pointer { pointer_of result ≡ pointer_of parameter }
        ensures number { LeavesNumber number (number_out result) }
    {
        let mut found = parameter?;
        found.write(number);
        Some(found)
    }
}
