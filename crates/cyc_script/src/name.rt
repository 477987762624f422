//! A name as its number.

ghost use Rattle.std.specs.Prelude.{◌≡◌, ℕ, ◌<◌, ◌^◌};

use std::marker::Model;

/// A name of a script, as its number: its position among the script's names, counted from 0.
#[derive(Clone, Copy, Debug, PartialEq, Eq, PartialOrd, Ord)]
pub struct Name {
    number: u32,
}

impl Model for Name {
    ghost Value = { ℕ };

    ghost view = { λ a. a.number };

    ghost invariant = { λ a. a.number < 2 ^ 32 };

    ghost inverse = { λ n. record { number = n } };
}

impl Name {
    /// The name of this number.
    pub(crate) fn new(number: u32) -> Name
        ensures { result ≡ number }
    {
        Name { number }
    }

    /// The name's position among the script's names.
    pub fn number(self) -> usize
        ensures value { result ≡ self }
        ensures valid { result < 2 ^ 32 }
    {
        self.number as usize
    }
}
