//! Why a step is refused, before its number is known.

ghost use Rattle.std.specs.Prelude.{◌≡◌};
ghost use Rattle.cyc_script.specs.declared.cause.Cause.TheVariants.{Memory};
ghost use Rattle.cyc_script.specs.Answers.{refusal_of_step};

use cyc_types::Refusal;
use std::alloc::{AllocError, AllocFailed};

/// Why a step is refused, without its number.
#[derive(Clone, Copy)]
pub(crate) enum Cause {
    Memory,
    Shape,
    NameTwice,
    NoName,
    TimeBack,
}

impl Cause {
    /// The refusal of the step of this number.
    pub(crate) fn at(self, step: u32) -> Refusal
        ensures { result ≡ refusal_of_step step self }
    {
        match self {
            Cause::Memory => Refusal::Memory,
            Cause::Shape => Refusal::ScriptShape(step),
            Cause::NameTwice => Refusal::NameTwice(step),
            Cause::NoName => Refusal::NoName(step),
            Cause::TimeBack => Refusal::TimeBack(step),
        }
    }
}

impl From<AllocError> for Cause {
    ghost from_gives = { λ _ cause. cause ≡ Memory };

    fn from(_error: AllocError) -> Cause {
        Cause::Memory
    }
}

impl<T: Drop> From<AllocFailed<T>> for Cause {
    ghost from_gives = { λ _ cause. cause ≡ Memory };

    fn from(_error: AllocFailed<T>) -> Cause {
        Cause::Memory
    }
}
