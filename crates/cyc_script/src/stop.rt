//! Why a text is read no further.

ghost use Rattle.std.specs.Prelude.{◌≡◌};
ghost use Rattle.cyc_script.specs.Answers.{refusal_of_text};
ghost use Rattle.cyc_script.specs.declared.stop.Stop.TheVariants.{Memory, NoJson};

use cyc_types::Refusal;
use json::Invalid;
use std::alloc::{AllocError, AllocFailed};

/// Why a text is read no further.
#[derive(Clone, Copy)]
pub(crate) enum Stop {
    Memory,
    NoJson,
}

impl Stop {
    /// The refusal of the script.
    pub(crate) fn refusal(self) -> Refusal
        ensures { result ≡ refusal_of_text self }
    {
        match self {
            Stop::Memory => Refusal::Memory,
            Stop::NoJson => Refusal::ScriptSyntax,
        }
    }
}

impl From<Invalid> for Stop {
    ghost from_gives = { λ _ stop. stop ≡ NoJson };

    fn from(_error: Invalid) -> Stop {
        Stop::NoJson
    }
}

impl From<AllocError> for Stop {
    ghost from_gives = { λ _ stop. stop ≡ Memory };

    fn from(_error: AllocError) -> Stop {
        Stop::Memory
    }
}

impl<T: Drop> From<AllocFailed<T>> for Stop {
    ghost from_gives = { λ _ stop. stop ≡ Memory };

    fn from(_error: AllocFailed<T>) -> Stop {
        Stop::Memory
    }
}
