//! Why an input was not read.

ghost use Rattle.std.specs.Prelude.{◌≡◌};
ghost use Rattle.cyc_input.specs.declared.fault.InputFault.TheVariants as fault;

use std::alloc::AllocError;
use thiserror::Error;

/// Why the input was not read.
#[derive(Clone, Copy, Debug, Drop, PartialEq, Eq, Error)]
pub enum InputFault {
    /// Memory was refused.
    #[error("memory was refused")]
    Memory,
    /// A read failed otherwise than by an interruption, or no turn was left.
    #[error("the input was not read")]
    Read,
}

impl From<AllocError> for InputFault {
    ghost from_gives = { λ _ e. e ≡ fault.Memory };

    fn from(_e: AllocError) -> InputFault {
        InputFault::Memory
    }
}
