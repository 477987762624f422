//! Why a run of a script stopped, and why the program did, with its exit status.

ghost use Rattle.std.specs.Prelude.{◌≡◌};
ghost use Rattle.cyc_text.specs.Status.{status, reading_fault};
ghost use Rattle.cyc_text.specs.declared.fault.Fault.TheVariants as fault;
ghost use Rattle.cyc_text.specs.declared.fault.RunFault.TheVariants as run_fault;
ghost use Rattle.cyc_types.specs.declared.refusal.Refusal.TheVariants as refusal;

use crate::sink::PutFailed;
use cyc_input::InputFault;
use cyc_types::Refusal;
use std::alloc::AllocError;
use std::error::Error;
use std::fmt;

/// Why a run of a script stopped.
#[derive(Clone, Copy, Debug, Drop, PartialEq, Eq)]
pub enum RunFault {
    /// The run itself was refused.
    Refused(Refusal),
    /// The sink failed.
    Write,
}

impl fmt::Display for RunFault {
    fn fmt<W: fmt::Write>(&self, f: &mut fmt::Formatter<W>) -> fmt::Result {
        match self {
            RunFault::Refused(why) => {
                let number = why.number();
                write!(f, "fault {number}")
            }
            RunFault::Write => write!(f, "fault write"),
        }
    }
}

impl Error for RunFault {}

impl From<Refusal> for RunFault {
    ghost from_gives = { λ why e. e ≡ run_fault.Refused why };

    fn from(why: Refusal) -> RunFault {
        RunFault::Refused(why)
    }
}

impl From<AllocError> for RunFault {
    ghost from_gives = { λ _ e. e ≡ run_fault.Refused refusal.Memory };

    fn from(_e: AllocError) -> RunFault {
        RunFault::Refused(Refusal::Memory)
    }
}

impl From<PutFailed> for RunFault {
    ghost from_gives = { λ _ e. e ≡ run_fault.Write };

    fn from(_e: PutFailed) -> RunFault {
        RunFault::Write
    }
}

/// Why the program stopped. The text is what it prints on standard error.
#[derive(Clone, Copy, Debug, Drop, PartialEq, Eq)]
pub enum Fault {
    /// The words are not a command.
    Words,
    /// Memory was refused.
    Memory,
    /// Standard input was not read.
    Read,
    /// The script was refused.
    Script(Refusal),
    /// The run stopped.
    Run(RunFault),
}

/// The step of a script that the refusal names.
fn step_of(why: Refusal) -> Option<u32> {
    match why {
        Refusal::ScriptShape(step) => Some(step),
        Refusal::TimeBack(step) => Some(step),
        Refusal::NameTwice(step) => Some(step),
        Refusal::NoName(step) => Some(step),
        _ => None,
    }
}

/// Writes that the script was refused.
fn write_refused<W: fmt::Write>(why: Refusal, f: &mut fmt::Formatter<W>) -> fmt::Result {
    let number = why.number();
    match step_of(why) {
        Some(step) => write!(f, "script refused {number} step {step}"),
        None => write!(f, "script refused {number}"),
    }
}

impl fmt::Display for Fault {
    fn fmt<W: fmt::Write>(&self, f: &mut fmt::Formatter<W>) -> fmt::Result {
        match self {
            Fault::Words => f.write_str("usage: cyclic replay|run"),
            Fault::Memory => f.write_str("fault 1"),
            Fault::Read => f.write_str("fault read"),
            Fault::Script(Refusal::Memory) => f.write_str("fault 1"),
            Fault::Script(why) => write_refused(*why, f),
            Fault::Run(run_fault) => write!(f, "{run_fault}"),
        }
    }
}

impl Error for Fault {}

impl From<AllocError> for Fault {
    ghost from_gives = { λ _ e. e ≡ fault.Memory };

    fn from(_e: AllocError) -> Fault {
        Fault::Memory
    }
}

impl From<InputFault> for Fault {
    ghost from_gives = { λ why e. e ≡ reading_fault why };

    fn from(why: InputFault) -> Fault {
        match why {
            InputFault::Memory => Fault::Memory,
            InputFault::Read => Fault::Read,
        }
    }
}

/// The exit status of the program after a fault: 1 for the words, 2 for a refused script, and 3 for all else, refused memory
/// in the reading of a script included.
pub fn status_of(fault: &Fault) -> u8
    ensures { result ≡ status fault.now }
{
    match fault {
        Fault::Words => 1,
        Fault::Script(Refusal::Memory) => 3,
        Fault::Script(_) => 2,
        Fault::Memory | Fault::Read | Fault::Run(_) => 3,
    }
}
