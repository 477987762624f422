//! The words that the program is called with.

ghost use Rattle.std.specs.Prelude.{◌≡◌, length, OnOk};

use clap::error::ErrorKind;
use clap::{Arg, ArgAction};
use cyc_text::Fault;
use std::alloc::Global;

/// What the program is asked to do.
#[derive(Clone, Copy, Debug, Drop, PartialEq, Eq)]
pub enum Command {
    /// Replay a script on one thread.
    Replay,
    /// Run a script in threads.
    Run,
}

/// The fault of words that the parser refuses.
fn refused(e: clap::Error) -> Fault {
    if e.kind() == ErrorKind::OutOfMemory {
        Fault::Memory
    } else {
        Fault::Words
    }
}

/// The parser of the program's one word, which has no options.
fn parser<'a>(alloc: Global) -> Result<clap::Command<'a>, Fault> {
    let word = Arg::new(alloc, "command")
        .required(true)
        .action(ArgAction::Set);
    let command = clap::Command::new(alloc, "cyclic")
        .no_binary_name(true)
        .disable_help_flag(true)
        .disable_version_flag(true)
        .arg(word)?;
    Ok(command)
}

/// The command that the program's words ask for, without the program's own name.
///
/// It is `Fault::Words` for all but the one word `replay` or `run`, which is exact: an option and a `--` before it are wrong
/// words too. It is `Fault::Memory` only where memory was refused, which the parser takes.
pub fn command_of(alloc: Global, words: &[&str]) -> Result<Command, Fault>
    ensures { OnOk result (length words.now ≡ 1) }
{
    if words.len() != 1 {
        return Err(Fault::Words);
    }
    let matches = parser(alloc)?.try_get_matches_from(words).map_err(refused)?;
    match matches.get_str("command") {
        Some("replay") => Ok(Command::Replay),
        Some("run") => Ok(Command::Run),
        _ => Err(Fault::Words),
    }
}
