//! `cyclic replay` and `cyclic run`: reads a script from standard input, runs it on one thread or in threads, and writes its text
//! to standard output.
#![tactic(auto)]

ghost use Rattle.std.specs.Prelude.{◌≡◌, ◌≢◌};
ghost use Rattle.std.specs.IoError.{error_kind};

use cyc_command::{Command, command_of};
use cyc_input::{BoundedReader, read_input};
use cyc_replay::run_script;
use cyc_script::{Script, read_script};
use cyc_text::{BoundedWriter, Fault, Out, RunFault, status_of};
use cyc_threads::{run, tallies};
use cyc_types::Refusal;
use std::alloc::Global;
use std::env::Env;
use std::io::{BufWriter, ErrorKind, Write};
use std::process::ExitCode;
use std::sync::Wait;
use std::thread::Threads;
use std::{env, io};

/// The fault where the words were not given: refused memory, or a word that is not UTF-8.
fn words_fault(why: &io::Error) -> Fault
    ensures memory { error_kind why.now ≡ ErrorKind.OutOfMemory → result ≡ Fault.Memory }
    ensures words { error_kind why.now ≢ ErrorKind.OutOfMemory → result ≡ Fault.Words }
{
    if why.kind() == ErrorKind::OutOfMemory {
        Fault::Memory
    } else {
        Fault::Words
    }
}

/// The program's words, with its own name.
fn words<R: Env + AllocGlobal>(rt: &R) -> Result<Vec<String>, Fault> {
    let mut words = Vec::new(rt.alloc());
    for word in env::args(rt).map_err(|why| words_fault(&why))? {
        words.push(word).map_err(|_| Fault::Memory)?;
    }
    Ok(words)
}

/// What the program's words ask for.
fn command<R: Env + AllocGlobal>(rt: &R) -> Result<Command, Fault> {
    let all = words(rt)?;
    let mut words = Vec::new(rt.alloc());
    for word in all.iter().skip(1) {
        words.push(word.as_str()).map_err(|_| Fault::Memory)?;
    }
    command_of(rt.alloc(), words.as_slice())
}

fn refused(why: Refusal) -> Fault {
    Fault::Script(why)
}

/// The script that the bytes are.
fn script(alloc: Global, bytes: &[u8]) -> Result<Script, Fault> {
    read_script(alloc, bytes).map_err(refused)
}

/// Runs the script on one thread into the writer, and gives the writer back. The machine that the run left is let go.
fn replay_into<W: Write + Drop>(alloc: Global, script: &Script, writer: W) -> Result<W, Fault> {
    let mut out = Out::new(writer);
    match run_script(alloc, script, &mut out) {
        Ok(_machine) => Ok(out.into_inner()),
        Err(fault) => Err(Fault::Run(fault)),
    }
}

/// Runs the script in threads into the writer, and gives the writer back.
fn run_into<R: Threads + Wait + Sync, W: Write + Drop>(
    rt: &R,
    alloc: Global,
    script: &Script,
    writer: W,
) -> Result<W, Fault> {
    let calls = tallies(alloc, script)?;
    let mut out = Out::new(writer);
    match run(rt, alloc, script, calls, &mut out) {
        Ok(_ended) => Ok(out.into_inner()),
        Err(fault) => Err(Fault::Run(fault)),
    }
}

/// What the last flush meets is a failed write.
fn flushed(ended: io::Result<()>) -> Result<(), Fault> {
    ended.map_err(|_| Fault::Run(RunFault::Write))
}

/// The script on standard input.
fn input<R: Input + AllocGlobal>(rt: &R) -> Result<Script, Fault> {
    let bytes = read_input(rt.alloc(), &mut BoundedReader::new(rt.reader()))?;
    script(rt.alloc(), bytes.as_slice())
}

/// Runs the script as the command asks, into the writer, and gives the writer back.
fn text_into<R: AllocGlobal + Threads + Wait + Sync, W: Write + Drop>(
    rt: &R,
    command: Command,
    script: &Script,
    writer: W,
) -> Result<W, Fault> {
    match command {
        Command::Replay => replay_into(rt.alloc(), script, writer),
        Command::Run => run_into(rt, rt.alloc(), script, writer),
    }
}

/// Runs the script as the command asks, and writes its text to standard output.
fn answer<R: AllocGlobal + Print + Threads + Wait + Sync>(
    rt: &R,
    command: Command,
    script: &Script,
) -> Result<(), Fault> {
    let bounded = BoundedWriter::new(io::writer(rt));
    let writer = BufWriter::new(rt.alloc(), bounded).map_err(|_| Fault::Memory)?;
    let mut writer = text_into(rt, command, script, writer)?;
    flushed(writer.flush())
}

/// Finds the faults in the order of the words, the reading, the script and the run.
fn go<R: Env + AllocGlobal + Input + Print + Threads + Wait + Sync>(rt: &R) -> Result<(), Fault> {
    let command = command(rt)?;
    let script = input(rt)?;
    answer(rt, command, &script)
}

fn main(rt: HostRuntime) -> ExitCode {
    match go(&rt) {
        Ok(()) => ExitCode::SUCCESS,
        Err(fault) => {
            let _ = eprintln!(rt; "{fault}");
            ExitCode::from(status_of(&fault))
        }
    }
}
