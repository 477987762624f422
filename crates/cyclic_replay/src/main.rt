//! What `cyclic replay` does, as a program of its own, which stands on fewer crates than `cyclic` and is proved sooner: reads a
//! script from standard input, replays it on one thread, and writes its text to standard output. It reads no words.
#![tactic(auto)]

use cyc_input::{BoundedReader, read_input};
use cyc_replay::run_script;
use cyc_script::{Script, read_script};
use cyc_text::{BoundedWriter, Fault, Out, RunFault, status_of};
use cyc_types::Refusal;
use std::alloc::Global;
use std::io;
use std::io::{BufWriter, Write};
use std::process::ExitCode;

fn refused(why: Refusal) -> Fault {
    Fault::Script(why)
}

/// The script that the bytes are.
fn script_of(alloc: Global, bytes: &[u8]) -> Result<Script, Fault> {
    read_script(alloc, bytes).map_err(refused)
}

/// The script on standard input.
fn input<R: Input + AllocGlobal>(rt: &R) -> Result<Script, Fault> {
    let bytes = read_input(rt.alloc(), &mut BoundedReader::new(rt.reader()))?;
    script_of(rt.alloc(), bytes.as_slice())
}

/// Replays the script into the writer, and gives the writer back. The machine that the run left is let go.
fn replay_into<W: Write + Drop>(alloc: Global, script: &Script, writer: W) -> Result<W, Fault> {
    let mut out = Out::new(writer);
    match run_script(alloc, script, &mut out) {
        Ok(_machine) => Ok(out.into_inner()),
        Err(fault) => Err(Fault::Run(fault)),
    }
}

/// What the last flush meets is a failed write.
fn flushed(ended: io::Result<()>) -> Result<(), Fault> {
    ended.map_err(|_| Fault::Run(RunFault::Write))
}

/// Replays the script, and writes its text to standard output.
fn answer<R: AllocGlobal + Print>(rt: &R, script: &Script) -> Result<(), Fault> {
    let bounded = BoundedWriter::new(io::writer(rt));
    let writer = BufWriter::new(rt.alloc(), bounded).map_err(|_| Fault::Memory)?;
    let mut writer = replay_into(rt.alloc(), script, writer)?;
    flushed(writer.flush())
}

/// Finds the faults in the order of the reading, the script and the run.
fn go<R: AllocGlobal + Input + Print>(rt: &R) -> Result<(), Fault> {
    let script = input(rt)?;
    answer(rt, &script)
}

fn main(rt: HostRuntime) -> ExitCode {
    match go(&rt) {
        Ok(()) => ExitCode::SUCCESS,
        Err(fault) => {
            let _ = eprintln!(rt; "{fault}");
            ExitCode::from(status_of(&fault))
        }
    }
}
