//! The words of the program, the reading of an input and of a script, and a replay.
ghost use Rattle.std.specs.Prelude.{None, false};

use crate::seen::{Seen, refused};
use cyc_command::{Command, command_of};
use cyc_input::{BoundedReader, InputFault, read_input};
use cyc_replay::replay;
use cyc_script::{Script, read_script};
use cyc_text::{Fault, PutFailed, RunFault, Sink};
use cyc_types::Refusal;
use std::alloc::Global;

/// Two CPUs: a cyclic that moves keeps the moments of its series.
const SCRIPT: &str =
    "{\"cpus\":2,\"steps\":[[\"add\",\"a\",\"low\",10,10],[\"advance\",10],[\"juggle\",0],[\"softint\",0,\"low\",8],\
     [\"juggle\",0],[\"advance\",20],[\"softint\",1,\"low\",8]]}";

/// Scripts whose keys stand otherwise, and one whose last step is none, each with how many steps are read, or why none are.
pub(crate) const CEILING_BEHIND: (&str, Result<usize, Refusal>) = (
    "{\"cpus\":2,\"steps\":[[\"add\",\"a\",\"low\",10,10],[\"remove\",\"a\"]],\"ceiling\":3}",
    Ok(2),
);

pub(crate) const CPUS_BEHIND: (&str, Result<usize, Refusal>) = (
    "{\"steps\":[[\"add\",\"a\",\"low\",10,10],[\"remove\",\"a\"]],\"cpus\":2}",
    Ok(2),
);

pub(crate) const NULL_LAST: (&str, Result<usize, Refusal>) = (
    "{\"cpus\":2,\"steps\":[[\"add\",\"a\",\"low\",10,10],[\"remove\",null]]}",
    Err(Refusal::ScriptShape(2)),
);

const TEXT: &str =
    "1 ok\n2 fired 1 lost 0\n3 moved 0 bound 0 pending 1 refused 0\n4 ran 1 idle\n5 moved 1 bound 0 pending 0 refused 0\n\
     6 fired 1 lost 0\n7 ran 1 idle\na expired 2 called 2 lost 0 pending 0\n";

/// A sink that compares what it is given with a text. It takes no memory.
#[derive(Drop)]
pub(crate) struct Compares {
    rest: &'static [u8],
    differs: bool,
}

impl Compares {
    pub(crate) fn with(text: &'static str) -> Compares {
        Compares {
            rest: text.as_bytes(),
            differs: false,
        }
    }

    /// Whether nothing was put.
    pub(crate) fn is_untouched(&self, text: &str) -> bool {
        !self.differs && self.rest.len() == text.len()
    }

    /// Whether all that was put is the text.
    pub(crate) fn is_whole(&self) -> bool {
        !self.differs && self.rest.is_empty()
    }
}

impl Sink for Compares {
    ghost written = { λ _. None };

    ghost has_failed = { λ _. false };

    fn put(&mut self, bytes: &[u8]) -> Result<(), PutFailed> {
        if bytes.len() > self.rest.len() {
            self.differs = true;
            return Ok(());
        }
        let (front, rest) = self.rest.split_at(bytes.len());
        self.differs = self.differs || front != bytes;
        self.rest = rest;
        Ok(())
    }

    fn failed(&self) -> bool {
        false
    }
}

fn asks_for_replay(alloc: Global) -> Result<(), Fault> {
    match command_of(alloc, &["replay"])? {
        Command::Replay => Ok(()),
        Command::Run => Err(Fault::Words),
    }
}

/// `command_of`.
pub(crate) fn command(alloc: Global) -> Seen {
    match asks_for_replay(alloc) {
        Ok(()) => Seen::Done,
        Err(Fault::Memory) => refused(Refusal::Memory, true, asks_for_replay(alloc).is_ok()),
        Err(_) => Seen::Wrong,
    }
}

/// Whether the whole input is read.
fn reads(alloc: Global, input: &[u8]) -> Result<bool, InputFault> {
    let bytes = read_input(alloc, &mut BoundedReader::new(input))?;
    Ok(bytes.as_slice() == input)
}

fn read(alloc: Global, input: &[u8]) -> Seen {
    match reads(alloc, input) {
        Ok(true) => Seen::Done,
        Err(InputFault::Memory) => refused(Refusal::Memory, true, reads(alloc, input) == Ok(true)),
        Ok(false) | Err(InputFault::Read) => Seen::Wrong,
    }
}

/// `read_input` of several times as many bytes as are asked for at once, each time with a fresh reader.
pub(crate) fn input(alloc: Global) -> Seen {
    match vec![in alloc; b'7'; 50_000] {
        Ok(bytes) => read(alloc, bytes.as_slice()),
        Err(_) => Seen::Before,
    }
}

/// The script, which has seven steps.
fn script(alloc: Global) -> Result<Script, Refusal> {
    let script = read_script(alloc, SCRIPT.as_bytes())?;
    if script.steps.len() == 7 {
        Ok(script)
    } else {
        Err(Refusal::ScriptSyntax)
    }
}

fn reads_script(alloc: Global) -> Result<(), Refusal> {
    let _script = script(alloc)?;
    Ok(())
}

/// `read_script`.
pub(crate) fn reading(alloc: Global) -> Seen {
    match reads_script(alloc) {
        Ok(()) => Seen::Done,
        Err(why) => refused(why, true, reads_script(alloc).is_ok()),
    }
}

/// How many steps are read of a text, or why none are.
fn steps_of(alloc: Global, text: &str) -> Result<usize, Refusal> {
    let script = read_script(alloc, text.as_bytes())?;
    Ok(script.steps.len())
}

/// `read_script` of another text, with what it gives.
pub(crate) fn reading_of(alloc: Global, (text, given): (&str, Result<usize, Refusal>)) -> Seen {
    match steps_of(alloc, text) {
        found if found == given => Seen::Done,
        Err(why) => refused(why, true, steps_of(alloc, text) == given),
        Ok(_) => Seen::Wrong,
    }
}

/// Replays the script: how it ended, whether what it wrote is a prefix of the text, and whether it is the text.
fn replays(alloc: Global, script: &Script) -> (Result<(), RunFault>, bool, bool) {
    let mut sink = Compares::with(TEXT);
    let ended = replay(alloc, script, &mut sink);
    (ended, !sink.differs, sink.is_whole())
}

fn replay_on(alloc: Global, script: &Script) -> Seen {
    match replays(alloc, script) {
        (Ok(()), _, true) => Seen::Done,
        (Err(RunFault::Refused(why)), true, _) => {
            let again = replays(alloc, script) == (Ok(()), true, true);
            refused(why, true, again)
        }
        _ => Seen::Wrong,
    }
}

/// `replay`, each time into a new sink.
pub(crate) fn replaying(alloc: Global) -> Seen {
    match script(alloc) {
        Ok(script) => replay_on(alloc, &script),
        Err(_) => Seen::Before,
    }
}
