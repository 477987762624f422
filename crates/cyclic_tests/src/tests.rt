//! Scripts with their texts, and sinks that fail.

ghost use Rattle.std.specs.Prelude.{◌≡◌, ◌<◌, None, false};

use cyc_command::{Command, command_of};
use cyc_replay::replay;
use cyc_script::{Script, read_script};
use cyc_text::{Fault, Out, PutFailed, RunFault, Sink, status_of};
use cyc_types::{CYCLICS, Refusal};
use std::alloc::{AllocError, Global};
use std::fmt::Write;
use std::process::Abort;

/// Scripts, each with its text.
static RUNS: [(&str, &str, &str); 21] = [
    ("no_steps", "{\"cpus\":1,\"steps\":[]}", ""),
    (
        "one_expiration_is_served",
        "{\"cpus\":1,\"steps\":[[\"add\",\"a\",\"low\",5,10],[\"advance\",5],[\"softint\",0,\"low\",8]]}",
        "1 ok\n2 fired 1 lost 0\n3 ran 1 idle\na expired 1 called 1 lost 0 pending 0\n",
    ),
    (
        "the_ceiling_loses",
        "{\"cpus\":1,\"ceiling\":2,\"steps\":[[\"add\",\"a\",\"low\",1,1],[\"advance\",5],[\"softint\",0,\"low\",8]]}",
        "1 ok\n2 fired 5 lost 3\n3 ran 2 idle\na expired 5 called 2 lost 3 pending 0\n",
    ),
    (
        "the_cyclic_in_hand_is_not_put_in_again",
        "{\"cpus\":1,\"steps\":[[\"add\",\"a\",\"low\",1,1],[\"advance\",2],[\"softint\",0,\"low\",1],[\"advance\",3],\
         [\"softint\",0,\"low\",8]]}",
        "1 ok\n2 fired 2 lost 0\n3 ran 1 more\n4 fired 1 lost 0\n5 ran 2 idle\na expired 3 called 3 lost 0 pending 0\n",
    ),
    (
        "an_interval_of_0_is_refused",
        "{\"cpus\":1,\"steps\":[[\"add\",\"a\",\"low\",0,0]]}",
        "1 refused 3\na expired 0 called 0 lost 0 pending 0\n",
    ),
    (
        "the_start_is_looked_at_before_the_interval",
        "{\"cpus\":1,\"steps\":[[\"add\",\"a\",\"low\",-1,0]]}",
        "1 refused 2\na expired 0 called 0 lost 0 pending 0\n",
    ),
    (
        "high_calls_are_made_at_once",
        "{\"cpus\":1,\"steps\":[[\"add\",\"a\",\"high\",0,10],[\"advance\",35]]}",
        "1 ok\n2 fired 3 lost 0\na expired 3 called 3 lost 0 pending 0\n",
    ),
    (
        "one_second_late_is_not_distant",
        "{\"cpus\":1,\"steps\":[[\"add\",\"a\",\"high\",100000000,100000000],[\"advance\",1200000000]]}",
        "1 ok\n2 fired 12 lost 0\na expired 12 called 12 lost 0 pending 0\n",
    ),
    (
        "more_than_a_second_late_skips",
        "{\"cpus\":1,\"steps\":[[\"add\",\"a\",\"high\",100000000,100000000],[\"advance\",1200000001],[\"advance\",1299999999],\
         [\"advance\",1300000000]]}",
        "1 ok\n2 fired 1 lost 0\n3 fired 0 lost 0\n4 fired 1 lost 0\na expired 2 called 2 lost 0 pending 0\n",
    ),
    (
        "a_one_shot_is_reprogrammed",
        "{\"cpus\":1,\"steps\":[[\"add\",\"a\",\"high\",7,9223372036854775807],[\"advance\",100],[\"reprogram\",\"a\",150],\
         [\"advance\",150],[\"reprogram\",\"a\",9223372036854775807],[\"advance\",9223372036854775806]]}",
        "1 ok\n2 fired 1 lost 0\n3 ok\n4 fired 1 lost 0\n5 ok\n6 fired 0 lost 0\na expired 2 called 2 lost 0 pending 0\n",
    ),
    (
        "the_old_bank_is_drained_first",
        "{\"cpus\":1,\"steps\":[[\"add\",\"a\",\"low\",1,10],[\"advance\",1],[\"add\",\"b\",\"low\",2,10],[\"advance\",2],\
         [\"softint\",0,\"low\",1]]}",
        "1 ok\n2 fired 1 lost 0\n3 ok\n4 fired 1 lost 0\n5 ran 1 more\na expired 1 called 1 lost 0 pending 0\n\
         b expired 1 called 0 lost 0 pending 1\n",
    ),
    (
        "both_levels_must_follow",
        "{\"cpus\":1,\"steps\":[[\"add\",\"a\",\"low\",1,10],[\"add\",\"b\",\"low\",2,10],[\"add\",\"c\",\"low\",3,10],\
         [\"softint\",0,\"low\",8],[\"add\",\"d\",\"low\",3,10],[\"softint\",0,\"lock\",8],[\"add\",\"e\",\"low\",3,10]]}",
        "1 ok\n2 ok\n3 refused 6\n4 ran 0 idle\n5 refused 6\n6 ran 0 idle\n7 ok\na expired 0 called 0 lost 0 pending 0\n\
         b expired 0 called 0 lost 0 pending 0\nc expired 0 called 0 lost 0 pending 0\nd expired 0 called 0 lost 0 pending 0\n\
         e expired 0 called 0 lost 0 pending 0\n",
    ),
    (
        "the_last_moment_is_never",
        "{\"cpus\":1,\"steps\":[[\"add\",\"a\",\"high\",9223372036854775800,10],[\"advance\",9223372036854775806],\
         [\"advance\",9223372036854775806]]}",
        "1 ok\n2 fired 1 lost 0\n3 fired 0 lost 0\na expired 1 called 1 lost 0 pending 0\n",
    ),
    (
        "a_reprogram_needs_its_cyclic",
        "{\"cpus\":1,\"steps\":[[\"add\",\"a\",\"low\",0,0],[\"reprogram\",\"a\",-1],[\"reprogram\",\"a\",5]]}",
        "1 refused 3\n2 refused 2\n3 refused 8\na expired 0 called 0 lost 0 pending 0\n",
    ),
    (
        "each_level_has_its_own_buffer",
        "{\"cpus\":1,\"steps\":[[\"add\",\"a\",\"lock\",1,10],[\"softint\",0,\"low\",8],[\"softint\",0,\"lock\",8],\
         [\"add\",\"b\",\"low\",1,10],[\"softint\",0,\"low\",8],[\"softint\",0,\"lock\",8],[\"advance\",1],\
         [\"softint\",0,\"lock\",8],[\"softint\",0,\"low\",8]]}",
        "1 ok\n2 ran 0 idle\n3 ran 0 idle\n4 ok\n5 ran 0 idle\n6 ran 0 idle\n7 fired 2 lost 0\n8 ran 1 idle\n9 ran 1 idle\n\
         a expired 1 called 1 lost 0 pending 0\nb expired 1 called 1 lost 0 pending 0\n",
    ),
    (
        "a_soft_interrupt_needs_its_cpu",
        "{\"cpus\":1,\"steps\":[[\"softint\",1,\"low\",8],[\"softint\",0,\"low\",0],[\"softint\",0,\"low\",1]]}",
        "1 refused 13\n2 ran 0 more\n3 ran 0 idle\n",
    ),
    (
        "calls_stay_pending",
        "{\"cpus\":1,\"steps\":[[\"add\",\"a\",\"low\",0,10],[\"advance\",35],[\"softint\",0,\"low\",1]]}",
        "1 ok\n2 fired 3 lost 0\n3 ran 1 more\na expired 3 called 1 lost 0 pending 2\n",
    ),
    (
        "one_fire_after_a_resume_makes_all_that_is_due",
        "{\"cpus\":1,\"steps\":[[\"add\",\"a\",\"high\",10,10],[\"suspend\"],[\"advance\",35],[\"suspend\"],[\"resume\"],\
         [\"resume\"],[\"advance\",36]]}",
        "1 ok\n2 ok\n3 refused 25\n4 refused 25\n5 ok\n6 refused 26\n7 fired 3 lost 0\na expired 3 called 3 lost 0 pending 0\n",
    ),
    (
        "a_fire_after_a_resume_may_skip",
        "{\"cpus\":1,\"steps\":[[\"add\",\"a\",\"high\",100000000,100000000],[\"suspend\"],[\"advance\",1200000001],\
         [\"resume\"],[\"advance\",1200000001]]}",
        "1 ok\n2 ok\n3 refused 25\n4 ok\n5 fired 1 lost 0\na expired 1 called 1 lost 0 pending 0\n",
    ),
    (
        "a_refused_advance_sets_the_clock",
        "{\"cpus\":1,\"steps\":[[\"suspend\"],[\"advance\",25],[\"add\",\"a\",\"high\",0,10],[\"resume\"],[\"advance\",30]]}",
        "1 ok\n2 refused 25\n3 ok\n4 ok\n5 fired 1 lost 0\na expired 1 called 1 lost 0 pending 0\n",
    ),
    (
        "calls_are_made_while_suspended",
        "{\"cpus\":1,\"steps\":[[\"add\",\"a\",\"low\",10,10],[\"advance\",10],[\"suspend\"],[\"softint\",0,\"low\",8],\
         [\"remove\",\"a\"]]}",
        "1 ok\n2 fired 1 lost 0\n3 ok\n4 ran 1 idle\n5 removed a 1\na expired 1 called 1 lost 0 pending 0\n",
    ),
];

/// The script of this text.
pub(crate) fn script_of<R: AllocGlobal + Abort>(rt: &R, text: &str) -> Script {
    let script = read_script(rt.alloc(), text.as_bytes()).ok();
    script.expect(rt, "a script")
}

/// Replays a script. Its contract is empty: the tests compare what is written.
fn put_all<S: Sink>(alloc: Global, script: &Script, sink: &mut S) -> Result<(), RunFault>
    requires { S.has_failed sink.old ≡ false }
{
    replay(alloc, script, sink)
}

/// What a script's replay writes. None where it fails.
fn text_of(alloc: Global, script: &Script) -> Option<Vec<u8>> {
    let mut written: Vec<u8> = Vec::new(alloc);
    let mut out = Out::new(&mut written);
    let ended = put_all(alloc, script, &mut out);
    if ended.is_err() || out.failed() {
        return None;
    }
    drop(out);
    Some(written)
}

/// What the replay of a script of this text writes.
pub(crate) fn written<R: AllocGlobal + Abort>(rt: &R, script: &str) -> Vec<u8> {
    let script = script_of(rt, script);
    text_of(rt.alloc(), &script).expect(rt, "a text")
}

/// Ends the test where one of the scripts, each with its name and its text, writes another text.
pub(crate) fn gives_texts<R: AllocGlobal + Abort>(rt: &R, runs: &[(&str, &str, &str)]) {
    for &(name, script, text) in runs {
        let written = written(rt, script);
        assert_eq!(rt; written.as_slice(), text.as_bytes(), "{name}");
    }
}

#[test]
fn each_script_gives_its_text(rt: HostRuntime) {
    gives_texts(&rt, &RUNS);
}

/// The cyclics that a CPU can hold.
pub(crate) const MOST: u32 = CYCLICS as u32;

/// Whether both soft interrupts follow the add of this number, counted from 1: after each power of two up to 2,048, so that the
/// levels have followed to the bank that it filled.
fn is_drained(number: u32) -> bool {
    1 < number && number < MOST && number & (number - 1) == 0
}

/// Adds the cyclic of this number, counted from 0, and drains both old banks before the next growth.
fn push_add(script: &mut String, k: u32, kind: &str) -> Result<(), AllocError> {
    write!(script, "[\"add\",\"c{k}\",{kind}],")?;
    if is_drained(k.wrapping_add(1)) {
        script.push_str("[\"softint\",0,\"low\",1],[\"softint\",0,\"lock\",1],")?;
    }
    Ok(())
}

/// The lines of such steps, of which the first has this number. The answer is the number of the next.
fn push_add_text(text: &mut String, k: u32, step: u32) -> Result<u32, AllocError> {
    write!(text, "{step} ok\n")?;
    let (low, lock) = (step.wrapping_add(1), step.wrapping_add(2));
    if !is_drained(k.wrapping_add(1)) {
        return Ok(low);
    }
    write!(text, "{low} ran 0 idle\n{lock} ran 0 idle\n")?;
    Ok(step.wrapping_add(3))
}

/// A script that fills a CPU with cyclics of this kind, and then takes these steps.
fn filled(alloc: Global, kind: &str, last: &str) -> Result<String, AllocError> {
    let mut script = String::new(alloc);
    script.push_str("{\"cpus\":1,\"steps\":[")?;
    for k in 0..MOST {
        push_add(&mut script, k, kind)?;
    }
    script.push_str(last)?;
    script.push_str("]}")?;
    Ok(script)
}

/// The report of a cyclic that was called for each of its expirations.
pub(crate) fn push_report(text: &mut String, k: u32, calls: u32) -> Result<(), AllocError> {
    write!(
        text,
        "c{k} expired {calls} called {calls} lost 0 pending 0\n"
    )
}

/// The text of that script, with these lines of its last steps, and the calls of the first cyclic and of each other that filled
/// the CPU. The last never expired.
fn filled_text(alloc: Global, lines: &str, first: u32, others: u32) -> Result<String, AllocError> {
    let mut text = String::new(alloc);
    let mut step = 1;
    for k in 0..MOST {
        step = push_add_text(&mut text, k, step)?;
    }
    text.push_str(lines)?;
    push_report(&mut text, 0, first)?;
    for k in 1..MOST {
        push_report(&mut text, k, others)?;
    }
    push_report(&mut text, MOST, 0)?;
    Ok(text)
}

/// Ends the test where a CPU that is filled with cyclics of this kind writes another text.
fn fills<R: AllocGlobal + Abort>(
    rt: &R,
    kind: &str,
    last: &str,
    lines: &str,
    first: u32,
    others: u32,
) {
    let script = filled(rt.alloc(), kind, last).expect(rt, "a script");
    let text = filled_text(rt.alloc(), lines, first, others).expect(rt, "a text");
    let written = written(rt, script.as_str());
    assert_eq!(rt; written.as_slice(), text.as_bytes(), "{last}");
}

#[test]
fn a_cpu_holds_4096_cyclics_and_another_after_a_removal(rt: HostRuntime) {
    for (last, lines, first) in [
        ("[\"add\",\"c4096\",\"low\",1,1]", "4119 refused 5\n", 0),
        (
            "[\"remove\",\"c0\"],[\"add\",\"c4096\",\"low\",1,1]",
            "4119 removed c0 0\n4120 ok\n",
            0,
        ),
        // while a removal is open it is full too, and that is named first
        (
            "[\"reprogram\",\"c0\",0],[\"advance\",0],[\"remove\",\"c0\"],[\"add\",\"c4096\",\"low\",1,1],\
             [\"softint\",0,\"low\",8]",
            "4119 ok\n4120 fired 1 lost 0\n4121 kept 1\n4122 refused 5\n4123 ran 1 idle\n4123 removed c0 1\n",
            1,
        ),
    ] {
        fills(&rt, "\"low\",1,1", last, lines, first, 0);
    }
}

#[test]
fn all_that_a_cpu_holds_expire_in_one_advance(rt: HostRuntime) {
    fills(
        &rt,
        "\"high\",10,10",
        "[\"add\",\"c4096\",\"high\",10,10],[\"advance\",10]",
        "4119 refused 5\n4120 fired 4096 lost 0\n",
        1,
        1,
    );
}

/// A sink that fails at a put, after a part of it.
#[derive(Drop)]
struct Stops {
    puts_left: u32,
    part: usize,
    written: Vec<u8>,
    failed: bool,
}

impl Sink for Stops {
    ghost written = { λ _. None };

    ghost has_failed = { λ s. s.failed };

    fn put(&mut self, bytes: &[u8]) -> Result<(), PutFailed> {
        if self.puts_left == 0 {
            let part = bytes.len().min(self.part);
            let _ = self.written.extend_from_slice(&bytes[..part]);
            self.failed = true;
            return Err(PutFailed);
        }
        self.puts_left -= 1;
        match self.written.extend_from_slice(bytes) {
            Ok(()) => Ok(()),
            Err(_) => {
                self.failed = true;
                Err(PutFailed)
            }
        }
    }

    fn failed(&self) -> bool {
        self.failed
    }
}

/// How the replay of a script ends on a sink that fails after so many puts and so many bytes of the next, and what it wrote.
pub(crate) fn stopped(
    alloc: Global,
    script: &Script,
    puts: u32,
    part: usize,
) -> (Result<(), RunFault>, Vec<u8>) {
    let mut sink = Stops {
        puts_left: puts,
        part,
        written: Vec::new(alloc),
        failed: false,
    };
    let ended = put_all(alloc, script, &mut sink);
    (ended, sink.written)
}

/// The lines of `RUNS[1]`.
static LINES: [&str; 4] = [
    "1 ok\n",
    "2 fired 1 lost 0\n",
    "3 ran 1 idle\n",
    "a expired 1 called 1 lost 0 pending 0\n",
];

/// So many of those lines.
fn first_lines(alloc: Global, count: usize) -> Result<Vec<u8>, AllocError> {
    let mut text: Vec<u8> = Vec::new(alloc);
    for line in LINES.iter().take(count) {
        text.extend_from_slice(line.as_bytes())?;
    }
    Ok(text)
}

/// Whether the replay of `RUNS[1]` writes as many of its lines, and as much of the next one, as the sink takes, and then ends.
fn stops_right(alloc: Global, script: &Script, text: &str, puts: u32, part: usize) -> bool {
    let (ended, written) = stopped(alloc, script, puts, part);
    let wanted = if puts < 4 {
        Err(RunFault::Write)
    } else {
        Ok(())
    };
    let Ok(front) = first_lines(alloc, puts as usize) else {
        return false;
    };
    let next = LINES
        .get(puts as usize)
        .map_or(0, |line| line.len().min(part));
    ended == wanted
        && written.len() == front.len().saturating_add(next)
        && text.as_bytes().starts_with(written.as_slice())
}

#[test]
fn a_failed_put_stops_the_replay_after_any_part_of_it(rt: HostRuntime) {
    let (_, script, text) = RUNS[1];
    let script = script_of(&rt, script);
    for puts in 0..6u32 {
        for part in 0..40usize {
            let right = stops_right(rt.alloc(), &script, text, puts, part);
            assert!(rt; right, "{part} bytes after {puts} puts");
        }
    }
}

fn is_replay(alloc: Global, words: &[&str]) -> bool {
    matches!(command_of(alloc, words), Ok(Command::Replay))
}

fn is_run(alloc: Global, words: &[&str]) -> bool {
    matches!(command_of(alloc, words), Ok(Command::Run))
}

/// Whether the words are refused as no command.
fn is_no_command(alloc: Global, words: &[&str]) -> bool {
    matches!(command_of(alloc, words), Err(Fault::Words))
}

static NO_WORDS: [&str; 13] = [
    "--",
    "--help",
    "-h",
    "-V",
    "--version",
    "help",
    "",
    "Replay",
    "--replay",
    "replay ",
    "Run",
    "--run",
    "run ",
];

static NO_PAIRS: [[&str; 2]; 5] = [
    ["--", "replay"],
    ["replay", "x"],
    ["replay", "replay"],
    ["replay", "--"],
    ["-v", "replay"],
];

#[test]
fn only_the_exact_word_is_a_command(rt: HostRuntime) {
    assert!(rt; is_replay(rt.alloc(), &["replay"]));
    assert!(rt; is_run(rt.alloc(), &["run"]));
    assert!(rt; is_no_command(rt.alloc(), &[]));
    for word in &NO_WORDS {
        assert!(rt; is_no_command(rt.alloc(), &[*word]), "at {word}");
    }
    for words in &NO_PAIRS {
        assert!(rt; is_no_command(rt.alloc(), words), "at {words:?}");
    }
}

/// What the fault shows.
fn shown<R: AllocGlobal + Abort>(rt: &R, fault: &Fault) -> String {
    let text = format!(in rt.alloc(); "{fault}");
    text.expect(rt, "a text")
}

/// Each fault with what it shows and the status.
const FAULTS: [(Fault, &str, u8); 11] = [
    (Fault::Words, "usage: cyclic replay|run", 1),
    (Fault::Memory, "fault 1", 3),
    (Fault::Read, "fault read", 3),
    (Fault::Script(Refusal::Memory), "fault 1", 3),
    (Fault::Script(Refusal::ScriptSyntax), "script refused 19", 2),
    (
        Fault::Script(Refusal::ScriptShape(0)),
        "script refused 20 step 0",
        2,
    ),
    (
        Fault::Script(Refusal::TimeBack(2)),
        "script refused 21 step 2",
        2,
    ),
    (
        Fault::Script(Refusal::NameTwice(3)),
        "script refused 22 step 3",
        2,
    ),
    (
        Fault::Script(Refusal::NoName(1)),
        "script refused 23 step 1",
        2,
    ),
    (Fault::Run(RunFault::Refused(Refusal::Memory)), "fault 1", 3),
    (Fault::Run(RunFault::Write), "fault write", 3),
];

#[test]
fn each_fault_has_its_words_and_status(rt: HostRuntime) {
    for (fault, words, status) in &FAULTS {
        let text = shown(&rt, fault);
        assert_eq!(rt; text.as_str(), *words);
        assert_eq!(rt; status_of(fault), *status, "{words}");
    }
}
