//! Scripts that are refused.

use cyc_script::read_script;
use cyc_types::Refusal;
use cyc_types::Refusal::{NameTwice, NoName, ScriptShape, ScriptSyntax, TimeBack};
use std::alloc::Global;
use std::process::Abort;

const FIRST: &[u8] =
    b"{\"cpus\":1,\"steps\":[[\"add\",\"a\",\"low\",5,10],[\"advance\",5],[\"softint\",0,\"low\",8]]}";

// What reading these bytes refuses; none where they are a script.
pub(crate) fn refusal_of(alloc: Global, bytes: &[u8]) -> Option<Refusal> {
    read_script(alloc, bytes).err()
}

// What reading these steps on one CPU refuses; none where they are a script.
pub(crate) fn refusal_of_steps<R: AllocGlobal + Abort>(rt: &R, steps: &str) -> Option<Refusal> {
    let text = format!(in rt.alloc(); "{{\"cpus\":1,\"steps\":[{steps}]}}");
    refusal_of(rt.alloc(), text.expect(rt, "a text").as_bytes())
}

#[test]
fn no_proper_prefix_of_a_script_is_json(rt: HostRuntime) {
    for n in 0..FIRST.len() {
        let refused = refusal_of(rt.alloc(), &FIRST[..n]);
        assert_eq!(rt; refused, Some(ScriptSyntax), "the first {n} bytes");
    }
    assert_eq!(rt; refusal_of(rt.alloc(), FIRST), None);
}

#[test]
fn bytes_that_are_no_json(rt: HostRuntime) {
    for bytes in [
        b"{\"cpus\":1,\"steps\":[".as_slice(),
        b"{\"cpus\":1,\"steps\":[[\"add\",\"\xff\",\"low\",5,10]]}",
        b"{\"cpus\":1,\"steps\":[]} x",
        b"{'cpus':1,'steps':[]}",
    ] {
        let refused = refusal_of(rt.alloc(), bytes);
        assert_eq!(rt; refused, Some(ScriptSyntax), "at {bytes:?}");
    }
}

static NO_SCRIPTS: [&str; 13] = [
    "[]",
    "{}",
    "{\"cpus\":1}",
    "{\"steps\":[]}",
    "{\"cpus\":0,\"steps\":[]}",
    "{\"cpus\":17,\"steps\":[]}",
    "{\"cpus\":1.0,\"steps\":[]}",
    "{\"cpus\":\"1\",\"steps\":[]}",
    "{\"cpus\":1,\"steps\":{}}",
    "{\"cpus\":1,\"ceiling\":0,\"steps\":[]}",
    "{\"cpus\":1,\"ceiling\":4294967296,\"steps\":[]}",
    "{\"cpus\":1,\"ceiling\":null,\"steps\":[]}",
    "{\"cpus\":1,\"steps\":[],\"more\":1}",
];

#[test]
fn objects_that_are_no_script(rt: HostRuntime) {
    for text in &NO_SCRIPTS {
        let refused = refusal_of(rt.alloc(), text.as_bytes());
        assert_eq!(rt; refused, Some(ScriptShape(0)), "at {text}");
    }
}

static NO_STEPS: [&str; 48] = [
    "7",
    "[]",
    "[7]",
    "[\"\"]",
    "[\"Add\",\"a\",\"low\",1,1]",
    "[\"add\",\"a\",\"low\",1]",
    "[\"add\",\"a\",\"low\",1,1,1]",
    "[\"add\",\"a\",\"low\",9223372036854775808,1]",
    "[\"add\",\"a\",\"low\",1.0,1]",
    "[\"add\",\"a\",\"low\",-0,1]",
    "[\"add\",\"a\",\"Low\",1,1]",
    "[\"add\",\"a\",0,1,1]",
    "[\"add\",7,\"low\",1,1]",
    "[\"add\",\"\",\"low\",1,1]",
    "[\"add\",\"a b\",\"low\",1,1]",
    "[\"add\",\"\u{e9}\",\"low\",1,1]",
    "[\"add\",\"abcdefghijklmnopqrstuvwxyzABCDEFG\",\"low\",1,1]",
    "[\"advance\"]",
    "[\"advance\",-1]",
    "[\"advance\",9223372036854775807]",
    "[\"softint\",-1,\"low\",8]",
    "[\"softint\",4294967296,\"low\",8]",
    "[\"softint\",0,\"low\",4294967296]",
    "[\"softint\",0,\"high\",8]",
    "[\"omni\",\"a\",\"low\",1,1]",
    "[\"omni\",\"a\",\"low\",1,1,-1]",
    "[\"omni\",\"a\",\"low\",1,1,0,0]",
    "[\"omni\",\"a\",\"soft\",1,1,0]",
    "[\"bind\",\"a\"]",
    "[\"bind\",\"a\",-1]",
    "[\"bind\",\"a\",0,0]",
    "[\"unbind\",\"a\",0]",
    "[\"unbind\"]",
    "[\"reprogram\",\"a\",1,-1]",
    "[\"juggle\"]",
    "[\"juggle\",\"0\"]",
    "[\"offline\",4294967296]",
    "[\"online\",0,0]",
    "[\"suspend\",0]",
    "[\"suspend\",\"a\"]",
    "[\"suspend\",null]",
    "[\"resume\",0]",
    "[\"resume\",[]]",
    "[\"Resume\"]",
    "[\"suspended\"]",
    "[[\"suspend\"]]",
    "\"suspend\"",
    "{\"suspend\":0}",
];

#[test]
fn steps_that_have_not_the_form_of_a_step(rt: HostRuntime) {
    for step in &NO_STEPS {
        let refused = refusal_of_steps(&rt, step);
        assert_eq!(rt; refused, Some(ScriptShape(1)), "at {step}");
    }
}

/// The steps of a script, each list with its refusal.
const FAULTY_STEPS: [(&str, Option<Refusal>); 24] = [
    ("[\"advance\",5],[\"advance\",4]", Some(TimeBack(2))),
    ("[\"advance\",5],[\"advance\",5]", None),
    (
        "[\"add\",\"a\",\"lock\",1,1],[\"softint\",0,\"lock\",8],[\"reprogram\",\"a\",-1]",
        None,
    ),
    ("[\"reprogram\",\"a\",1]", Some(NoName(1))),
    ("[\"remove\",\"a\"]", Some(NoName(1))),
    ("[\"add\",\"a\",\"low\",1,1],[\"remove\",\"a\"]", None),
    (
        "[\"add\",\"a\",\"low\",1,1],[\"remove\",\"a\",0]",
        Some(ScriptShape(2)),
    ),
    ("[\"advance\",5],[],[\"advance\",4]", Some(ScriptShape(2))),
    ("[\"advance\",5],[\"advance\",4],[]", Some(TimeBack(2))),
    (
        "[\"add\",\"a\",\"low\",1,1],[\"add\",\"a\",\"low\",2,2]",
        Some(NameTwice(2)),
    ),
    (
        "[\"add\",\"a\",\"low\",1,1],[\"add\",\"\\u0061\",\"low\",2,2]",
        Some(NameTwice(2)),
    ),
    (
        "[\"add\",\"a\",\"low\",1,1],[\"add\",\"A\",\"low\",2,2]",
        None,
    ),
    (
        "[\"add\",\"a\",\"low\",0,0],[\"advance\",1],[\"add\",\"a\",\"low\",2,2]",
        Some(NameTwice(3)),
    ),
    (
        "[\"add\",\"a\",\"low\",1,1],[\"add\",\"a\",\"low\",1]",
        Some(ScriptShape(2)),
    ),
    (
        "[\"add\",\"a\",\"low\",1,1],[\"add\",\"a\",\"high\",1,1]",
        Some(NameTwice(2)),
    ),
    (
        "[\"add\",\"abcdefghijklmnopqrstuvwxyzAZ09_-\",\"low\",1,1]",
        None,
    ),
    (
        "[\"omni\",\"a\",\"high\",1,1,9],[\"bind\",\"a\",4294967295],[\"unbind\",\"a\"],[\"reprogram\",\"a\",1,15],\
         [\"juggle\",16],[\"offline\",0],[\"online\",0]",
        None,
    ),
    (
        "[\"omni\",\"a\",\"low\",1,1,0],[\"add\",\"a\",\"low\",1,1]",
        Some(NameTwice(2)),
    ),
    ("[\"bind\",\"a\",0]", Some(NoName(1))),
    ("[\"juggle\",0],[\"unbind\",\"a\"]", Some(NoName(2))),
    ("[\"reprogram\",\"a\",1,0]", Some(NoName(1))),
    (
        "[\"suspend\"],[\"suspend\"],[\"advance\",5],[\"resume\"],[\"resume\"]",
        None,
    ),
    (
        "[\"suspend\"],[\"advance\",5],[\"resume\",5],[\"advance\",4]",
        Some(ScriptShape(3)),
    ),
    (
        "[\"suspend\"],[\"advance\",5],[\"resume\"],[\"advance\",4]",
        Some(TimeBack(4)),
    ),
];

#[test]
fn the_first_faulty_step_decides_and_its_form_before_its_name(rt: HostRuntime) {
    for (steps, refusal) in &FAULTY_STEPS {
        assert_eq!(rt; refusal_of_steps(&rt, steps), *refusal, "at {steps}");
    }
}

/// The steps of a script with a faulty one, each list with its refusal. The faulty step stands first, in the middle or last, or
/// there are two; behind it are steps, or values that are none, with parts that are neither texts nor whole numbers.
const FAULTS_BEFORE_OTHERS: [(&str, Refusal); 20] = [
    (
        "[\"offline\"],[\"advance\",5],[\"add\",\"a\",\"low\",1,1]",
        ScriptShape(1),
    ),
    (
        "[\"bind\",\"a\",0],[\"add\",\"a\",\"low\",1,1],[\"advance\",5]",
        NoName(1),
    ),
    (
        "[\"advance\",5],[\"hold\",5],[\"advance\",6]",
        ScriptShape(2),
    ),
    (
        "[\"add\",\"a\",\"low\",1,1],[\"omni\",\"a\",\"low\",1,1,0],[\"remove\",\"a\"]",
        NameTwice(2),
    ),
    (
        "[\"advance\",5],[\"remove\",\"a\"],[\"advance\",6]",
        NoName(2),
    ),
    (
        "[\"advance\",5],[\"advance\",4],[\"advance\",6]",
        TimeBack(2),
    ),
    (
        "[\"juggle\",0],[\"advance\",5],[\"advance\",\"6\"]",
        ScriptShape(3),
    ),
    (
        "[\"add\",\"a\",\"low\",1,1],[\"advance\",5],[\"add\",\"a\",\"low\",1,1]",
        NameTwice(3),
    ),
    (
        "[\"juggle\",0],[\"advance\",5],[\"unbind\",\"a\"]",
        NoName(3),
    ),
    (
        "[\"juggle\",0],[\"advance\",5],[\"advance\",4]",
        TimeBack(3),
    ),
    (
        "[\"advance\",5],[\"advance\",4],[\"advance\",3],[\"bind\"]",
        TimeBack(2),
    ),
    (
        "[\"juggle\",0],[\"bind\",\"a\",0],[\"advance\"],[\"remove\",\"b\"]",
        NoName(2),
    ),
    (
        "[\"advance\",5],[\"advance\",4],[\"advance\",[6]]",
        TimeBack(2),
    ),
    (
        "[\"advance\",5],[\"advance\",4],[\"advance\",null]",
        TimeBack(2),
    ),
    (
        "[\"advance\",5],[\"advance\",4],[\"advance\",6.0]",
        TimeBack(2),
    ),
    (
        "[\"advance\",5],[\"remove\",\"a\"],[[]],[\"advance\",6]",
        NoName(2),
    ),
    (
        "[\"advance\",5],[\"remove\",\"a\"],{\"advance\":[6]}",
        NoName(2),
    ),
    ("[\"advance\",5],[\"remove\",\"a\"],7", NoName(2)),
    (
        "[\"advance\",null],[\"remove\",\"a\"],[\"advance\",6]",
        ScriptShape(1),
    ),
    (
        "[\"advance\",5],[\"advance\",[4]],[\"remove\",\"a\"]",
        ScriptShape(2),
    ),
];

#[test]
fn the_first_faulty_step_decides_whatever_steps_stand_behind_it(rt: HostRuntime) {
    for (steps, refusal) in &FAULTS_BEFORE_OTHERS {
        assert_eq!(rt; refusal_of_steps(&rt, steps), Some(*refusal), "at {steps}");
    }
}

/// Texts whose second step is faulty, each with its refusal: what stands behind the steps decides where the text is no JSON or
/// the object is no script.
const FAULTS_BEFORE_THE_END: [(&str, Refusal); 14] = [
    (
        "{\"cpus\":1,\"steps\":[[\"advance\",5],[\"advance\",4],[\"advance\",6]}",
        ScriptSyntax,
    ),
    (
        "{\"cpus\":1,\"steps\":[[\"advance\",5],[\"advance\",4],[\"advance\" 6]]}",
        ScriptSyntax,
    ),
    (
        "{\"cpus\":1,\"steps\":[[\"advance\",5],[\"advance\",4],[\"advance\",06]]}",
        ScriptSyntax,
    ),
    (
        "{\"cpus\":1,\"steps\":[[\"advance\",5],[\"advance\",4],]}",
        ScriptSyntax,
    ),
    (
        "{\"cpus\":1,\"steps\":[[\"advance\",5],[\"advance\",4]]",
        ScriptSyntax,
    ),
    (
        "{\"cpus\":1,\"steps\":[[\"advance\",5],[\"advance\",4]]} 7",
        ScriptSyntax,
    ),
    (
        "{\"cpus\":1,\"steps\":[[\"advance\",5],[\"advance\",4]],\"more\"}",
        ScriptSyntax,
    ),
    (
        "{\"cpus\":1,\"steps\":[[\"advance\",5],[\"advance\",4]],\"more\":1}",
        ScriptShape(0),
    ),
    (
        "{\"cpus\":1,\"steps\":[[\"advance\",5],[\"advance\",4]],\"cpus\":17}",
        ScriptShape(0),
    ),
    (
        "{\"cpus\":1,\"steps\":[[\"advance\",5],[\"advance\",4]],\"cpus\":2}",
        TimeBack(2),
    ),
    (
        "{\"cpus\":1,\"steps\":[[\"advance\",5],[\"advance\",4]],\"steps\":[[]]}",
        ScriptShape(1),
    ),
    (
        "{\"cpus\":2,\"ceiling\":3,\"steps\":[[\"advance\",5],[\"advance\",4]]}",
        TimeBack(2),
    ),
    (
        "{\"ceiling\":3,\"cpus\":2,\"steps\":[[\"advance\",5],[\"advance\",4]]}",
        TimeBack(2),
    ),
    (
        "{\"steps\":[[\"advance\",5],[\"advance\",4]],\"cpus\":2}",
        TimeBack(2),
    ),
];

#[test]
fn the_end_of_the_text_decides_before_a_faulty_step(rt: HostRuntime) {
    for (text, refusal) in &FAULTS_BEFORE_THE_END {
        let refused = refusal_of(rt.alloc(), text.as_bytes());
        assert_eq!(rt; refused, Some(*refusal), "at {text}");
    }
}

/// Texts with no faulty step, each with its refusal if it is no script: what stands behind the steps decides.
const ENDS: [(&str, Option<Refusal>); 24] = [
    (
        "{\"cpus\":1,\"steps\":[[\"advance\",5],[\"advance\",6}]}",
        Some(ScriptSyntax),
    ),
    (
        "{\"cpus\":1,\"steps\":[[\"advance\",5],[\"advance\":6]]}",
        Some(ScriptSyntax),
    ),
    (
        "{\"cpus\":1,\"steps\":[[\"advance\",5],[\"advance\",]]}",
        Some(ScriptSyntax),
    ),
    (
        "{\"cpus\":1,\"steps\":[[\"advance\",5],[\"advance\",6.]]}",
        Some(ScriptSyntax),
    ),
    (
        "{\"cpus\":1,\"steps\":[[\"advance\",5],[\"advance\",1e999]]}",
        Some(ScriptSyntax),
    ),
    (
        "{\"cpus\":1,\"steps\":[[\"advance\",5],[\"advance\",\"\\x\"]]}",
        Some(ScriptSyntax),
    ),
    (
        "{\"cpus\":1,\"steps\":[[\"advance\",5],\"advance\":6]}",
        Some(ScriptSyntax),
    ),
    (
        "{\"cpus\":1,\"steps\":[[\"advance\",5]},[\"advance\",6]]}",
        Some(ScriptSyntax),
    ),
    (
        "{\"cpus\":1,\"steps\":[[\"advance\",5],[\"advance\",6]]]}",
        Some(ScriptSyntax),
    ),
    (
        "{\"cpus\":1,\"steps\":[[\"advance\",5]],}",
        Some(ScriptSyntax),
    ),
    (
        "{\"cpus\":1,\"steps\":[[\"advance\",5]],[\"advance\",6]}",
        Some(ScriptSyntax),
    ),
    (
        "{\"cpus\":1,\"steps\":[[\"advance\",5]],\"more\":}",
        Some(ScriptSyntax),
    ),
    (
        "{\"cpus\":1,\"steps\":[[\"advance\",5]],\"more\":1",
        Some(ScriptSyntax),
    ),
    (
        "{\"cpus\":1,\"steps\":[[\"advance\",5]],\"more\":1e999}",
        Some(ScriptSyntax),
    ),
    (
        "{\"cpus\":1,\"steps\":[[\"advance\",5]]}}",
        Some(ScriptSyntax),
    ),
    (
        "{\"cpus\":1,\"steps\":[[\"advance\",5]]},",
        Some(ScriptSyntax),
    ),
    (
        "{\"cpus\":1,\"steps\":[[\"advance\",5]]}\u{0}",
        Some(ScriptSyntax),
    ),
    (
        "{\"cpus\":1,\"steps\":[[\"advance\",5]],\"more\":\"1\"}",
        Some(ScriptShape(0)),
    ),
    (
        "{\"cpus\":1,\"steps\":[[\"advance\",5]],\"more\":[{}],\"cpus\":2}",
        Some(ScriptShape(0)),
    ),
    (
        "{\"cpus\":1,\"steps\":[[\"advance\",5]],\"more\":1,\"more\":null}",
        Some(ScriptShape(0)),
    ),
    (
        "{\"cpus\":1,\"steps\":[[\"advance\",5]],\"cpus\":\"2\"}",
        Some(ScriptShape(0)),
    ),
    (
        "{\"cpus\":1,\"steps\":[[\"advance\",5]],\"cpus\":2,\"ceiling\":3}",
        None,
    ),
    (
        "{\"cpus\":1,\"steps\":[[\"advance\",5]],\"steps\":[]}",
        None,
    ),
    ("{\"cpus\":1,\"steps\":[[\"advance\",5]] \n}\t\r\n ", None),
];

#[test]
fn the_end_of_the_text_decides(rt: HostRuntime) {
    for (text, refusal) in &ENDS {
        let refused = refusal_of(rt.alloc(), text.as_bytes());
        assert_eq!(rt; refused, *refusal, "at {text}");
    }
}
