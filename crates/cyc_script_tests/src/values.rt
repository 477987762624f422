//! Values in the place of steps and of a script, and keys that come twice.

use crate::refusals::{refusal_of, refusal_of_steps};
use cyc_types::Refusal;
use cyc_types::Refusal::{NoName, ScriptShape, ScriptSyntax, TimeBack};

/// Values in a step's place, each with its refusal after two good steps: none is a step, and where it is no JSON, nor is the
/// text.
const NO_STEPS_BEHIND_STEPS: [(&str, Refusal); 29] = [
    ("null", ScriptShape(3)),
    ("true", ScriptShape(3)),
    ("7", ScriptShape(3)),
    ("1e999", ScriptSyntax),
    ("\"advance\"", ScriptShape(3)),
    ("{}", ScriptShape(3)),
    ("{\"advance\":[6],\"advance\":1e308}", ScriptShape(3)),
    ("{\"advance\":[6],\"advance\":1e309}", ScriptSyntax),
    ("{\"advance\"}", ScriptSyntax),
    ("[null]", ScriptShape(3)),
    ("[\"advance\",null]", ScriptShape(3)),
    ("[\"advance\",true]", ScriptShape(3)),
    ("[\"advance\",6.0]", ScriptShape(3)),
    ("[\"advance\",1.5]", ScriptShape(3)),
    ("[\"advance\",-0]", ScriptShape(3)),
    ("[\"advance\",1e9]", ScriptShape(3)),
    ("[\"advance\",18446744073709551616]", ScriptShape(3)),
    ("[\"advance\",-9223372036854775809]", ScriptShape(3)),
    ("[\"advance\",1e999]", ScriptSyntax),
    ("[\"advance\",-1e999]", ScriptSyntax),
    ("[\"advance\",[6]]", ScriptShape(3)),
    ("[\"advance\",[6,]]", ScriptSyntax),
    ("[\"advance\",{\"a\":[1e400]}]", ScriptSyntax),
    ("[\"omni\",\"b\",\"low\",1,1,0,null]", ScriptShape(3)),
    ("[\"omni\",\"b\",\"low\",1,1,0,0,0,0]", ScriptShape(3)),
    ("[\"omni\",\"b\",\"low\",1,1,0,0,0,1e999]", ScriptSyntax),
    ("[\"suspend\",{}]", ScriptShape(3)),
    ("[\"resume\",0,0,0,0,0,0,0]", ScriptShape(3)),
    ("[\"suspend\",0,0,0,0,0,0,1e999]", ScriptSyntax),
];

#[test]
fn a_value_that_is_no_step_is_refused_for_its_shape(rt: HostRuntime) {
    for (value, refusal) in &NO_STEPS_BEHIND_STEPS {
        let first = "[\"add\",\"a\",\"low\",1,1],[\"advance\",5]";
        let last = format!(in rt.alloc(); "{first},{value}").expect(&rt, "steps");
        assert_eq!(rt;
            refusal_of_steps(&rt, last.as_str()),
            Some(*refusal),
            "at {value}"
        );
        let middle = format!(in rt.alloc(); "{first},{value},[\"remove\",\"b\"],[\"advance\",1]");
        let middle = middle.expect(&rt, "steps");
        assert_eq!(rt;
            refusal_of_steps(&rt, middle.as_str()),
            Some(*refusal),
            "within, at {value}"
        );
    }
}

/// Texts with a key that comes twice, each with its refusal if it is no script: the last of equal keys stands, and each value
/// that doesn't stand is JSON.
const KEYS_TWICE: [(&str, Option<Refusal>); 18] = [
    (
        "{\"cpus\":1,\"steps\":[[\"advance\",5],[\"advance\",4]],\"steps\":[[\"advance\",5]]}",
        None,
    ),
    (
        "{\"cpus\":1,\"steps\":[[\"advance\",5]],\"steps\":[[\"advance\",5],[\"advance\",4]]}",
        Some(TimeBack(2)),
    ),
    (
        "{\"cpus\":1,\"steps\":[[\"advance\",5]],\"steps\":[[\"advance\",4]]}",
        None,
    ),
    (
        "{\"cpus\":1,\"steps\":[[\"add\",\"a\",\"low\",1,1]],\"steps\":[[\"add\",\"a\",\"low\",1,1]]}",
        None,
    ),
    (
        "{\"cpus\":1,\"steps\":[[\"add\",\"a\",\"low\",1,1]],\"steps\":[[\"remove\",\"a\"]]}",
        Some(NoName(1)),
    ),
    (
        "{\"cpus\":1,\"steps\":[[\"add\",\"a\",\"low\",1,1]],\"ceiling\":3,\"steps\":[[\"remove\",\"a\"]]}",
        Some(NoName(1)),
    ),
    ("{\"cpus\":1,\"steps\":7,\"steps\":[]}", None),
    (
        "{\"cpus\":1,\"steps\":[],\"steps\":7}",
        Some(ScriptShape(0)),
    ),
    (
        "{\"cpus\":1,\"steps\":[[]],\"steps\":{\"steps\":[]}}",
        Some(ScriptShape(0)),
    ),
    (
        "{\"cpus\":1,\"steps\":[[1e999]],\"steps\":[]}",
        Some(ScriptSyntax),
    ),
    (
        "{\"cpus\":1,\"steps\":[[]],\"steps\":[[1e999]]}",
        Some(ScriptSyntax),
    ),
    ("{\"cpus\":1,\"\\u0073teps\":[[]],\"steps\":[]}", None),
    (
        "{\"cpus\":1,\"steps\":[],\"\\u0073teps\":[[]]}",
        Some(ScriptShape(1)),
    ),
    ("{\"cpus\":null,\"cpus\":2,\"steps\":[]}", None),
    (
        "{\"cpus\":2,\"cpus\":[2],\"steps\":[]}",
        Some(ScriptShape(0)),
    ),
    (
        "{\"cpus\":2,\"ceiling\":0,\"steps\":[[]],\"ceiling\":1}",
        Some(ScriptShape(1)),
    ),
    (
        "{\"cpus\":2,\"ceiling\":1,\"steps\":[[]],\"ceiling\":0}",
        Some(ScriptShape(0)),
    ),
    (
        "{\"more\":1,\"cpus\":2,\"steps\":[[]],\"cpus\":3}",
        Some(ScriptShape(0)),
    ),
];

#[test]
fn the_last_of_equal_keys_stands_and_the_others_are_json(rt: HostRuntime) {
    for (text, refusal) in &KEYS_TWICE {
        let refused = refusal_of(rt.alloc(), text.as_bytes());
        assert_eq!(rt; refused, *refusal, "at {text}");
    }
}

/// JSON that is no object, and what is none.
const NO_OBJECTS: [(&str, Refusal); 12] = [
    ("", ScriptSyntax),
    ("null", ScriptShape(0)),
    ("true", ScriptShape(0)),
    ("-0", ScriptShape(0)),
    ("1e999", ScriptSyntax),
    ("\"steps\"", ScriptShape(0)),
    ("[{\"cpus\":1,\"steps\":[]}]", ScriptShape(0)),
    ("[{\"cpus\":1,\"steps\":[]}", ScriptSyntax),
    ("[1e999]", ScriptSyntax),
    ("7 7", ScriptSyntax),
    ("}", ScriptSyntax),
    ("{]", ScriptSyntax),
];

#[test]
fn a_script_is_an_object(rt: HostRuntime) {
    for (text, refusal) in &NO_OBJECTS {
        let refused = refusal_of(rt.alloc(), text.as_bytes());
        assert_eq!(rt; refused, Some(*refusal), "at {text}");
    }
}
