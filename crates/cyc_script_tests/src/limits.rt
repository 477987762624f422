//! Scripts as great as they may be, and greater ones.

use cyc_script::read_script;
use cyc_types::Refusal;
use std::alloc::{AllocError, Global};
use std::process::Abort;

// What reading these bytes refuses, or how many steps the script has.
fn read(alloc: Global, bytes: &[u8]) -> Result<usize, Refusal> {
    match read_script(alloc, bytes) {
        Ok(script) => Ok(script.steps.len()),
        Err(refusal) => Err(refusal),
    }
}

// The text of a script of a first step and so many equal ones in all, up to the bracket that closes them.
fn begun_with_steps(
    alloc: Global,
    first: &str,
    count: u32,
    step: &str,
) -> Result<String, AllocError> {
    let mut text = String::from_str(alloc, "{\"cpus\":1,\"steps\":[")?;
    for n in 0..count {
        if n > 0 {
            text.push_str(",")?;
        }
        text.push_str(if n == 0 { first } else { step })?;
    }
    Ok(text)
}

// The text of a script of a first step and so many equal ones in all.
fn text_of_steps(alloc: Global, first: &str, count: u32, step: &str) -> Result<String, AllocError> {
    let mut text = begun_with_steps(alloc, first, count, step)?;
    text.push_str("]}")?;
    Ok(text)
}

// Reads a script of so many steps, the first of which is given.
fn read_steps<R: AllocGlobal + Abort>(rt: &R, first: &str, count: u32) -> Result<usize, Refusal> {
    let text = text_of_steps(rt.alloc(), first, count, "[\"advance\",0]").expect(rt, "a text");
    read(rt.alloc(), text.as_bytes())
}

#[test]
fn a_script_has_at_most_65536_steps(rt: HostRuntime) {
    const ADVANCE: &str = "[\"advance\",0]";
    assert_eq!(rt; read_steps(&rt, ADVANCE, 65_536), Ok(65_536));
    assert_eq!(rt;
        read_steps(&rt, ADVANCE, 65_537),
        Err(Refusal::ScriptShape(0))
    );
}

#[test]
fn too_many_steps_decide_before_a_faulty_one(rt: HostRuntime) {
    const FAULTY: &str = "[\"remove\",\"a\"]";
    assert_eq!(rt; read_steps(&rt, FAULTY, 65_536), Err(Refusal::NoName(1)));
    assert_eq!(rt;
        read_steps(&rt, FAULTY, 65_537),
        Err(Refusal::ScriptShape(0))
    );
}

// Reads 65,536 steps, and then these and this end.
fn read_too_many<R: AllocGlobal + Abort>(rt: &R, last: &str, end: &str) -> Result<usize, Refusal> {
    const ADVANCE: &str = "[\"advance\",0]";
    let steps = begun_with_steps(rt.alloc(), ADVANCE, 65_536, ADVANCE).expect(rt, "a text");
    let text = format!(in rt.alloc(); "{steps},{last}{end}").expect(rt, "a text");
    read(rt.alloc(), text.as_bytes())
}

/// The last of too many steps and the end of the text, each with what reading them gives.
const TOO_MANY: [(&str, &str, Result<usize, Refusal>); 9] = [
    ("[\"advance\",0]", "]}", Err(Refusal::ScriptShape(0))),
    ("[\"remove\",\"a\"]", "]}", Err(Refusal::ScriptShape(0))),
    ("[\"advance\",null]", "]}", Err(Refusal::ScriptShape(0))),
    (
        "[\"advance\",0],[\"advance\",0]",
        "]}",
        Err(Refusal::ScriptShape(0)),
    ),
    (
        "[\"advance\",0]",
        "],\"more\":1}",
        Err(Refusal::ScriptShape(0)),
    ),
    ("[\"advance\",0]", "],\"steps\":[]}", Ok(0)),
    ("[\"advance\",0]", "]", Err(Refusal::ScriptSyntax)),
    ("[\"advance\",0", "", Err(Refusal::ScriptSyntax)),
    (
        "[\"advance\",0],[\"advance\" 0]",
        "]}",
        Err(Refusal::ScriptSyntax),
    ),
];

#[test]
fn the_end_of_the_text_decides_before_too_many_steps(rt: HostRuntime) {
    for (last, end, given) in &TOO_MANY {
        assert_eq!(rt; read_too_many(&rt, last, end), *given, "at {last}{end}");
    }
}

// Reads so many spaces.
fn read_spaces<R: AllocGlobal + Abort>(rt: &R, count: usize) -> Result<usize, Refusal> {
    let spaces = vec![in rt.alloc(); b' '; count].expect(rt, "spaces");
    read(rt.alloc(), spaces.as_slice())
}

#[test]
fn a_script_has_at_most_16777216_bytes(rt: HostRuntime) {
    assert_eq!(rt; read_spaces(&rt, 16_777_216), Err(Refusal::ScriptSyntax));
    assert_eq!(rt; read_spaces(&rt, 16_777_217), Err(Refusal::ScriptShape(0)));
}

// The text of a script whose only step is so many arrays inside one another.
fn text_of_arrays(alloc: Global, depth: u32) -> Result<String, AllocError> {
    let mut text = String::from_str(alloc, "{\"cpus\":1,\"steps\":[")?;
    for _ in 0..depth {
        text.push_str("[")?;
    }
    for _ in 0..depth {
        text.push_str("]")?;
    }
    text.push_str("]}")?;
    Ok(text)
}

/// So many arrays inside one another, each with its refusal.
const DEPTHS: [(u32, Refusal); 3] = [
    (125, Refusal::ScriptShape(1)),
    (126, Refusal::ScriptSyntax),
    (200, Refusal::ScriptSyntax),
];

// The JSON reader reads 127 arrays and objects inside one another.
#[test]
fn deep_values_are_no_json(rt: HostRuntime) {
    for &(depth, refusal) in &DEPTHS {
        let text = text_of_arrays(rt.alloc(), depth).expect(&rt, "a text");
        let refused = read(rt.alloc(), text.as_bytes());
        assert_eq!(rt; refused, Err(refusal), "{depth} arrays");
    }
}

// The text of so many objects inside one another, and a number in the innermost.
fn nested(alloc: Global, depth: u32) -> Result<String, AllocError> {
    let mut text = String::new(alloc);
    for _ in 0..depth {
        text.push_str("{\"a\":")?;
    }
    text.push_str("1")?;
    for _ in 0..depth {
        text.push_str("}")?;
    }
    Ok(text)
}

/// Texts with room for nested values, how many fit there, and the refusal then.
const NESTED: [(&str, &str, u32, Refusal); 6] = [
    ("", "", 127, Refusal::ScriptShape(0)),
    (
        "{\"cpus\":1,\"steps\":[],\"more\":",
        "}",
        126,
        Refusal::ScriptShape(0),
    ),
    ("{\"cpus\":1,\"steps\":", "}", 126, Refusal::ScriptShape(0)),
    ("{\"steps\":[],\"cpus\":", "}", 126, Refusal::ScriptShape(0)),
    (
        "{\"cpus\":1,\"steps\":[[],",
        "]}",
        125,
        Refusal::ScriptShape(1),
    ),
    (
        "{\"cpus\":1,\"steps\":[[\"advance\",",
        "]]}",
        124,
        Refusal::ScriptShape(1),
    ),
];

// What a text with so many nested objects refuses.
fn refusal_of_nested<R: AllocGlobal + Abort>(
    rt: &R,
    start: &str,
    end: &str,
    depth: u32,
) -> Option<Refusal> {
    let value = nested(rt.alloc(), depth).expect(rt, "a value");
    let text = format!(in rt.alloc(); "{start}{value}{end}").expect(rt, "a text");
    read(rt.alloc(), text.as_bytes()).err()
}

#[test]
fn values_nest_127_deep_wherever_they_stand(rt: HostRuntime) {
    for &(start, end, depth, refusal) in &NESTED {
        let fits = refusal_of_nested(&rt, start, end, depth);
        assert_eq!(rt; fits, Some(refusal), "{depth} at {start}");
        let deeper = refusal_of_nested(&rt, start, end, depth + 1);
        assert_eq!(rt;
            deeper,
            Some(Refusal::ScriptSyntax),
            "one more than {depth} at {start}"
        );
    }
}
