//! Scripts that are read.

use cyc_script::{Script, Step, read_script};
use cyc_types::{Level, Soft};
use std::process::Abort;

/// One low-level cyclic that is added, fired and served.
const FIRST: &str =
    "{\"cpus\":1,\"steps\":[[\"add\",\"a\",\"low\",5,10],[\"advance\",5],[\"softint\",0,\"low\",8]]}";

fn read<R: AllocGlobal + Abort>(rt: &R, text: &str) -> Script {
    let script = read_script(rt.alloc(), text.as_bytes()).ok();
    script.expect(rt, "a script")
}

/// The CPUs, the ceiling, and how many names and steps there are.
fn sizes(script: &Script) -> (u32, u32, usize, usize) {
    (
        script.cpus,
        script.ceiling.calls(),
        script.names.len(),
        script.steps.len(),
    )
}

fn has_name(script: &Script, number: usize, name: &str) -> bool {
    match script.names.get(number) {
        Some(found) => found.as_str() == name,
        None => false,
    }
}

/// The number of the name, the level, the start and the interval of the step at this position, where it adds a cyclic.
fn added(script: &Script, position: usize) -> Option<(usize, Level, i64, i64)> {
    match script.steps.get(position) {
        Some(Step::Add(add)) => Some((add.name.number(), add.level, add.start, add.interval)),
        _ => None,
    }
}

/// The moment of the step at this position, where it advances the clock.
fn advanced(script: &Script, position: usize) -> Option<u64> {
    match script.steps.get(position) {
        Some(Step::Advance(moment)) => Some(*moment),
        _ => None,
    }
}

/// The CPU, the level and the budget of the step at this position, where it runs a soft interrupt.
fn served(script: &Script, position: usize) -> Option<(u32, Soft, u32)> {
    match script.steps.get(position) {
        Some(Step::Softint(softint)) => Some((softint.cpu, softint.level, softint.budget)),
        _ => None,
    }
}

#[test]
fn words_without_parameters_are_read(rt: HostRuntime) {
    let text =
        "{\"cpus\":1,\"steps\":[[\"resume\"],[\"suspend\"],[\"advance\",5],[\"suspend\"],[\"resume\"]]}";
    let script = read(&rt, text);
    assert_eq!(rt; sizes(&script), (1, u32::MAX, 0, 5));
    for (position, step) in [
        (0, Step::Resume),
        (1, Step::Suspend),
        (2, Step::Advance(5)),
        (3, Step::Suspend),
        (4, Step::Resume),
    ] {
        assert_eq!(rt; script.steps.get(position), Some(&step), "at {position}");
    }
}

#[test]
fn the_first_script_is_read(rt: HostRuntime) {
    let script = read(&rt, FIRST);
    assert_eq!(rt; sizes(&script), (1, u32::MAX, 1, 3));
    assert!(rt; has_name(&script, 0, "a"));
    assert_eq!(rt; added(&script, 0), Some((0, Level::Low, 5, 10)));
    assert_eq!(rt; advanced(&script, 1), Some(5));
    assert_eq!(rt; served(&script, 2), Some((0, Soft::Low, 8)));
}

static ADDS: [(i64, i64, &str); 3] = [
    (0, 0, "{\"cpus\":1,\"steps\":[[\"add\",\"a\",\"low\",0,0]]}"),
    (
        -1,
        0,
        "{\"cpus\":1,\"steps\":[[\"add\",\"a\",\"low\",-1,0]]}",
    ),
    (
        i64::MIN,
        i64::MAX,
        "{\"cpus\":1,\"steps\":[[\"add\",\"a\",\"low\",-9223372036854775808,9223372036854775807]]}",
    ),
];

// A start or an interval that no cyclic can have is refused when the step runs, and a refused `add` introduces its name.
#[test]
fn a_start_and_an_interval_are_any_whole_numbers(rt: HostRuntime) {
    for &(start, interval, text) in &ADDS {
        let script = read(&rt, text);
        assert_eq!(rt; sizes(&script), (1, u32::MAX, 1, 1), "in {text}");
        let wanted = Some((0, Level::Low, start, interval));
        assert_eq!(rt; added(&script, 0), wanted, "in {text}");
    }
}

#[test]
fn names_have_the_numbers_of_their_introduction(rt: HostRuntime) {
    let text =
        "{\"cpus\":1,\"steps\":[[\"add\",\"b\",\"low\",1,1],[\"advance\",0],[\"add\",\"a\",\"low\",1,1],\
         [\"add\",\"\\u0063\",\"low\",1,1]]}";
    let script = read(&rt, text);
    assert_eq!(rt; sizes(&script), (1, u32::MAX, 3, 4));
    assert_eq!(rt; advanced(&script, 1), Some(0));
    for (position, number, name) in [(0, 0, "b"), (2, 1, "a"), (3, 2, "c")] {
        assert_eq!(rt;
            added(&script, position),
            Some((number, Level::Low, 1, 1)),
            "{name}"
        );
        assert!(rt; has_name(&script, number, name), "{name}");
    }
}

static CEILINGS: [(&str, u32); 4] = [
    ("{\"cpus\":1,\"steps\":[]}", u32::MAX),
    ("{\"cpus\":1,\"ceiling\":2,\"steps\":[]}", 2),
    ("{\"cpus\":1,\"ceiling\":4294967295,\"steps\":[]}", u32::MAX),
    (
        "{\"ceiling\":0,\"cpus\":17,\"steps\":[],\"cpus\":1,\"ceiling\":1}",
        1,
    ),
];

#[test]
fn the_ceiling_is_read_and_the_last_of_equal_keys_stands(rt: HostRuntime) {
    for &(text, ceiling) in &CEILINGS {
        let script = read(&rt, text);
        assert_eq!(rt; sizes(&script), (1, ceiling, 0, 0), "in {text}");
    }
}

static ORDERS: [&str; 4] = [
    "{\"cpus\":2,\"ceiling\":3,\"steps\":[[\"omni\",\"a\",\"low\",1,1,0],[\"advance\",5],[\"softint\",0,\"low\",8]]}",
    "{\"ceiling\":3,\"cpus\":2,\"steps\":[[\"omni\",\"a\",\"low\",1,1,0],[\"advance\",5],[\"softint\",0,\"low\",8]]}",
    "{\"steps\":[[\"omni\",\"a\",\"low\",1,1,0],[\"advance\",5],[\"softint\",0,\"low\",8]],\"ceiling\":3,\"cpus\":2}",
    "{\"steps\":[[\"omni\",\"a\",\"low\",1,1,0],[\"advance\",5],[\"softint\",0,\"low\",8]],\"cpus\":2,\"ceiling\":3}",
];

#[test]
fn the_keys_stand_in_any_order(rt: HostRuntime) {
    for text in &ORDERS {
        let script = read(&rt, text);
        assert_eq!(rt; sizes(&script), (2, 3, 1, 3), "in {text}");
        assert_eq!(rt; advanced(&script, 1), Some(5), "in {text}");
        assert_eq!(rt; served(&script, 2), Some((0, Soft::Low, 8)), "in {text}");
    }
}
