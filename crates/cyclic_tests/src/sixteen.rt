//! Sixteen CPUs with as many cyclics together as one can hold.

use crate::tests::{MOST, push_report, written};
use std::alloc::{AllocError, Global};
use std::fmt::Write;

/// Its CPUs.
const CPUS: u32 = 16;

/// Whether all levels of all CPUs follow after the add of this number, counted from 1: then each CPU has filled a bank, the last
/// of them that of 128.
fn all_follow(number: u32) -> bool {
    CPUS < number && number < MOST && number & (number - 1) == 0
}

/// Adds the cyclics, and one more; then all are due.
fn script_of_all(alloc: Global) -> Result<String, AllocError> {
    let mut script = String::new(alloc);
    script.push_str("{\"cpus\":16,\"steps\":[")?;
    for k in 0..MOST {
        write!(script, "[\"add\",\"c{k}\",\"high\",10,10],")?;
        if all_follow(k.wrapping_add(1)) {
            for cpu in 0..CPUS {
                write!(
                    script,
                    "[\"softint\",{cpu},\"low\",1],[\"softint\",{cpu},\"lock\",1],"
                )?;
            }
        }
    }
    script.push_str("[\"add\",\"c4096\",\"high\",10,10],[\"advance\",10]]}")?;
    Ok(script)
}

/// Its text: each CPU has 256, and its levels have not followed to the bank that holds them.
fn text_of_all(alloc: Global) -> Result<String, AllocError> {
    let mut text = String::new(alloc);
    let mut step: u32 = 0;
    for k in 0..MOST {
        step = step.wrapping_add(1);
        write!(text, "{step} ok\n")?;
        if all_follow(k.wrapping_add(1)) {
            for _ in 0..2 * CPUS {
                step = step.wrapping_add(1);
                write!(text, "{step} ran 0 idle\n")?;
            }
        }
    }
    text.push_str("4321 refused 6\n4322 fired 4096 lost 0\n")?;
    for k in 0..MOST {
        push_report(&mut text, k, 1)?;
    }
    push_report(&mut text, MOST, 0)?;
    Ok(text)
}

#[test]
fn sixteen_cpus_hold_256_cyclics_each(rt: HostRuntime) {
    let script = script_of_all(rt.alloc()).expect(&rt, "a script");
    let text = text_of_all(rt.alloc()).expect(&rt, "a text");
    let written = written(&rt, script.as_str());
    assert_eq!(rt; written.as_slice(), text.as_bytes());
}
