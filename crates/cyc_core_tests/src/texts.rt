//! The texts of refusals.

use cyc_types::{CyclicId, JuggleReport, Refusal};
use std::alloc::{AllocError, AllocFailed};
use std::process::Abort;

/// What the refusal shows.
fn shown<R: AllocGlobal + Abort>(rt: &R, refusal: Refusal) -> String {
    refusal.to_string(rt.alloc()).expect(rt, "a text")
}

#[test]
fn a_refusal_has_its_number_and_shows_its_name(rt: HostRuntime) {
    let id = CyclicId::new(3).expect(&rt, "an id");
    let report = JuggleReport {
        moved: 1,
        bound: 2,
        pending: 3,
        refused: 4,
    };
    let cases = [
        (Refusal::Memory, 1, "Memory"),
        (Refusal::BadWhen, 2, "BadWhen"),
        (Refusal::BadInterval, 3, "BadInterval"),
        (Refusal::BadNow, 4, "BadNow"),
        (Refusal::Full, 5, "Full"),
        (Refusal::Expanding, 6, "Expanding"),
        (Refusal::Busy(id), 7, "Busy"),
        (Refusal::NoCyclic, 8, "NoCyclic"),
        (Refusal::Pending, 9, "Pending"),
        (Refusal::IdsSpent, 10, "IdsSpent"),
        (Refusal::CountSpent(id), 11, "CountSpent"),
        (Refusal::HandlerRefused(id), 12, "HandlerRefused"),
        (Refusal::NoCpu, 13, "NoCpu"),
        (Refusal::Offline, 14, "Offline"),
        (Refusal::LastCpu, 15, "LastCpu"),
        (Refusal::Omnipresent, 16, "Omnipresent"),
        (Refusal::Left(report), 17, "Left"),
        (Refusal::ScriptSyntax, 19, "ScriptSyntax"),
        (Refusal::ScriptShape(5), 20, "ScriptShape"),
        (Refusal::TimeBack(5), 21, "TimeBack"),
        (Refusal::NameTwice(5), 22, "NameTwice"),
        (Refusal::NoName(5), 23, "NoName"),
        (Refusal::Online, 24, "Online"),
        (Refusal::Suspended, 25, "Suspended"),
        (Refusal::NotSuspended, 26, "NotSuspended"),
    ];
    for (refusal, number, name) in cases {
        assert_eq!(rt; refusal.number(), number);
        assert_eq!(rt; shown(&rt, refusal).as_str(), name);
    }
}

#[test]
fn want_of_memory_is_the_refusal_memory(rt: HostRuntime) {
    assert_eq!(rt; Refusal::from(AllocError), Refusal::Memory);
    assert_eq!(rt; Refusal::from(AllocFailed { value: 5_u8 }), Refusal::Memory);
}
