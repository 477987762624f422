//! Worked rings: calls with their answers, and the books after them.
use crate::help::{Books, Counts, book, books, expect, open};
use crate::play::{Call, Differs, play};
use Call::{Admit, Expand, Finish, Followed, Load, Mark, PollClear, Raise, Take};
use cyc_types::{Finished, Raised, Sent};
use std::alloc::Global;
use std::test::Fail;

/// A ring of this ceiling and start: the first of these calls that differs, and the books where it is closed after them.
fn closed_after(
    alloc: Global,
    ceiling: u32,
    start: u32,
    calls: &[Call],
) -> Result<(Differs, Books), Fail> {
    let (ring, raise_seat, drain_seat) = open(alloc, ceiling, start)?;
    let (raise_seat, drain_seat, differs) = play(&ring, raise_seat, drain_seat, calls);
    let closed = ring.close(raise_seat.seat(), drain_seat);
    Ok((differs, books(&closed)))
}

// Ceiling 2, and the buffer index wraps: the third expiration is lost, and the two others are called. The removal of the same
// cyclic answers after its last call.
const AT_THE_CEILING: [Call; 20] = [
    Admit(1, 0),
    Raise(1, Raised::First),
    Raise(1, Raised::More),
    Raise(1, Raised::Lost),
    Call::Counts(1, Sent { sent: 3, lost: 1 }),
    Take(Some(1)),
    Finish(Finished::More),
    Finish(Finished::Last),
    Take(None),
    Call::Counts(1, Sent { sent: 3, lost: 1 }),
    Raise(1, Raised::First),
    Mark(1, 1),
    PollClear(1, None),
    Take(Some(1)),
    Finish(Finished::LastOfRemoval),
    Call::Counts(1, Sent { sent: 4, lost: 1 }),
    PollClear(1, Some(Sent { sent: 4, lost: 1 })),
    Admit(1, 0),
    Call::Counts(1, Sent { sent: 0, lost: 0 }),
    Raise(1, Raised::First),
];

#[test]
fn at_the_ceiling_an_expiration_is_lost(rt: HostRuntime) -> Result<(), Fail> {
    for (n, first) in [
        (9, Some(Counts::done(1, 3, 1))),
        (17, None),
        (20, Some(Counts::one_outstanding(1, 1))),
    ] {
        let (calls, _) = AT_THE_CEILING.split_at(n);
        let found = closed_after(rt.alloc(), 2, 4294967295, calls)?;
        expect(&rt, found, (None, [first, None]));
    }
    Ok(())
}

// A removal keeps a call that was pending. After it another cyclic has the index.
const MARKED: [Call; 9] = [
    Admit(1, 0),
    Raise(1, Raised::First),
    Mark(1, 1),
    Take(Some(1)),
    Finish(Finished::LastOfRemoval),
    PollClear(1, Some(Sent { sent: 1, lost: 0 })),
    Admit(2, 0),
    Raise(2, Raised::First),
    Take(Some(2)),
];

#[test]
fn a_call_is_kept_for_an_open_removal(rt: HostRuntime) -> Result<(), Fail> {
    for (n, first) in [(3, kept()), (9, Counts::one_outstanding(2, 1))] {
        let (calls, _) = MARKED.split_at(n);
        let found = closed_after(rt.alloc(), 2, 0, calls)?;
        expect(&rt, found, (None, [Some(first), None]));
    }
    Ok(())
}

// The soft side made calls that the firing side has not seen: it could know that at most one call is outstanding and finds
// none, or at most two and finds one, once by a load and once by a mark.
const FOUND: [Call; 22] = [
    Admit(1, 0),
    Raise(1, Raised::First),
    Take(Some(1)),
    Finish(Finished::Last),
    Load(1, 0),
    Raise(1, Raised::First),
    Take(Some(1)),
    Finish(Finished::Last),
    Mark(1, 0),
    PollClear(1, Some(Sent { sent: 2, lost: 0 })),
    Admit(2, 0),
    Raise(2, Raised::First),
    Raise(2, Raised::More),
    Take(Some(2)),
    Finish(Finished::More),
    Load(2, 1),
    Raise(2, Raised::More),
    Finish(Finished::More),
    Mark(2, 1),
    PollClear(2, None),
    Finish(Finished::LastOfRemoval),
    PollClear(2, Some(Sent { sent: 3, lost: 0 })),
];

#[test]
fn answers_are_what_is_found_now(rt: HostRuntime) -> Result<(), Fail> {
    let found = closed_after(rt.alloc(), 2, 0, &FOUND)?;
    expect(&rt, found, (None, [None, None]));
    Ok(())
}

// A switch of banks: the old bank is drained first.
const SWITCHED: [Call; 12] = [
    Admit(1, 0),
    Raise(1, Raised::First),
    Expand(1),
    Admit(2, 1),
    Raise(2, Raised::First),
    Raise(1, Raised::More),
    Followed(false),
    Take(Some(1)),
    Finish(Finished::More),
    Finish(Finished::Last),
    Take(Some(2)),
    Followed(true),
];

// Five banks are skipped, and the soft side follows in one step.
const SKIPPED: [Call; 14] = [
    Admit(1, 0),
    Raise(1, Raised::First),
    Expand(5),
    Admit(2, 31),
    Raise(2, Raised::First),
    Followed(false),
    Take(Some(1)),
    Finish(Finished::Last),
    Followed(false),
    Take(Some(2)),
    Followed(true),
    Finish(Finished::Last),
    Take(None),
    Expand(8),
];

/// A worked ring: its ceiling and start, the calls with their answers, and the books after them.
#[derive(Clone, Copy)]
pub(crate) struct Worked {
    pub(crate) ceiling: u32,
    pub(crate) start: u32,
    pub(crate) calls: &'static [Call],
    pub(crate) books: Books,
}

/// A worked ring, whole.
fn worked_ring(ceiling: u32, start: u32, calls: &'static [Call], books: Books) -> Worked {
    Worked {
        ceiling,
        start,
        calls,
        books,
    }
}

/// All worked rings, whole.
pub(crate) fn worked_rings() -> [Worked; 5] {
    [
        worked_ring(
            2,
            4294967295,
            &AT_THE_CEILING,
            [Some(Counts::one_outstanding(1, 1)), None],
        ),
        worked_ring(2, 0, &MARKED, [Some(Counts::one_outstanding(2, 1)), None]),
        worked_ring(2, 0, &FOUND, [None, None]),
        worked_ring(5, 0, &SWITCHED, switched()),
        worked_ring(5, 4294967295, &SKIPPED, [Some(Counts::done(1, 1, 0)), None]),
    ]
}

/// The first so many calls of a worked ring of ceiling 2, and the book after them.
fn early(start: u32, calls: &'static [Call], count: usize, first: Option<Counts>) -> Worked {
    let (calls, _) = calls.split_at(count.min(calls.len()));
    worked_ring(2, start, calls, [first, None])
}

/// Worked rings that are closed before all their calls are made: after the first calls at the ceiling, after the removal there,
/// and while a removal is open.
pub(crate) fn closed_early() -> [Worked; 3] {
    [
        early(4294967295, &AT_THE_CEILING, 9, Some(Counts::done(1, 3, 1))),
        early(4294967295, &AT_THE_CEILING, 17, None),
        early(0, &MARKED, 3, Some(kept())),
    ]
}

/// The book of a cyclic of which a call is kept for its removal.
fn kept() -> Counts {
    Counts {
        marked: true,
        ..Counts::one_outstanding(1, 1)
    }
}

/// The books after a switch of banks.
fn switched() -> Books {
    [
        Some(Counts::done(1, 2, 0)),
        Some(Counts::one_outstanding(2, 1)),
    ]
}

#[test]
fn the_old_bank_is_drained_first(rt: HostRuntime) -> Result<(), Fail> {
    let found = closed_after(rt.alloc(), 5, 0, &SWITCHED)?;
    expect(&rt, found, (None, switched()));
    let found = closed_after(rt.alloc(), 5, 4294967295, &SKIPPED)?;
    expect(&rt, found, (None, [Some(Counts::done(1, 1, 0)), None]));
    Ok(())
}

/// The last id.
const LAST: u64 = 4503599627370495;

// The last id at the last index of the greatest bank: its entry is the greatest number that a word holds.
const AT_THE_END: [Call; 7] = [
    Expand(12),
    Admit(LAST, 4095),
    Raise(LAST, Raised::First),
    Raise(LAST, Raised::Lost),
    Take(Some(LAST)),
    Finish(Finished::Last),
    Followed(true),
];

#[test]
fn the_last_id_has_an_entry_at_the_last_index(rt: HostRuntime) -> Result<(), Fail> {
    let (ring, raise_seat, drain_seat) = open(rt.alloc(), 1, 0)?;
    let (raise_seat, drain_seat, differs) = play(&ring, raise_seat, drain_seat, &AT_THE_END);
    let closed = ring.close(raise_seat.seat(), drain_seat);
    let found = (differs, book(&closed, 4095));
    expect(&rt, found, (None, Some(Counts::done(LAST, 2, 1))));
    Ok(())
}
