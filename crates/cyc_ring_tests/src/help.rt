//! Rings, ids and books for the tests.

ghost use Rattle.std.specs.Prelude.{IfOk};
ghost use Rattle.cyc_ring.specs.Ends.{IsRaiseSeatOf, IsDrainSeatOf};

use cyc_ring::{Closed, DrainSeat, Ring};
use cyc_ring_sides::firing_side::KnownSeat;
use cyc_types::{Ceiling, CyclicId, Index};
use std::alloc::Global;
use std::fmt::Debug;
use std::process::Abort;
use std::test::Fail;

/// A ring with this ceiling, whose indexes begin at `start`.
pub(crate) fn open(
    alloc: Global,
    ceiling: u32,
    start: u32,
) -> Result<(Ring, KnownSeat, DrainSeat), Fail>
    ensures { IfOk result (λ r. IsRaiseSeatOf r.0 r.1.seat × IsDrainSeatOf r.0 r.2) }
{
    let Some(ceiling) = Ceiling::new(ceiling) else {
        return Err(Fail::from("a ceiling"));
    };
    match cyc_ring_sides::open(alloc, ceiling, start) {
        Ok(opened) => Ok(opened),
        Err(_) => Err(Fail::from("memory")),
    }
}

/// An id.
pub(crate) fn id(number: u64) -> Result<CyclicId, Fail> {
    match CyclicId::new(number) {
        Some(id) => Ok(id),
        None => Err(Fail::from("an id")),
    }
}

/// What a book says, by numbers.
#[derive(Clone, Copy, Debug, PartialEq, Eq)]
pub(crate) struct Counts {
    pub(crate) id: u64,
    pub(crate) sent: u64,
    pub(crate) done: u64,
    pub(crate) count: u32,
    pub(crate) lost: u64,
    pub(crate) marked: bool,
}

impl Counts {
    /// A cyclic whose removal is not open, and of which no call is outstanding.
    pub(crate) fn done(id: u64, sent: u64, lost: u64) -> Counts {
        Counts {
            id,
            sent,
            done: sent.wrapping_sub(lost),
            count: 0,
            lost,
            marked: false,
        }
    }

    /// A cyclic whose removal is not open, with one call outstanding and none lost.
    pub(crate) fn one_outstanding(id: u64, sent: u64) -> Counts {
        Counts {
            id,
            sent,
            done: sent.wrapping_sub(1),
            count: 1,
            lost: 0,
            marked: false,
        }
    }
}

/// The book at this index.
pub(crate) fn book(closed: &Closed, number: u16) -> Option<Counts> {
    let book = closed.book(Index::new(number)?)?;
    Some(Counts {
        id: book.id.number(),
        sent: book.sent,
        done: book.done,
        count: book.count,
        lost: book.lost,
        marked: book.marked,
    })
}

/// The books at the first two indexes.
pub(crate) type Books = [Option<Counts>; 2];

pub(crate) fn books(closed: &Closed) -> Books {
    [book(closed, 0), book(closed, 1)]
}

/// Ends the test where what was found is not what was wanted.
// As a call of its own it keeps the proofs of the tests short.
pub(crate) fn expect<T: PartialEq + Debug + Copy>(rt: &impl Abort, found: T, wanted: T) {
    assert_eq!(rt; found, wanted);
}
