//! The records that cross the border.

ghost use Rattle.std.specs.Prelude.{◌≡◌};
ghost use Rattle.cyclic_c.specs.Records.{IsFiredRecord, IsRefusedRecord, IsTotals, IsReceiptRecord, IsBookOut};

use cyc_border::numbers::Denied;
use cyc_cpu::Totals;
use cyc_ring::Book;
use cyc_timers::{FireRefused, Fired};
use cyc_types::Receipt;

/// What a fire did.
#[repr(C)]
#[derive(Clone, Copy)]
pub struct CyclicFired {
    /// The expirations that were made.
    pub expired: u64,
    /// Those of them that were lost at the ceiling.
    pub lost: u64,
    /// The least expiration from now on, where the fire is done; else 0.
    pub next: i64,
    /// The cyclic at which it stopped, 0 where it is done.
    pub id: u64,
}

/// The counts of a cyclic.
#[repr(C)]
#[derive(Clone, Copy)]
pub struct CyclicTotals {
    /// The expirations.
    pub expired: u64,
    /// Those of them that were lost at the ceiling.
    pub lost: u64,
    /// The calls that are outstanding.
    pub pending: u32,
}

/// What a removal answers. The calls that were made are `expired - lost`.
#[repr(C)]
#[derive(Clone, Copy)]
pub struct CyclicReceipt {
    /// The cyclic, 0 where no removal was answered.
    pub id: u64,
    /// The expirations.
    pub expired: u64,
    /// Those of them that were lost at the ceiling.
    pub lost: u64,
}

impl CyclicReceipt {
    /// The receipt of no cyclic.
    pub const NONE: CyclicReceipt = CyclicReceipt {
        id: 0,
        expired: 0,
        lost: 0,
    };
}

pub fn fired_of(fired: Fired) -> CyclicFired
    ensures { IsFiredRecord fired result }
{
    CyclicFired {
        expired: fired.expired,
        lost: fired.lost,
        next: fired.next.nanoseconds() as i64,
        id: 0,
    }
}

pub fn stopped_of(refused: FireRefused) -> CyclicFired
    ensures { IsRefusedRecord refused result }
{
    CyclicFired {
        expired: refused.expired,
        lost: refused.lost,
        next: 0,
        id: Denied::Refused(refused.why).id(),
    }
}

pub fn totals_of(totals: Totals) -> CyclicTotals
    ensures { IsTotals totals result }
{
    CyclicTotals {
        expired: totals.expired,
        lost: totals.lost,
        pending: totals.pending,
    }
}

pub fn receipt_of(receipt: Receipt) -> CyclicReceipt
    ensures { IsReceiptRecord receipt result }
{
    let most = u128::from(u64::MAX);
    CyclicReceipt {
        id: receipt.id.number(),
        expired: receipt.sent.min(most) as u64,
        lost: receipt.lost.min(most) as u64,
    }
}

/// What a closed CPU says of the cyclic at one index of a soft level.
#[repr(C)]
#[derive(Clone, Copy)]
pub struct CyclicBook {
    /// The cyclic, 0 where none is.
    pub id: u64,
    /// The expirations of its stay.
    pub expired: u64,
    /// The calls that are done.
    pub done: u64,
    /// Those of the expirations that were lost at the ceiling.
    pub lost: u64,
    /// The calls that are outstanding.
    pub pending: u32,
    /// Its removal is open.
    pub removed: bool,
}

impl CyclicBook {
    /// The book of no cyclic.
    pub const NONE: CyclicBook = CyclicBook {
        id: 0,
        expired: 0,
        done: 0,
        lost: 0,
        pending: 0,
        removed: false,
    };
}

pub fn book_of(book: Book) -> CyclicBook
    ensures { IsBookOut book result }
{
    CyclicBook {
        id: book.id.number(),
        expired: book.sent,
        done: book.done,
        lost: book.lost,
        pending: book.count,
        removed: book.marked,
    }
}
