//! What rounds add up to, for each id.
ghost use Rattle.std.specs.Prelude.{◌<◌};

use crate::ledger::{IDS, Ledger};
use cyc_ring::Closed;
use cyc_types::{CyclicId, Index, Tally};

/// The counts of one id, or of all.
#[derive(Clone, Copy, PartialEq, Eq)]
pub(crate) struct Counts {
    /// The expirations: the raises that were made.
    pub(crate) sent: u64,
    /// The calls that the handler had.
    pub(crate) done: u64,
    /// The calls outstanding: pending, in hand or kept for a removal.
    pub(crate) pending: u64,
    /// The raises that answered that they were lost.
    pub(crate) lost: u64,
}

impl Counts {
    pub(crate) const NONE: Counts = Counts {
        sent: 0,
        done: 0,
        pending: 0,
        lost: 0,
    };

    /// Both together.
    pub(crate) fn and(self, other: Counts) -> Counts {
        Counts {
            sent: self.sent.wrapping_add(other.sent),
            done: self.done.wrapping_add(other.done),
            pending: self.pending.wrapping_add(other.pending),
            lost: self.lost.wrapping_add(other.lost),
        }
    }

    /// Expirations = done + pending + lost.
    pub(crate) fn add_up(self) -> bool {
        let owed = self.done.wrapping_add(self.pending);
        self.sent == owed.wrapping_add(self.lost)
    }
}

/// The counts of an id that no call admitted.
fn never_admitted(ledger: &Ledger, done: u64, at: usize) -> Option<Counts>
    requires { at < IDS }
{
    if done == 0 && ledger.sent[at] == 0 {
        Some(Counts::NONE)
    } else {
        None
    }
}

/// The counts of an id in a round, from the raises, the handler's calls and the closed ring's words. None where the book of the
/// closed ring, with the answers of the removals before it, says otherwise.
fn counts_at(closed: &Closed, ledger: &Ledger, tally: &Tally, at: usize) -> Option<Counts>
    requires { at < IDS }
{
    let id = CyclicId::new(at as u64 + 1)?;
    let done = tally.count(id)?;
    if at >= ledger.admitted {
        return never_admitted(ledger, done, at);
    }
    let book = closed.book(Index::new(ledger.index[at])?)?;
    let ended_done = ledger.ended_sent[at].wrapping_sub(ledger.ended_lost[at]);
    let counts = Counts {
        sent: ledger.sent[at],
        done,
        pending: book.count as u64,
        lost: ledger.lost[at],
    };
    let booked = Counts {
        sent: ledger.ended_sent[at].wrapping_add(book.sent),
        done: ended_done.wrapping_add(book.done),
        pending: book.count as u64,
        lost: ledger.ended_lost[at].wrapping_add(book.lost),
    };
    let marked = ledger.marked == Some(at);
    if book.id.number() == id.number() && book.marked == marked && counts == booked {
        Some(counts)
    } else {
        None
    }
}

/// The sums of each id.
#[derive(Drop)]
pub(crate) struct Sums {
    pub(crate) of: [Counts; IDS],
    pub(crate) removals: u64,
    pub(crate) switches: u64,
}

impl Sums {
    pub(crate) fn new() -> Sums {
        Sums {
            of: [Counts::NONE; IDS],
            removals: 0,
            switches: 0,
        }
    }

    /// Adds a round. False where it does not add up, for an id or at all.
    pub(crate) fn add(&mut self, closed: &Closed, ledger: &Ledger, tally: &Tally) -> bool {
        for at in 0..IDS {
            let Some(counts) = counts_at(closed, ledger, tally, at) else {
                return false;
            };
            if !counts.add_up() {
                return false;
            }
            self.of[at] = self.of[at].and(counts);
        }
        self.removals = self.removals.wrapping_add(ledger.removals);
        self.switches = self.switches.wrapping_add(ledger.bank as u64);
        !ledger.refused
    }

    /// The sums of all ids.
    pub(crate) fn in_all(&self) -> Counts {
        let mut all = Counts::NONE;
        for at in 0..IDS {
            all = all.and(self.of[at]);
        }
        all
    }
}
