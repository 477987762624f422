//! What the firing thread notes of its ids.
ghost use Rattle.std.specs.Prelude.{◌<◌};

use cyc_types::{Raised, Sent};

/// The ids are 1 to `IDS`; the id `at + 1` has the two indexes `at` and `at + IDS` in turn.
pub(crate) const IDS: usize = 64;

/// The counts of each id, and how far the ring has grown.
#[derive(Drop)]
pub(crate) struct Ledger {
    /// The present index of each id.
    pub(crate) index: [u16; IDS],
    /// The raises of each id in all its stays, and those that were lost.
    pub(crate) sent: [u64; IDS],
    pub(crate) lost: [u64; IDS],
    /// The same of its ended stays, as each removal answered.
    pub(crate) ended_sent: [u64; IDS],
    pub(crate) ended_lost: [u64; IDS],
    /// The ids that are admitted are the first of all.
    pub(crate) admitted: usize,
    /// The id whose removal is open.
    pub(crate) marked: Option<usize>,
    /// The removals that answered.
    pub(crate) removals: u64,
    /// The bank, and its size.
    pub(crate) bank: u8,
    pub(crate) size: u16,
    /// A call was refused as one that is not allowed.
    pub(crate) refused: bool,
}

impl Ledger {
    /// No id is admitted.
    pub(crate) fn new() -> Ledger {
        Ledger {
            index: [0; IDS],
            sent: [0; IDS],
            lost: [0; IDS],
            ended_sent: [0; IDS],
            ended_lost: [0; IDS],
            admitted: 0,
            marked: None,
            removals: 0,
            bank: 0,
            size: 1,
            refused: false,
        }
    }

    /// The id has no open removal, and is admitted.
    pub(crate) fn may_raise(&self, at: usize) -> bool {
        match self.marked {
            Some(marked) => at < self.admitted && at != marked,
            None => at < self.admitted,
        }
    }

    /// The id was raised.
    pub(crate) fn note(&mut self, at: usize, answer: Raised)
        requires { at < IDS }
    {
        self.sent[at] = self.sent[at].wrapping_add(1);
        if answer == Raised::Lost {
            self.lost[at] = self.lost[at].wrapping_add(1);
        }
    }

    /// The removal of the id answered. The answer is the index at which it is admitted anew.
    pub(crate) fn ended(&mut self, at: usize, counts: Sent) -> u16
        requires { at < IDS }
    {
        self.ended_sent[at] = self.ended_sent[at].wrapping_add(counts.sent);
        self.ended_lost[at] = self.ended_lost[at].wrapping_add(counts.lost);
        self.removals = self.removals.wrapping_add(1);
        let other = self.index[at] ^ IDS as u16;
        if other < self.size {
            self.index[at] = other;
        }
        self.index[at]
    }
}
