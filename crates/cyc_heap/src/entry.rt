//! An expiration with the index of its cyclic, among few and among many, and which of two expires first.

ghost use Rattle.std.specs.Prelude.{◌≡◌, ◌≢◌, ◌+◌, ◌*◌, ◌/◌, ◌%◌, ◌<◌, ◌≤◌, ◌^◌, ◌↔◌, true, IfSome, IfNone};
ghost use Rattle.std.specs.Bool.{OnTrue, OnFalse};
ghost use Rattle.cyc_types.specs.Limits.{cyclics, last_id};
ghost use Rattle.cyc_types.specs.Series.{never};
ghost use Rattle.cyc_heap.specs.Tournament.{id_in_word, cyclic_index, comes, free_entry};

use cyc_types::{CYCLICS, CyclicId, Index, Moment};
use std::marker::Model;

/// The base of a word: an id times this, and an index.
const BASE: u64 = CYCLICS as u64;

/// A cyclic's id and its index in one number, the id in the high bits, so that the greater id has the greater word.
#[derive(Clone, Copy)]
pub(crate) struct Word {
    bits: u64,
}

impl Model for Word {
    ghost use Rattle.std.specs.Prelude.{ℕ, ◌≤◌};
    ghost use Rattle.cyc_types.specs.Limits.{cyclics};

    ghost Value = { ℕ };

    ghost view = { λ a. a.bits };

    ghost invariant = { λ a. cyclics ≤ a.bits };

    ghost inverse = { λ n. record { bits = n } };
}

impl Word {
    fn new(id: CyclicId, index: Index) -> Word
        ensures { result ≡ id * cyclics + index }
    {
        Word {
            bits: id.number() * BASE + u64::from(index.number()),
        }
    }

    /// The word of a free index: the last id and index 0, which mean nothing there.
    fn free() -> Word
        ensures { result ≡ last_id * cyclics }
    {
        Word {
            bits: CyclicId::last().number() * BASE,
        }
    }

    pub(crate) fn bits(self) -> u64
        ensures value { result ≡ self }
    {
        self.bits
    }

    fn id(self) -> CyclicId
        ensures { result ≡ self / cyclics }
    {
        CyclicId::from_valid(self.bits / BASE)
    }

    fn index(self) -> Index
        ensures { result ≡ self % cyclics }
    {
        Index::new((self.bits % BASE) as u16).unwrap()
    }

    /// Whether it has this index.
    fn is_of(self, index: Index) -> bool
        ensures there { OnTrue result (self % cyclics ≡ index) }
        ensures elsewhere { OnFalse result (self % cyclics ≢ index) }
    {
        self.bits % BASE == u64::from(index.number())
    }
}

/// The moment at which a free index has its turn: it comes after every moment.
const FREE: u64 = u64::MAX;

/// An expiration and the index of its cyclic. Where the index is free, its moment is after every other, and the word means
/// nothing.
#[derive(Clone, Copy)]
pub(crate) struct Entry {
    pub moment: u64,
    pub word: Word,
}

impl Entry {
    /// The entry of a cyclic with this id and index.
    pub(crate) fn new(moment: Moment, id: CyclicId, index: Index) -> Entry
        ensures moment { result.moment ≡ moment }
        ensures valid { result.moment ≤ never }
        ensures id { id_in_word result ≡ id }
        ensures index { cyclic_index result ≡ index }
    {
        Entry {
            moment: moment.nanoseconds(),
            word: Word::new(id, index),
        }
    }

    /// The entry of a free index, and of a game among free ones.
    pub(crate) fn free() -> Entry
        ensures { result ≡ free_entry }
    {
        Entry {
            moment: FREE,
            word: Word::free(),
        }
    }

    /// The moment of the expiration. None where the index is free.
    pub(crate) fn moment(&self) -> Option<Moment>
        ensures none { IfNone result (never < self.now.moment) }
        ensures some { IfSome result (λ moment. (moment ≡ self.now.moment) × (moment ≤ never)) }
    {
        let nanoseconds = i64::try_from(self.moment).ok()?;
        Moment::new(nanoseconds).ok()
    }

    /// The id of the cyclic.
    pub(crate) fn id(&self) -> CyclicId
        ensures { result ≡ id_in_word self.now }
    {
        self.word.id()
    }

    /// The index of the cyclic.
    pub(crate) fn index(&self) -> Index
        ensures { result ≡ cyclic_index self.now }
    {
        self.word.index()
    }

    /// Whether it is the entry of the cyclic with this index.
    pub(crate) fn is_of(&self, index: Index) -> bool
        ensures there { OnTrue result (cyclic_index self.now ≡ index) }
        ensures elsewhere { OnFalse result (cyclic_index self.now ≢ index) }
    {
        self.word.is_of(index)
    }

    /// The expiration and the index as one number, so that a comparison needs no branch.
    fn number(&self) -> u128
        ensures value { result ≡ self.now.moment * 2 ^ 64 + self.now.word }
        ensures word { self.now.word < 2 ^ 64 }
    {
        u128::from(self.moment).wrapping_shl(64) | u128::from(self.word.bits())
    }

    /// Whether this entry expires before the other: at an earlier moment, or at the same one with a smaller id.
    pub(crate) fn expires_before(&self, other: &Entry) -> bool
        ensures before { OnTrue result (comes self.now other.now ≡ true) }
        ensures after { OnFalse result (comes other.now self.now ≡ true) }
    {
        self.number() < other.number()
    }
}
