//! Where the words of a ring lie, and how an entry is made up: the numbers of `ring_rule`'s `specs/Words.antt`.
ghost use Rattle.std.specs.Prelude.{◌≡◌, ℕ, ◌+◌, ◌%◌, ◌^◌, ◌<◌, ◌≤◌};
ghost use Rattle.cyc_types.specs.Limits.{greatest_bank, cyclics};
ghost use Rattle.cyc_level.specs.Level.{bank_size};
ghost use Rattle.ring_rule.specs.Words.{pend_word, slot_word, index_range, word_count};

use cyc_types::{CYCLICS, GREATEST_BANK};

/// The indexes of a ring. Each has a pend word.
pub const INDEXES: usize = CYCLICS as usize;

// How far apart the words of neighbouring indexes lie: one more than the words of a cache line.
const APART: u64 = 9;

// The pend word of an index. The pend words come first.
pub(crate) fn pend_at(index: usize) -> usize
    requires { index < cyclics }
    ensures { (result ≡ pend_word index) × (result < cyclics) }
{
    index * APART as usize % INDEXES
}

// The buffer word of an index of a bank, by the bank's size less one and the index modulo 2^32.
pub(crate) fn buffer_at(mask: u64, next: u32) -> usize
    requires { mask < cyclics }
    ensures { (bank i : ℕ) → bank ≤ greatest_bank → mask + 1 ≡ bank_size bank → next ≡ i % index_range
        → (result ≡ slot_word bank i)
        × (result < word_count) }
{
    (CYCLICS as u64 + mask + (next as u64 * APART & mask)) as usize
}

// The first producer word. The banks before it have one slot less than twice the indexes.
pub(crate) const PRODUCERS: usize = INDEXES + 2 * INDEXES - 1;

// The word of the hard bank, after a producer word for each bank.
pub(crate) const HARD: usize = PRODUCERS + GREATEST_BANK as usize + 1;

// The word of the soft bank.
pub(crate) const SOFT: usize = HARD + 1;

// The number of words.
pub(crate) const WORDS: usize = SOFT + 1;

/// The base of an entry: its id times this, and its index.
pub const ENTRY_BASE: u64 = CYCLICS as u64;

/// The bit of a pend word that marks an open removal. The bits below it are the calls outstanding.
pub const MARK: u64 = 1 << 32;
