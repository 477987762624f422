//! Few expirations as a heap in an array. Which of a few comes next mostly repeats itself, so the branches of a sift are
//! foretold, where a game waits for what it compares.

ghost use Rattle.std.specs.Prelude.{◌≡◌, ◌≢◌, ◌≤◌, ◌⊎◌, ℕ, ◌+◌, ◌*◌, ◌<◌, length, take, drop, vec_capacity, true, IfSome, IfNone};
ghost use Rattle.cyc_heap.specs.Tournament.{entry_at, cyclic_index, comes};
ghost use Rattle.cyc_heap.specs.Few.{IsHeap, IsHeapBut, IsBelow, IsSame, IsFilled, HasNoIndex, HasWordFrom};

use crate::entry::{Entry, Word};
use cyc_types::Index;

/// The position of the entry of this index, None where there is none (the walk of `cyclic_remove_here`).
///
/// It looks at the last one first: one that came last, and one that expires after all others, mostly stands behind them.
pub(crate) fn find(few: &[Entry], index: Index) -> Option<usize>
    ensures none { IfNone result (HasNoIndex index few.now) }
    ensures some { IfSome result (λ p. (p < length few.now) × (cyclic_index (entry_at few.now p) ≡ index)) }
{
    if few.last().is_some_and(|last| last.is_of(index)) {
        return Some(few.len() - 1);
    }
    few.iter().position(|entry| entry.is_of(index))
}

/// The position of the entry of this word, which one of them has (the walk of `cyclic_reprogram_here`). A step that compares
/// whole words is cheaper than one of `find`.
pub(crate) fn find_word(few: &[Entry], word: Word) -> usize
    requires { HasWordFrom 0 word few.now }
    ensures low { result < length few.now }
    ensures word { (entry_at few.now result).word ≡ word }
{
    let mut position = 0;
    while few[position].word.bits() != word.bits() {
        position += 1;
    }
    position
}

/// The position below this one whose entry expires first, of a position that has one below it.
#[inline(always)]
fn first_child(few: &[Entry], position: usize) -> usize
    requires some { 2 * position + 1 < length few.now }
    ensures low { result < length few.now }
    ensures child { (result ≡ 2 * position + 1) ⊎ (result ≡ 2 * position + 2) }
    ensures left { comes (entry_at few.now result) (entry_at few.now (2 * position + 1)) ≡ true }
    ensures right { 2 * position + 2 < length few.now
        → comes (entry_at few.now result) (entry_at few.now (2 * position + 2)) ≡ true }
{
    let left = 2 * position + 1;
    if left + 1 == few.len() {
        return left;
    }
    left + few[left + 1].expires_before(&few[left]) as usize
}

/// Moves the hole up while the entry above expires after this one, and says where the hole is (`cyclic_upheap`).
fn rise(few: &mut [Entry], position: usize, entry: &Entry) -> usize
    requires position { position < length few.old }
    requires heap { IsHeapBut position few.old }
    ensures low { result < length few.new }
    ensures heap { IsHeapBut result few.new }
    ensures below { IsBelow entry.now result few.new }
    ensures same { IsSame position few.old result few.new }
{
    let mut hole = position;
    while hole > 0 {
        let parent = (hole - 1) / 2;
        let moved = few[parent];
        if !entry.expires_before(&moved) {
            break;
        }
        few[hole] = moved;
        hole = parent;
    }
    hole
}

/// Moves the hole down while an entry below expires before this one, and puts this one there (`cyclic_downheap`).
#[inline(always)]
fn sink(few: &mut [Entry], position: usize, entry: Entry)
    requires position { position < length few.old }
    requires heap { IsHeapBut position few.old }
    requires below { IsBelow entry position few.old }
    requires apart { (p : ℕ) → p < length few.old → p ≢ position → cyclic_index (entry_at few.old p) ≢ cyclic_index entry }
    ensures heap { IsHeap few.new }
    ensures filled { IsFilled position few.old entry few.new }
{
    let mut hole = position;
    while 2 * hole + 1 < few.len() {
        let child = first_child(few, hole);
        let moved = few[child];
        if !moved.expires_before(&entry) {
            break;
        }
        few[hole] = moved;
        hole = child;
    }
    few[hole] = entry;
}

/// Puts an entry where it belongs in place of the one at this position.
fn settle(few: &mut [Entry], position: usize, entry: Entry)
    requires position { position < length few.old }
    requires heap { IsHeapBut position few.old }
    requires apart { (p : ℕ) → p < length few.old → p ≢ position → cyclic_index (entry_at few.old p) ≢ cyclic_index entry }
    ensures heap { IsHeap few.new }
    ensures filled { IsFilled position few.old entry few.new }
{
    let hole = rise(few, position, &entry);
    sink(few, hole, entry);
}

/// The same in exchange for one of the same heap: what stands above is looked at only where the entry expires before that one.
fn exchange(few: &mut [Entry], position: usize, entry: Entry)
    requires position { position < length few.old }
    requires heap { IsHeap few.old }
    requires apart { (p : ℕ) → p < length few.old → p ≢ position → cyclic_index (entry_at few.old p) ≢ cyclic_index entry }
    ensures heap { IsHeap few.new }
    ensures filled { IsFilled position few.old entry few.new }
{
    let mut hole = position;
    if position > 0 && entry.expires_before(&few[position]) {
        hole = rise(few, position, &entry);
    }
    sink(few, hole, entry);
}

/// The same among so many that stand in front.
pub(crate) fn put(entries: &mut Vec<Entry>, held: usize, position: usize, entry: Entry)
    requires held { held ≤ length entries.old.items }
    requires position { position < held }
    requires heap { IsHeapBut position (take held entries.old.items) }
    requires apart { (p : ℕ) → p < held → p ≢ position → cyclic_index (entry_at entries.old.items p) ≢ cyclic_index entry }
    ensures heap { IsHeap (take held entries.new.items) }
    ensures filled { IsFilled position (take held entries.old.items) entry (take held entries.new.items) }
    ensures behind { drop held entries.new.items ≡ drop held entries.old.items }
    ensures long { length entries.new.items ≡ length entries.old.items }
    ensures room { vec_capacity entries.new ≡ vec_capacity entries.old }
{
    let (front, _behind) = entries.as_mut_slice().split_at_mut(held);
    settle(front, position, entry);
}

/// As `exchange`, among so many that stand in front.
pub(crate) fn replace(entries: &mut Vec<Entry>, held: usize, position: usize, entry: Entry)
    requires held { held ≤ length entries.old.items }
    requires position { position < held }
    requires heap { IsHeap (take held entries.old.items) }
    requires apart { (p : ℕ) → p < held → p ≢ position → cyclic_index (entry_at entries.old.items p) ≢ cyclic_index entry }
    ensures heap { IsHeap (take held entries.new.items) }
    ensures filled { IsFilled position (take held entries.old.items) entry (take held entries.new.items) }
    ensures behind { drop held entries.new.items ≡ drop held entries.old.items }
    ensures long { length entries.new.items ≡ length entries.old.items }
    ensures room { vec_capacity entries.new ≡ vec_capacity entries.old }
{
    let (front, _behind) = entries.as_mut_slice().split_at_mut(held);
    exchange(front, position, entry);
}

/// The same in place of the first.
#[inline(always)]
pub(crate) fn put_first(entries: &mut Vec<Entry>, held: usize, entry: Entry)
    requires held { held ≤ length entries.old.items }
    requires some { 0 < held }
    requires heap { IsHeapBut 0 (take held entries.old.items) }
    requires apart { (p : ℕ) → p < held → p ≢ 0 → cyclic_index (entry_at entries.old.items p) ≢ cyclic_index entry }
    ensures heap { IsHeap (take held entries.new.items) }
    ensures filled { IsFilled 0 (take held entries.old.items) entry (take held entries.new.items) }
    ensures behind { drop held entries.new.items ≡ drop held entries.old.items }
    ensures long { length entries.new.items ≡ length entries.old.items }
    ensures room { vec_capacity entries.new ≡ vec_capacity entries.old }
{
    let (front, _behind) = entries.as_mut_slice().split_at_mut(held);
    sink(front, 0, entry);
}
