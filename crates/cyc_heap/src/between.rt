//! From few in front to many that play, and back. Either way goes over the leaves once.

ghost use Rattle.std.specs.Prelude.{◌≡◌, ◌<◌, ◌≤◌, ◌+◌, ◌*◌, ◌/◌, ℕ, length, take, is_some, count_by, vec_capacity, true, false};
ghost use Rattle.cyc_types.specs.Limits.{cyclics};
ghost use Rattle.cyc_types.specs.Series.{never};
ghost use Rattle.cyc_heap.specs.Tournament.{entry_at, cyclic_index, free_entry, slots};
ghost use Rattle.cyc_heap.specs.Few.{most_few, HasNoIndex, StandsIn, IsHeap, shown, IsTree};

use crate::entry::Entry;
use crate::few::put;
use crate::games::play_all;

/// The most expirations that are few, of so many leaves. More of them are worth their games, of which each change plays as many
/// as there are halvings of the leaves. Up to 32 leaves they are always few.
pub(crate) fn few_at_most(leaves: usize) -> usize
    requires { leaves ≤ cyclics }
    ensures { result ≡ most_few leaves }
{
    leaves / 2 + 16
}

/// Makes all leaves free.
fn clear(leaves: &mut [Entry])
    ensures free { (i : ℕ) → i < length leaves.new → entry_at leaves.new i ≡ free_entry }
    ensures long { length leaves.new ≡ length leaves.old }
{
    for position in 0..leaves.len() {
        leaves[position] = Entry::free();
    }
}

/// Puts each of the few into the leaf of its index.
fn enter_few(few: &[Entry], leaves: &mut [Entry])
    requires heap { IsHeap few.now }
    requires low { (p : ℕ) → p < length few.now → cyclic_index (entry_at few.now p) < length leaves.old }
    ensures here { StandsIn leaves.new few.now }
    ensures others { (i : ℕ) → i < length leaves.old → HasNoIndex i few.now → entry_at leaves.new i ≡ entry_at leaves.old i }
    ensures long { length leaves.new ≡ length leaves.old }
{
    for entry in few {
        leaves[usize::from(entry.index().number())] = *entry;
    }
}

/// Moves so many from the front into the leaves of their indexes, by way of what stands behind the leaves. All other leaves are
/// free from now on.
fn leave_front(leaves: &mut [Entry], behind: &mut [Entry], held: usize)
    requires within { held ≤ length leaves.old }
    requires space { held ≤ length behind.old }
    requires heap { IsHeap (take held leaves.old) }
    requires low { (p : ℕ) → p < length (take held leaves.old)
        → cyclic_index (entry_at (take held leaves.old) p) < length leaves.old }
    ensures here { StandsIn leaves.new (take held leaves.old) }
    ensures free { (i : ℕ) → i < length leaves.old → HasNoIndex i (take held leaves.old) → entry_at leaves.new i ≡ free_entry }
    ensures long { length leaves.new ≡ length leaves.old }
    ensures long_behind { length behind.new ≡ length behind.old }
{
    let few = &mut behind[..held];
    few.copy_from_slice(&leaves[..held]);
    clear(leaves);
    enter_few(few, leaves);
}

/// Each of the few stands in the leaf of its index from now on, and all other leaves are free.
fn spread_few(entries: &mut [Entry], held: usize, leaves: usize)
    requires low { held < leaves }
    requires tree { IsTree true held leaves entries.old }
    ensures here { StandsIn entries.new (take held entries.old) }
    ensures free { (i : ℕ) → i < leaves → HasNoIndex i (take held entries.old) → entry_at entries.new i ≡ free_entry }
    ensures long { length entries.new ≡ length entries.old }
{
    let (front, behind) = entries.split_at_mut(leaves);
    leave_front(front, behind, held);
}

/// The few play from now on.
pub(crate) fn play_few(entries: &mut Vec<Entry>, held: usize, leaves: usize)
    requires few { leaves ≤ cyclics }
    requires low { held < leaves }
    requires tree { IsTree true held leaves entries.old.items }
    ensures tree { IsTree false 0 leaves entries.new.items }
    ensures long { length entries.new.items ≡ length entries.old.items }
    ensures kept { (i : ℕ) → i < leaves → entry_at entries.new.items i ≡ entry_at (shown true held entries.old.items) i }
    ensures room { vec_capacity entries.new ≡ vec_capacity entries.old }
{
    spread_few(entries.as_mut_slice(), held, leaves);
    play_all(entries.as_mut_slice(), leaves);
}

/// Those of the leaves that have a moment stand in front from now on, as a heap. Says how many they are.
pub(crate) fn gather(entries: &mut Vec<Entry>, leaves: usize) -> usize
    requires some { 0 < leaves }
    requires leaves { leaves ≤ cyclics }
    requires own { (i : ℕ) → i < leaves → (entry_at entries.old.items i).moment ≤ never
        → cyclic_index (entry_at entries.old.items i) ≡ i }
    requires tree { IsTree false 0 leaves entries.old.items }
    ensures tree { IsTree true result leaves entries.new.items }
    ensures kept { (i : ℕ) → i < leaves → entry_at (shown true result entries.new.items) i ≡ entry_at entries.old.items i }
    ensures count { result ≡ count_by is_some (slots leaves entries.old.items) }
    ensures long { length entries.new.items ≡ length entries.old.items }
    ensures room { vec_capacity entries.new ≡ vec_capacity entries.old }
{
    let mut held = 0;
    for position in 0..leaves {
        let entry = entries[position];
        if entry.moment().is_some() {
            put(entries, held + 1, held, entry);
            held += 1;
        }
    }
    held
}
