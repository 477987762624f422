//! A change of one leaf: few expirations are sifted, and for many the games are played again.

ghost use Rattle.std.specs.Prelude.{◌≡◌, ◌≢◌, ◌<◌, ◌≤◌, ◌+◌, ◌-◌, ◌*◌, ℕ, length, vec_capacity, true, false};
ghost use Rattle.cyc_types.specs.Limits.{cyclics};
ghost use Rattle.cyc_types.specs.Series.{never};
ghost use Rattle.cyc_heap.specs.Tournament.{entry_at, id_in_word, cyclic_index, free_entry};
ghost use Rattle.cyc_heap.specs.Few.{shown, IsTree, IsChanged};

use crate::entry::Entry;
use crate::few::{find, find_word, put, put_first, replace};
use crate::games::enter;
use cyc_types::{CyclicId, Index, Moment};

/// The entry with another moment.
fn at_moment(entry: &Entry, moment: Moment) -> Entry
    ensures value { result ≡ record entry.now { moment = moment } }
    ensures valid { moment ≤ never }
{
    Entry {
        moment: moment.nanoseconds(),
        word: entry.word,
    }
}

/// The first of few has another moment.
#[inline(always)]
pub(crate) fn lower_first(entries: &mut Vec<Entry>, held: usize, leaves: usize, moment: Moment)
    requires leaves { leaves ≤ cyclics }
    requires some { 0 < held }
    requires tree { IsTree true held leaves entries.old.items }
    ensures tree { IsTree true held leaves entries.new.items }
    ensures changed { IsChanged leaves (cyclic_index (entry_at entries.old.items 0))
        (record (entry_at entries.old.items 0) { moment = moment })
        (shown true held entries.old.items) (shown true held entries.new.items) }
    ensures valid { moment ≤ never }
    ensures room { vec_capacity entries.new ≡ vec_capacity entries.old }
{
    let entry = at_moment(&entries[0], moment);
    put_first(entries, held, entry);
}

/// One of the few has another moment.
fn change_few(
    entries: &mut Vec<Entry>,
    held: usize,
    leaves: usize,
    id: CyclicId,
    index: Index,
    moment: Moment,
)
    requires leaves { leaves ≤ cyclics }
    requires index { index < leaves }
    requires used { (entry_at (shown true held entries.old.items) index).moment ≤ never }
    requires id { id_in_word (entry_at (shown true held entries.old.items) index) ≡ id }
    requires tree { IsTree true held leaves entries.old.items }
    ensures tree { IsTree true held leaves entries.new.items }
    ensures changed { IsChanged leaves index (record (entry_at (shown true held entries.old.items) index) { moment = moment })
        (shown true held entries.old.items) (shown true held entries.new.items) }
    ensures valid { moment ≤ never }
    ensures room { vec_capacity entries.new ≡ vec_capacity entries.old }
{
    let entry = Entry::new(moment, id, index);
    let position = find_word(&entries.as_slice()[..held], entry.word);
    replace(entries, held, position, entry);
}

/// One of many has another moment. A fire calls this, so that in its loop over few the games take no place.
#[inline(never)]
pub(crate) fn change_many(entries: &mut Vec<Entry>, leaves: usize, index: Index, moment: Moment)
    requires leaves { leaves ≤ cyclics }
    requires index { index < leaves }
    requires tree { IsTree false 0 leaves entries.old.items }
    ensures tree { IsTree false 0 leaves entries.new.items }
    ensures changed { IsChanged leaves index (record (entry_at entries.old.items index) { moment = moment })
        entries.old.items entries.new.items }
    ensures valid { moment ≤ never }
    ensures room { vec_capacity entries.new ≡ vec_capacity entries.old }
{
    let leaf = usize::from(index.number());
    let entry = at_moment(&entries[leaf], moment);
    enter(entries, leaves, leaf, entry);
}

/// The expiration of this id and index has another moment.
pub(crate) fn change(
    entries: &mut Vec<Entry>,
    is_few: bool,
    held: usize,
    leaves: usize,
    id: CyclicId,
    index: Index,
    moment: Moment,
)
    requires leaves { leaves ≤ cyclics }
    requires index { index < leaves }
    requires used { (entry_at (shown is_few held entries.old.items) index).moment ≤ never }
    requires id { id_in_word (entry_at (shown is_few held entries.old.items) index) ≡ id }
    requires many { is_few ≡ false → held ≡ 0 }
    requires tree { IsTree is_few held leaves entries.old.items }
    ensures tree { IsTree is_few held leaves entries.new.items }
    ensures changed { IsChanged leaves index (record (entry_at (shown is_few held entries.old.items) index) { moment = moment })
        (shown is_few held entries.old.items) (shown is_few held entries.new.items) }
    ensures valid { moment ≤ never }
    ensures room { vec_capacity entries.new ≡ vec_capacity entries.old }
{
    if is_few {
        change_few(entries, held, leaves, id, index, moment);
    } else {
        change_many(entries, leaves, index, moment);
    }
}

/// An index that was free has this expiration, where they are few.
fn add_few(entries: &mut Vec<Entry>, held: usize, leaves: usize, index: Index, entry: Entry)
    requires leaves { leaves ≤ cyclics }
    requires index { index < leaves }
    requires own { cyclic_index entry ≡ index }
    requires valid { entry.moment ≤ never }
    requires free { never < (entry_at (shown true held entries.old.items) index).moment }
    requires space { held < length entries.old.items }
    requires tree { IsTree true held leaves entries.old.items }
    ensures tree { IsTree true (held + 1) leaves entries.new.items }
    ensures changed { IsChanged leaves index entry (shown true held entries.old.items) (shown true (held + 1) entries.new.items) }
    ensures room { vec_capacity entries.new ≡ vec_capacity entries.old }
{
    put(entries, held + 1, held, entry);
}

/// An index that was free has this expiration. Says how many stand in front.
pub(crate) fn add(
    entries: &mut Vec<Entry>,
    is_few: bool,
    held: usize,
    leaves: usize,
    index: Index,
    entry: Entry,
) -> usize
    requires leaves { leaves ≤ cyclics }
    requires index { index < leaves }
    requires own { cyclic_index entry ≡ index }
    requires valid { entry.moment ≤ never }
    requires free { never < (entry_at (shown is_few held entries.old.items) index).moment }
    requires space { held < length entries.old.items }
    requires many { is_few ≡ false → held ≡ 0 }
    requires tree { IsTree is_few held leaves entries.old.items }
    ensures tree { IsTree is_few result leaves entries.new.items }
    ensures changed { IsChanged leaves index entry (shown is_few held entries.old.items) (shown is_few result entries.new.items) }
    ensures few { is_few ≡ true → result ≡ held + 1 }
    ensures many { is_few ≡ false → result ≡ 0 }
    ensures room { vec_capacity entries.new ≡ vec_capacity entries.old }
{
    if is_few {
        add_few(entries, held, leaves, index, entry);
        return held + 1;
    }
    let position = usize::from(index.number());
    enter(entries, leaves, position, entry);
    0
}

/// The index is free from now on, where they are few: the last of them is put where it was (`cyclic_remove_here`).
fn take_few(entries: &mut Vec<Entry>, held: usize, leaves: usize, index: Index)
    requires leaves { leaves ≤ cyclics }
    requires index { index < leaves }
    requires used { (entry_at (shown true held entries.old.items) index).moment ≤ never }
    requires tree { IsTree true held leaves entries.old.items }
    ensures some { 0 < held }
    ensures tree { IsTree true (held - 1) leaves entries.new.items }
    ensures changed { IsChanged leaves index free_entry (shown true held entries.old.items)
        (shown true (held - 1) entries.new.items) }
    ensures room { vec_capacity entries.new ≡ vec_capacity entries.old }
{
    let position = find(&entries.as_slice()[..held], index).unwrap();
    let last = held - 1;
    let moved = entries[last];
    entries[last] = Entry::free();
    if position < last {
        replace(entries, last, position, moved);
    }
}

/// The index is free from now on. Says how many stand in front.
pub(crate) fn take(
    entries: &mut Vec<Entry>,
    is_few: bool,
    held: usize,
    leaves: usize,
    index: Index,
) -> usize
    requires leaves { leaves ≤ cyclics }
    requires index { index < leaves }
    requires used { (entry_at (shown is_few held entries.old.items) index).moment ≤ never }
    requires many { is_few ≡ false → held ≡ 0 }
    requires tree { IsTree is_few held leaves entries.old.items }
    ensures tree { IsTree is_few result leaves entries.new.items }
    ensures changed { IsChanged leaves index free_entry (shown is_few held entries.old.items)
        (shown is_few result entries.new.items) }
    ensures few { is_few ≡ true → result + 1 ≡ held }
    ensures many { is_few ≡ false → result ≡ 0 }
    ensures room { vec_capacity entries.new ≡ vec_capacity entries.old }
{
    if is_few {
        take_few(entries, held, leaves, index);
        return held - 1;
    }
    let position = usize::from(index.number());
    enter(entries, leaves, position, Entry::free());
    0
}
