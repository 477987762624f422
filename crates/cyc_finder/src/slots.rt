//! The slots of a finder: looking an id up among them, putting one in, and dropping those that are gone.

ghost use Rattle.std.specs.Prelude.{◌≡◌, ◌≢◌, ℕ, ◌+◌, ◌-◌, ◌<◌, ◌≤◌, ◌⊎◌, length, slice_index_or, None, Some};
ghost use Rattle.std.specs.Prelude.{IfSome, IfNone, IfOk, IfErr};
ghost use Rattle.std.specs.Prelude.{insert, remove, vec_capacity};
ghost use Rattle.std.specs.Bool.{OnTrue, OnFalse};
ghost use Rattle.std.specs.List.{AllWithin, HoldsAt, SameBelow};
ghost use Rattle.cyc_finder.specs.Sorted.{Rises, IsAt, IsGap, IsPassed, ComesAfter};
ghost use Rattle.cyc_finder.specs.Indexes.{id_in, index_of};
ghost use Rattle.cyc_finder.specs.Slots.{slot_id, entries_of, IsGoneSlot, IsHereSlot, IsHereAt, IsFirst};

use crate::hints::Hints;
use crate::slot::Slot;
use crate::sorted::{HasId, is_above_all, search, search_unguessed, stands_at};
use cyc_types::{CyclicId, Index};

/// The first slot whose cyclic is here, and its id less its position: by this base an id is guessed.
#[derive(Clone, Copy)]
pub struct First {
    pub(crate) position: usize,
    pub(crate) base: u64,
}

/// Whether the cyclic of this id is here and its slot stands at this position. O(1).
#[inline(always)]
fn is_here_at(slots: &[Slot], id: CyclicId, position: usize) -> bool
    ensures there { OnTrue result (IsHereAt slots.now id position) }
    ensures elsewhere { OnFalse result (¬ IsHereAt slots.now id position) }
{
    position < slots.len() && slots[position].is_of(id)
}

/// Where the slot of this id stands, by two looks: as far from the base as its number says, and where it was last. None unless
/// its cyclic is here and it stands at one of them. O(1).
#[inline(always)]
pub(crate) fn quick(slots: &[Slot], base: u64, hints: &Hints, id: CyclicId) -> Option<usize>
    ensures some { IfSome result (IsHereAt slots.now id) }
    ensures none { IfNone result (base ≤ id → ¬ IsHereAt slots.now id (id - base)) }
{
    let guessed = id.number().wrapping_sub(base);
    if guessed < slots.len() as u64 && is_here_at(slots, id, guessed as usize) {
        return Some(guessed as usize);
    }
    let hinted = hints.near(id);
    if is_here_at(slots, id, hinted) {
        return Some(hinted);
    }
    None
}

/// Where the slot of this id stands, or where it would stand, where `quick` did not find it: by a look where a far hint says, and
/// then by halving. O(log n).
#[inline(always)]
pub(crate) fn sought(slots: &[Slot], hints: &Hints, id: CyclicId) -> Result<usize, usize>
    requires { Rises slot_id slots.now }
    ensures found { IfOk result (IsAt slot_id slots.now id) }
    ensures absent { IfErr result (IsGap slot_id slots.now id) }
{
    let far = hints.far(id);
    if stands_at(slots, id, far) {
        return Ok(far);
    }
    search_unguessed(slots, id)
}

/// As `sought`, of a cyclic that is here, by a call, so that what calls it keeps no registers for it.
#[cold]
#[inline(never)]
fn sought_here(slots: &[Slot], hints: &Hints, id: CyclicId) -> Option<usize>
    requires { Rises slot_id slots.now }
    ensures some { IfSome result (IsHereAt slots.now id) }
    ensures none { IfNone result (index_of id (entries_of slots.now) ≡ None) }
{
    match sought(slots, hints, id) {
        Ok(position) => {
            if !slots[position].is_here() {
                return None;
            }
            Some(position)
        }
        Err(_) => None,
    }
}

/// Where the slot of this id stands, by `quick` and then as `sought`. None where its cyclic is not here.
#[inline(always)]
pub(crate) fn position_of(slots: &[Slot], base: u64, hints: &Hints, id: CyclicId) -> Option<usize>
    requires { Rises slot_id slots.now }
    ensures some { IfSome result (IsHereAt slots.now id) }
    ensures none { IfNone result (index_of id (entries_of slots.now) ≡ None) }
{
    if let Some(position) = quick(slots, base, hints, id) {
        return Some(position);
    }
    sought_here(slots, hints, id)
}

/// The first position from this one on whose cyclic is here, behind the last where there is none.
pub(crate) fn next_here(slots: &[Slot], from: usize) -> usize
    requires { from ≤ length slots.now }
    ensures after { from ≤ result }
    ensures within { result ≤ length slots.now }
    ensures gone { AllWithin IsGoneSlot slots.now from result }
    ensures here { result < length slots.now → HoldsAt IsHereSlot slots.now result }
{
    let mut position = from;
    while position < slots.len() && !slots[position].is_here() {
        position += 1;
    }
    position
}

/// The first position to which a walk comes that has passed this id, the first of all where it has passed none. O(1) where
/// `quick` finds the id, else O(log n).
pub(crate) fn after(slots: &[Slot], base: u64, hints: &Hints, passed: Option<CyclicId>) -> usize
    requires { Rises slot_id slots.now }
    ensures within { result ≤ length slots.now }
    ensures before { AllWithin (λ slot. IsPassed passed slot.id) slots.now 0 result }
    ensures from { AllWithin (λ slot. ComesAfter passed slot.id) slots.now result (length slots.now) }
{
    let Some(id) = passed else {
        return 0;
    };
    if let Some(position) = quick(slots, base, hints, id) {
        return position + 1;
    }
    match search(slots, id) {
        Ok(position) => position + 1,
        Err(position) => position,
    }
}

/// The id at a position less the position, 0 where there is no slot.
fn base_at(slots: &[Slot], position: usize) -> u64
    requires { Rises slot_id slots.now }
    ensures { position < length slots.now → HoldsAt (λ slot. result + position ≡ slot.id) slots.now position }
{
    if position < slots.len() {
        slots[position].number() - position as u64
    } else {
        0
    }
}

/// The first that is here, where all before this position are gone.
pub(crate) fn first_from(slots: &[Slot], position: usize) -> First
    requires rises { Rises slot_id slots.now }
    requires within { position ≤ length slots.now }
    requires gone { AllWithin IsGoneSlot slots.now 0 position }
    ensures { IsFirst slots.now result }
{
    let here = next_here(slots, position);
    First {
        position: here,
        base: base_at(slots, here),
    }
}

/// The first that is here once the cyclic at this position is gone. While the first goes up each slot is passed by once.
#[inline(always)]
pub(crate) fn first_without(slots: &[Slot], first: &mut First, position: usize)
    requires rises { Rises slot_id slots.now }
    requires within { position < length slots.now }
    requires gone { position ≡ first.old.position → AllWithin IsGoneSlot slots.now 0 (position + 1) }
    requires other { position ≢ first.old.position → IsFirst slots.now first.old }
    ensures { IsFirst slots.now first.new }
{
    if position == first.position {
        *first = first_from(slots, position + 1);
    }
}

/// The first that is here once a cyclic of this id is at this position.
#[inline(always)]
pub(crate) fn first_with(slots: &[Slot], first: &mut First, position: usize)
    requires rises { Rises slot_id slots.now }
    requires within { position < length slots.now }
    requires here { HoldsAt IsHereSlot slots.now position }
    requires gone { position ≤ first.old.position → AllWithin IsGoneSlot slots.now 0 position }
    requires other { first.old.position < position → IsFirst slots.now first.old }
    ensures { IsFirst slots.now first.new }
{
    if position <= first.position {
        *first = First {
            position,
            base: base_at(slots, position),
        };
    }
}

/// Drops the slots whose cyclics are gone, as all before this position are. O(n), with no branch that a slot decides.
fn pack(slots: &mut Vec<Slot>, position: usize)
    requires rises { Rises slot_id slots.old.items }
    requires within { position ≤ length slots.old.items }
    requires gone { AllWithin IsGoneSlot slots.old.items 0 position }
    ensures entries { entries_of slots.new.items ≡ entries_of slots.old.items }
    ensures rises { Rises slot_id slots.new.items }
    ensures len { length slots.new.items ≡ length (entries_of slots.old.items) }
    ensures capacity { vec_capacity slots.new ≡ vec_capacity slots.old }
{
    let mut kept = 0;
    for at in position..slots.len() {
        let slot = slots[at];
        slots[kept] = slot;
        kept += slot.is_here() as usize;
    }
    slots.truncate(kept);
}

/// Drops the slots whose cyclics are gone, hints where the others are now, and says which is the first that is here.
#[cold]
#[inline(never)]
fn pack_all(slots: &mut Vec<Slot>, hints: &mut Hints, first: First) -> First
    requires rises { Rises slot_id slots.old.items }
    requires first { IsFirst slots.old.items first }
    ensures entries { entries_of slots.new.items ≡ entries_of slots.old.items }
    ensures rises { Rises slot_id slots.new.items }
    ensures len { length slots.new.items ≡ length (entries_of slots.old.items) }
    ensures capacity { vec_capacity slots.new ≡ vec_capacity slots.old }
    ensures first { IsFirst slots.new.items result }
{
    pack(slots, first.position);
    hints.set_all(slots);
    first_from(slots, 0)
}

/// Where no more slots fit, drops those whose cyclics are gone, and says which is the first that is here. More go than may be
/// here, so that for each cyclic that came it costs O(1) on average.
#[inline(always)]
pub(crate) fn make_way(slots: &mut Vec<Slot>, hints: &mut Hints, first: &mut First)
    requires rises { Rises slot_id slots.old.items }
    requires few { length (entries_of slots.old.items) < vec_capacity slots.old }
    requires first { IsFirst slots.old.items first.old }
    ensures entries { entries_of slots.new.items ≡ entries_of slots.old.items }
    ensures rises { Rises slot_id slots.new.items }
    ensures fits { length slots.new.items < vec_capacity slots.new }
    ensures capacity { vec_capacity slots.new ≡ vec_capacity slots.old }
    ensures first { IsFirst slots.new.items first.new }
{
    if slots.len() >= slots.capacity() {
        *first = pack_all(slots, hints, *first);
    }
}

/// Puts in a cyclic of this id and index, and says where: behind the last where its id is above all others, else by
/// `put_between`.
#[inline(always)]
pub(crate) fn put(slots: &mut Vec<Slot>, hints: &mut Hints, id: CyclicId, index: Index) -> usize
    requires rises { Rises slot_id slots.old.items }
    requires absent { index_of id (entries_of slots.old.items) ≡ None }
    requires fits { length slots.old.items < vec_capacity slots.old }
    ensures rises { Rises slot_id slots.new.items }
    ensures entries { (k : ℕ) × IsGap id_in (entries_of slots.old.items) id k
        × (entries_of slots.new.items ≡ insert (entries_of slots.old.items) k (record { id = id; index = index })) }
    ensures near { result ≤ length slots.old.items }
    ensures within { result < length slots.new.items }
    ensures here { HoldsAt (λ slot. slot ≡ record { id = id; index = Some index }) slots.new.items result }
    ensures before { SameBelow slots.old.items slots.new.items result }
    ensures capacity { vec_capacity slots.old ≤ vec_capacity slots.new }
{
    if !is_above_all(slots, id) {
        return put_between(slots, hints, id, index);
    }
    let position = slots.len();
    slots.push_reserved(Slot::here(id, index));
    hints.set(id, position);
    position
}

/// The first position from this one on whose cyclic is gone, behind the last where there is none.
fn next_gone(slots: &[Slot], from: usize) -> usize
    requires { from ≤ length slots.now }
    ensures after { from ≤ result }
    ensures within { result ≤ length slots.now }
    ensures here { AllWithin IsHereSlot slots.now from result }
    ensures gone { result < length slots.now → HoldsAt IsGoneSlot slots.now result }
{
    let mut position = from;
    while position < slots.len() && slots[position].is_here() {
        position += 1;
    }
    position
}

/// Where a slot comes in that would stand at this position: at the one before where that is of a cyclic that is gone.
#[inline(always)]
fn way_in(slots: &[Slot], gap: usize) -> usize
    requires { gap ≤ length slots.now }
    ensures { (result ≡ gap) ⊎ ((result + 1 ≡ gap) × HoldsAt IsGoneSlot slots.now result) }
{
    if gap > 0 && !slots[gap - 1].is_here() {
        return gap - 1;
    }
    gap
}

/// Puts a slot in at this position: those from there on move up by one, over that of a cyclic that is gone, and those behind that
/// stay.
fn move_up(slots: &mut Vec<Slot>, position: usize, gone: usize, slot: Slot)
    requires up { position ≤ gone }
    requires within { gone < length slots.old.items }
    ensures items { slots.new.items ≡ insert (remove slots.old.items gone) position slot }
    ensures capacity { vec_capacity slots.new ≡ vec_capacity slots.old }
{
    slots.copy_within(position..gone, position + 1);
    slots[position] = slot;
}

/// As `put`, at any id: where its slot is if that is still there, else between two. Where the lower of these is of a cyclic that
/// is gone it takes that over, and moves none. Else those above it move up by one, over the next that is gone, all of them where
/// none is, and the first `HINTS` of them get their hints: O(log n) where one that is gone is near, else O(n).
#[cold]
#[inline(never)]
fn put_between(slots: &mut Vec<Slot>, hints: &mut Hints, id: CyclicId, index: Index) -> usize
    requires rises { Rises slot_id slots.old.items }
    requires absent { index_of id (entries_of slots.old.items) ≡ None }
    requires fits { length slots.old.items < vec_capacity slots.old }
    ensures rises { Rises slot_id slots.new.items }
    ensures entries { (k : ℕ) × IsGap id_in (entries_of slots.old.items) id k
        × (entries_of slots.new.items ≡ insert (entries_of slots.old.items) k (record { id = id; index = index })) }
    ensures near { result ≤ length slots.old.items }
    ensures within { result < length slots.new.items }
    ensures here { HoldsAt (λ slot. slot ≡ record { id = id; index = Some index }) slots.new.items result }
    ensures before { SameBelow slots.old.items slots.new.items result }
    ensures capacity { vec_capacity slots.old ≤ vec_capacity slots.new }
{
    let slot = Slot::here(id, index);
    match search(slots, id) {
        Ok(position) => {
            slots[position] = slot;
            hints.set(id, position);
            position
        }
        Err(gap) => {
            let position = way_in(slots, gap);
            let gone = next_gone(slots, position);
            if gone < slots.len() {
                move_up(slots, position, gone, slot);
                hints.set_few(slots, position, gone + 1);
                return position;
            }
            let _ = slots.insert(position, slot);
            hints.set_few(slots, position, slots.len());
            position
        }
    }
}
