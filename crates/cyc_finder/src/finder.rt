//! The map from ids to indexes.

ghost use Rattle.std.specs.Prelude.{◌≡◌, ℕ, ◌-◌, ◌<◌, ◌≤◌, cond, eqb, IfOk, OnOk, OnErr, IfSome, IfNone, None, Some, All, max};
ghost use Rattle.std.specs.Prelude.{slice_index_or, insert, remove, IsSome, ◌↔◌};
ghost use Rattle.std.specs.Bool.{IsTrue};
ghost use Rattle.std.specs.List.{slice_get, HoldsAt};
ghost use Rattle.cyc_finder.specs.Sorted.{IsAt, IsGap, IsNextAfter, IsPassed};
ghost use Rattle.cyc_finder.specs.Indexes.{Entry, new_finder, hints, hint_at, id_in, index_of, IsIndexed};

use crate::hints::Hints;
use crate::slot::Slot;
use crate::slots::{
    First, after, first_with, first_without, make_way, next_here, position_of, put, quick, sought,
};
use crate::sorted::search_new;
use cyc_types::{CyclicId, Index};
use std::alloc::{AllocError, Global};
use std::marker::Model;

/// How many hints there are where ids have hints: enough for that many cyclics, and few enough to stay in a cache (our own rule).
pub const HINTS: usize = 256;

/// The constant is the number that the definitions speak of. It does nothing when it runs.
pub fn hints_law()
    ensures { HINTS ≡ hints }
{}

/// How many slots a finder has at least: with few cyclics those that are gone are then seldom dropped (our own rule).
const FEWEST_SLOTS: usize = 64;

/// The map from the ids of cyclics to their indexes, no two the same (our own; the kernel names a cyclic by its address).
/// Contracts see its entries by rising id.
///
/// It keeps a slot for each cyclic that came, by rising id, and a cyclic that goes leaves its slot behind, so that no other is
/// moved. One that comes between others takes over such a slot near it; those that are left are dropped all at once, when no more
/// fit. Ids mostly rise by one, so the first look mostly answers; after it comes a hint, of which each id has one, with many
/// cyclics a second one, which fewer ids share, and then halving.
#[derive(Drop)]
pub struct Finder {
    slots: Vec<Slot>,
    first: First,
    hints: Box<Hints>,
    room: usize,
}

impl Model for Finder {
    ghost use Rattle.cyc_finder.specs.Indexes.{FinderView};
    ghost use Rattle.cyc_finder.specs.Slots.{entries_of};
    ghost use Rattle.cyc_finder.specs.Shown.{IsFinder};

    ghost Value = { FinderView };

    ghost view = { λ f. record { entries = entries_of f.slots.items; room = f.room } };

    ghost invariant = { IsFinder };
}

/// Where the hint of an id stands among `HINTS` hints: at its low bits, with those above them added, so that ids that are 16
/// apart, as those of one of 16 CPUs often are, don't share one.
#[tactic(auto, unfolding(crate::specs::Indexes::hint_at))]
pub fn hint_of(id: CyclicId) -> usize
    ensures { (result ≡ hint_at id) × (result < hints) }
{
    let number = id.number();
    let hints = HINTS as u64;
    ((number + number / hints) % hints) as usize
}

impl Finder {
    /// No id has an index. Takes the memory of one cyclic, with `FEWEST_SLOTS` slots.
    pub fn new(alloc: Global) -> Result<Finder, AllocError>
        ensures { IfOk result (λ finder. finder ≡ new_finder) }
    {
        Ok(Finder {
            slots: Vec::with_capacity(alloc, FEWEST_SLOTS)?,
            first: First {
                position: 0,
                base: 0,
            },
            hints: Hints::new(alloc)?,
            room: 1,
        })
    }

    /// Takes the memory of so many cyclics, so that none of these takes any: 32 bytes for each, and 16 KB once where they are
    /// more than `HINTS`. O(n) where it takes any.
    pub fn reserve(&mut self, size: usize) -> Result<(), AllocError>
        ensures ok { OnOk result (self.new ≡ record self.old { room = max self.old.room size }) }
        ensures err { OnErr result (self.new ≡ self.old) }
        ensures refused { OnErr result (self.old.room < size) }
    {
        if size > self.room {
            // no allocation can give as much as overflows here
            let slots = size.checked_mul(2).ok_or(AllocError)?;
            self.slots
                .reserve_exact(slots.saturating_sub(self.slots.len()))?;
            self.hints.reserve(&self.slots, size)?;
            self.room = size;
        }
        Ok(())
    }

    /// The index of the id. None where it has none. O(1) where one of two looks finds it, else O(log n).
    pub fn find(&self, id: CyclicId) -> Option<Index>
        ensures { result ≡ index_of id self.now.entries }
    {
        match position_of(&self.slots, self.first.base, &self.hints, id) {
            Some(position) => Some(self.slots[position].index_here()),
            None => None,
        }
    }

    /// As `find`, by two looks: as far from the first id as this is above it, and where it was found last. None unless it stands
    /// at one of them. O(1).
    #[inline(always)]
    pub fn soon(&self, id: CyclicId) -> Option<Index>
        ensures some { IfSome result (λ index. index_of id self.now.entries ≡ Some index) }
        ensures none { IfNone result ((first : Entry) → slice_get self.now.entries 0 ≡ Some first → first.id ≤ id
            → ¬ IsAt id_in self.now.entries id (id - first.id)) }
    {
        match quick(&self.slots, self.first.base, &self.hints, id) {
            Some(position) => Some(self.slots[position].index_here()),
            None => None,
        }
    }

    /// As `find`, and the next `soon` of this id finds it while no cyclic comes and no other id has its hint.
    #[cold]
    #[inline(never)]
    pub fn seek(&mut self, id: CyclicId) -> Option<Index>
        ensures value { result ≡ index_of id self.old.entries }
        ensures same { self.new ≡ self.old }
    {
        match sought(&self.slots, &self.hints, id) {
            Ok(position) => {
                self.hints.set(id, position);
                self.slots[position].index()
            }
            Err(_) => None,
        }
    }

    /// Whether the id has an index. O(1) where the id is above all that came, as that of a new cyclic mostly is, else O(log n).
    pub fn has(&self, id: CyclicId) -> bool
        ensures { IsTrue result ↔ IsSome (index_of id self.now.entries) }
    {
        match search_new(&self.slots, id) {
            Ok(position) => self.slots[position].is_here(),
            Err(_) => false,
        }
    }

    /// The smallest id above this one that has an index, or the smallest of all, and its index: the next step of a walk. O(log
    /// n), and the slots of those that are gone are passed by.
    pub fn next_after(&self, passed: Option<CyclicId>) -> Option<(CyclicId, Index)>
        ensures none { IfNone result (All (λ e. IsPassed passed e.id) self.now.entries) }
        ensures some { IfSome result (λ found. (k : ℕ) × IsNextAfter id_in self.now.entries passed k
            × HoldsAt (λ e. e ≡ record { id = found.0; index = found.1 }) self.now.entries k) }
    {
        let from = after(&self.slots, self.first.base, &self.hints, passed).max(
            self.first.position,
        );
        let position = next_here(&self.slots, from);
        if position >= self.slots.len() {
            return None;
        }
        let slot = self.slots[position];
        Some((slot.id(), slot.index_here()))
    }

    /// The id gets the index, which no other id has. Takes no memory. O(log n) on average where the id is above all that came,
    /// where its own slot is still there, or where the slot below it is of one that is gone; else the slots above it are moved,
    /// up to the next of one that is gone or all where none is: O(n).
    #[inline(always)]
    pub fn insert(&mut self, id: CyclicId, index: Index)
        requires absent { index_of id self.old.entries ≡ None }
        requires free { ¬ IsIndexed index self.old.entries }
        requires room { index < self.old.room }
        ensures entries { (k : ℕ) × IsGap id_in self.old.entries id k
            × (self.new.entries ≡ insert self.old.entries k (record { id = id; index = index })) }
        ensures told { (j : ℕ) → index_of j self.new.entries ≡ cond (eqb j id) (Some index) (index_of j self.old.entries) }
        ensures room { self.new.room ≡ self.old.room }
    {
        make_way(&mut self.slots, &mut self.hints, &mut self.first);
        let position = put(&mut self.slots, &mut self.hints, id, index);
        first_with(&self.slots, &mut self.first, position);
    }

    /// The id has no index any more: the answer is the one that it had. No slot is moved. O(1) where one of two looks finds it,
    /// else O(log n); where it was the first that is here, the slots of those that are gone behind it are passed by. Takes no
    /// memory.
    #[inline(always)]
    pub fn remove(&mut self, id: CyclicId) -> Index
        requires { ¬ (index_of id self.old.entries ≡ None) }
        ensures index { index_of id self.old.entries ≡ Some result }
        ensures entries { (k : ℕ) × IsAt id_in self.old.entries id k × (self.new.entries ≡ remove self.old.entries k) }
        ensures told { (j : ℕ) → index_of j self.new.entries ≡ cond (eqb j id) None (index_of j self.old.entries) }
        ensures room { self.new.room ≡ self.old.room }
    {
        let Some(position) = position_of(&self.slots, self.first.base, &self.hints, id) else {
            unreachable!()
        };
        let slot = &mut self.slots[position];
        let index = slot.index_here();
        *slot = Slot::gone(id);
        first_without(&self.slots, &mut self.first, position);
        index
    }
}
