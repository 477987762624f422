//! One soft level as a plain object, and the laws that hold of it at any time.

ghost use Rattle.std.specs.Prelude.{◌≡◌, ℕ, ◌<◌, ◌≤◌, IfOk, IfErr, IfSome, IsSome, Some, [], length};
ghost use Rattle.std.specs.Option.{option_map};
ghost use Rattle.cyc_types.specs.Limits.{cyclics};
ghost use Rattle.cyc_level.specs.Level.{empty_level};
ghost use Rattle.cyc_level.specs.Lawful.{Lawful};
ghost use Rattle.cyc_level.specs.Conservation.{IsConserved};
ghost use Rattle.cyc_finder.specs.Indexes.{index_of};
ghost use Rattle.cyc_core.specs.Tables.{cyclic_of_entry, level_of, lookup};
ghost use Rattle.cyc_core.specs.Reached.{LevelIsReached};
ghost use Rattle.cyc_core.specs.Shown.{level_hint};

use crate::admitted::{Admitted, Kept, is_kept_at};
use cyc_finder::Finder;
use cyc_types::{CYCLICS, Ceiling, CyclicId, Index, Refusal};
use std::alloc::{AllocError, Global};
use std::collections::VecDeque;
use std::marker::Model;

/// One soft level, with all its memory taken when it is made.
///
/// Each admitted cyclic is kept at a position of its own, and a finder says which position an id has. So one that is admitted
/// or leaves moves no other's counts: both are `insert` and `remove` of `Finder`, O(log n) on average where ids rise. A
/// position that was left is taken again, so the cyclics of a level stand side by side, whatever their indexes on the CPU: few
/// lines of a cache hold them. A raise and a finish find their cyclic by one look where its hint is right.
///
/// Contracts see it as its tables, and `level_of` gives the level that they show.
#[derive(Drop)]
pub struct LevelCore {
    pub(crate) ceiling: u32,
    pub(crate) hard_bank: u8,
    pub(crate) soft_bank: u8,
    // The cyclics at their positions. One whose cyclic left says so, and stays.
    pub(crate) kept: Vec<Kept>,
    // The positions that were left, of which the last is taken first.
    pub(crate) free: Vec<Index>,
    // The position of each admitted id.
    pub(crate) ids: Finder,
    pub(crate) marked: Option<CyclicId>,
    pub(crate) firer_hand: Option<CyclicId>,
    pub(crate) old_list: VecDeque<CyclicId>,
    pub(crate) new_list: VecDeque<CyclicId>,
    pub(crate) drainer_hand: Option<CyclicId>,
    // The position of the id of these low bits that was admitted last. Another may have these bits too, and it may have left, so
    // each look is checked. They stand in memory of their own, so that a level that is moved copies little.
    pub(crate) hints: Vec<Index>,
}

impl Model for LevelCore {
    ghost use Rattle.cyc_core.specs.Tables.{Tables};

    ghost Value = { Tables };

    ghost use Rattle.cyc_core.specs.Shown.{shown_core, IsSoundCore};

    ghost view = { shown_core };

    ghost invariant = { IsSoundCore };
}

/// Where the hint of an id stands: at its low bits, with those above them added, so that ids that are 4,096 apart have hints of
/// their own too.
#[inline(always)]
fn hint_of(id: CyclicId) -> usize
    ensures at { result ≡ level_hint id }
    ensures low { result < cyclics }
{
    let number = id.number();
    let hints = u64::from(CYCLICS);
    ((number + number / hints) % hints) as usize
}

/// The id was admitted to this position.
#[inline(always)]
pub(crate) fn set_hint(hints: &mut [Index], id: CyclicId, position: Index)
    requires { length hints.old ≡ cyclics }
{
    hints[hint_of(id)] = position;
}

/// As many hints as there may be cyclics, which say nothing yet.
#[cold]
#[inline(never)]
fn no_hints(alloc: Global) -> Result<Vec<Index>, AllocError>
    ensures { IfOk result (λ hints. length hints.items ≡ cyclics) }
{
    let first = Index::new(0).unwrap();
    let mut hints = Vec::new(alloc);
    hints.resize(usize::from(CYCLICS), first)?;
    Ok(hints)
}

/// A finder with room for `CYCLICS` ids. By a call, as `no_hints`.
#[cold]
#[inline(never)]
fn no_ids(alloc: Global) -> Result<Finder, AllocError>
    ensures { IfOk result (λ finder. (finder.entries ≡ []) × (cyclics ≤ finder.room)) }
{
    let mut ids = Finder::new(alloc)?;
    ids.reserve(usize::from(CYCLICS))?;
    Ok(ids)
}

/// As `find` of the finder, where a hint was wrong, which mostly is right. By a call that is lent the finder alone, so that what
/// makes it keeps neither registers nor the level's other fields for it.
#[cold]
#[inline(never)]
fn find_apart(ids: &Finder, id: CyclicId) -> Option<Index>
    ensures { result ≡ index_of id ids.now.entries }
{
    ids.find(id)
}

impl LevelCore {
    /// An empty level with both banks 0 and this ceiling.
    ///
    /// It takes room for `CYCLICS` admitted cyclics, 32 bytes each, for the positions that they leave, 2 bytes each, for a
    /// finder of as many ids (`Finder::reserve`), for two lists of as many, 8 bytes each, and for the hints; no other call takes
    /// memory. Of cyclics, positions and lists it writes nothing yet. Refuses Memory alone.
    pub fn new(alloc: Global, ceiling: Ceiling) -> Result<LevelCore, Refusal>
        ensures ok { IfOk result (λ core. level_of core ≡ empty_level ceiling) }
        ensures err { IfErr result (λ refusal. refusal ≡ Refusal.Memory) }
    {
        let room = usize::from(CYCLICS);
        Ok(LevelCore {
            ceiling: ceiling.calls(),
            hard_bank: 0,
            soft_bank: 0,
            kept: Vec::with_capacity(alloc, room)?,
            free: Vec::with_capacity(alloc, room)?,
            ids: no_ids(alloc)?,
            marked: None,
            firer_hand: None,
            old_list: VecDeque::with_capacity(alloc, room)?,
            new_list: VecDeque::with_capacity(alloc, room)?,
            drainer_hand: None,
            hints: no_hints(alloc)?,
        })
    }

    /// The conservation theorem of one level, as a call that does nothing: at any time the level is one that enabled events
    /// reached from the empty one, so it keeps every law of such levels.
    pub fn conservation(&self)
        ensures reached { LevelIsReached (level_of self.now) }
        ensures lawful { Lawful (level_of self.now) }
        ensures conserved { IsConserved (level_of self.now) }
        ensures some_ceiling { 0 < self.now.ceiling }
    {
        let _ceiling = &self.ceiling;
    }

    /// The position of the id, where its hint is right, as it is until another id of its low bits is admitted. O(1).
    #[inline(always)]
    pub(crate) fn hinted(&self, id: CyclicId) -> Option<Index>
        ensures { IfSome result (λ position. option_map (λ entry. entry.position) (lookup id self.now.table) ≡ Some position) }
    {
        let hint = self.hints[hint_of(id)];
        if is_kept_at(&self.kept, hint, id) {
            return Some(hint);
        }
        None
    }

    /// The position of the id, where it is admitted. O(1) where its hint is right, else as `Finder::find`.
    #[inline(always)]
    pub(crate) fn search(&self, id: CyclicId) -> Option<Index>
        ensures { result ≡ option_map (λ entry. entry.position) (lookup id self.now.table) }
    {
        match self.hinted(id) {
            Some(position) => Some(position),
            None => find_apart(&self.ids, id),
        }
    }

    /// The entry of an admitted id, which has this position.
    #[inline(always)]
    pub(crate) fn entry_at(&self, id: CyclicId, position: Index) -> Admitted
        requires { option_map (λ entry. entry.position) (lookup id self.now.table) ≡ Some position }
        ensures here { lookup id self.now.table ≡ Some result }
        ensures cyclic { (level_of self.now).cyclics id ≡ Some (cyclic_of_entry result) }
        ensures id { result.id ≡ id }
        ensures lawful { Lawful (level_of self.now) }
        ensures some_ceiling { 0 < self.now.ceiling }
    {
        self.kept[position.number() as usize].read(id, position)
    }

    /// The entry of the id, where it is admitted.
    pub(crate) fn find(&self, id: CyclicId) -> Option<Admitted>
        ensures cyclic { option_map cyclic_of_entry result ≡ (level_of self.now).cyclics id }
        ensures lawful { Lawful (level_of self.now) }
    {
        // Costs nothing: it tells that the level is lawful.
        self.conservation();
        match self.search(id) {
            Some(position) => Some(self.entry_at(id, position)),
            None => None,
        }
    }

    /// The entry of an admitted id.
    #[inline(always)]
    pub(crate) fn entry_of(&self, id: CyclicId) -> Admitted
        requires { IsSome (lookup id self.now.table) }
        ensures here { lookup id self.now.table ≡ Some result }
        ensures cyclic { (level_of self.now).cyclics id ≡ Some (cyclic_of_entry result) }
        ensures id { result.id ≡ id }
        ensures lawful { Lawful (level_of self.now) }
        ensures some_ceiling { 0 < self.now.ceiling }
    {
        let Some(position) = self.search(id) else {
            unreachable!()
        };
        self.entry_at(id, position)
    }
}
