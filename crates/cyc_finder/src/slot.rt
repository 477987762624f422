//! A slot of a finder.

ghost use Rattle.std.specs.Prelude.{◌≡◌, ◌≢◌, Some, None, is_some};
ghost use Rattle.std.specs.Bool.{OnTrue, OnFalse};
ghost use Rattle.cyc_finder.specs.Slots.{IsHereOf};

use crate::sorted::HasId;
use cyc_types::{CyclicId, Index};
use std::marker::Model;

/// A cyclic that came: with its index while it is here, with none once it is gone.
///
/// Its key is twice its id, and one more once it is gone. So keys rise as ids do, and one comparison tells whether the cyclic of
/// an id is here.
#[derive(Clone, Copy)]
pub struct Slot {
    key: u64,
    index: Index,
}

impl Model for Slot {
    ghost use Rattle.std.specs.Prelude.{◌≡◌, ◌*◌, ◌+◌, ◌/◌, ◌%◌, ◌≤◌};
    ghost use Rattle.cyc_types.specs.Limits.{last_id};
    ghost use Rattle.cyc_finder.specs.Slots.{SlotView};
    ghost use Rattle.cyc_finder.specs.Keys.{index_by_key, key_by_index, index_or_0};

    ghost Value = { SlotView };

    ghost view = { λ slot. record { id = slot.key / 2; index = index_by_key slot.key slot.index } };

    ghost invariant = { λ slot. (2 ≤ slot.key) × (slot.key ≤ 2 * last_id + 1) × (slot.key % 2 ≡ 1 → slot.index ≡ 0) };

    ghost inverse = { λ v. record { key = key_by_index v.id v.index; index = index_or_0 v.index } };
}

impl HasId for Slot {
    ghost id_of = { λ slot. slot.id };

    #[inline(always)]
    fn number(&self) -> u64 {
        self.key / 2
    }

    #[inline(always)]
    fn is_up_to(&self, id: CyclicId) -> bool {
        self.key <= 2 * id.number() + 1
    }
}

impl Slot {
    /// That of a cyclic that is here.
    #[inline(always)]
    pub(crate) fn here(id: CyclicId, index: Index) -> Slot
        ensures { result ≡ record { id = id; index = Some index } }
    {
        Slot {
            key: 2 * id.number(),
            index,
        }
    }

    /// That of one that is gone.
    #[inline(always)]
    pub(crate) fn gone(id: CyclicId) -> Slot
        ensures { result ≡ record { id = id; index = None } }
    {
        Slot {
            key: 2 * id.number() + 1,
            index: Index::new(0).unwrap(),
        }
    }

    /// Its id.
    #[inline(always)]
    pub(crate) fn id(self) -> CyclicId
        ensures { result ≡ self.id }
    {
        CyclicId::from_valid(self.key / 2)
    }

    /// Whether its cyclic is here.
    #[inline(always)]
    pub(crate) fn is_here(self) -> bool
        ensures { result ≡ is_some self.index }
    {
        self.key % 2 == 0
    }

    /// Whether its cyclic is here and has this id.
    #[inline(always)]
    pub(crate) fn is_of(self, id: CyclicId) -> bool
        ensures there { OnTrue result (IsHereOf id self) }
        ensures elsewhere { OnFalse result (¬ IsHereOf id self) }
    {
        self.key == 2 * id.number()
    }

    /// The index of a cyclic that is here.
    #[inline(always)]
    pub(crate) fn index_here(self) -> Index
        requires { self.index ≢ None }
        ensures { self.index ≡ Some result }
    {
        self.index
    }

    /// Its index. None once it is gone.
    #[inline(always)]
    pub(crate) fn index(self) -> Option<Index>
        ensures { result ≡ self.index }
    {
        if self.is_here() {
            return Some(self.index);
        }
        None
    }
}
