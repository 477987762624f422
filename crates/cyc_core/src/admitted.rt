//! What a level keeps of an admitted cyclic.

ghost use Rattle.std.specs.Prelude.{◌≡◌, ◌↔◌, ℕ, ◌+◌, ◌≤◌, ◌<◌, length, slice_index_or, vec_capacity, Some, IsTrue, [], ◌∷◌};
ghost use Rattle.std.specs.List.{list_any};
ghost use Rattle.cyc_types.specs.Limits.{cyclics};
ghost use Rattle.cyc_core.specs.Shown.{nothing_kept, kept_id, read_as, has_index, FreePositions};

use cyc_types::{CyclicId, Index};

/// An admitted cyclic with its counts, as it is read, and the position at which it is kept.
#[derive(Clone, Copy)]
pub struct Admitted {
    pub id: CyclicId,
    pub index: Index,
    pub position: Index,
    pub sent: u64,
    pub done: u64,
    pub lost: u64,
    pub count: u32,
}

/// What is kept at a position: the cyclic that was admitted to it last, and whether it is here still. What is neither
/// outstanding nor lost of its expirations is done. 32 bytes.
#[derive(Clone, Copy)]
pub(crate) struct Kept {
    pub(crate) id: CyclicId,
    pub(crate) sent: u64,
    pub(crate) lost: u64,
    pub(crate) count: u32,
    pub(crate) index: Index,
    pub(crate) here: bool,
}

impl Kept {
    /// What stands at a position to which none was admitted yet.
    fn nothing() -> Kept
        ensures { result ≡ nothing_kept }
    {
        Kept {
            id: CyclicId::last(),
            sent: 0,
            lost: 0,
            count: 0,
            index: Index::new(0).unwrap(),
            here: false,
        }
    }

    /// The cyclic with its counts, as one of this id at this position.
    #[inline(always)]
    pub(crate) fn read(&self, id: CyclicId, position: Index) -> Admitted
        requires { self.now.count + self.now.lost ≤ self.now.sent }
        ensures { result ≡ read_as id position self.now }
    {
        Admitted {
            id,
            index: self.index,
            position,
            sent: self.sent,
            done: self.sent - u64::from(self.count) - self.lost,
            lost: self.lost,
            count: self.count,
        }
    }

    /// Whether a cyclic of this index is here.
    fn has_index(&self, index: Index) -> bool
        ensures { result ≡ has_index index self.now }
    {
        self.here && self.index.number() == index.number()
    }
}

/// Whether the cyclic of this id is kept at this position. O(1).
#[inline(always)]
pub(crate) fn is_kept_at(kept: &[Kept], position: Index, id: CyclicId) -> bool
    ensures { IsTrue result ↔ (kept_id (slice_index_or kept.now position nothing_kept) ≡ Some id) }
{
    match kept.get(position.number() as usize) {
        Some(there) => there.id.number() == id.number() && there.here,
        None => false,
    }
}

/// Whether a cyclic of this index is kept. O(n).
pub(crate) fn is_index_kept(kept: &[Kept], index: Index) -> bool
    ensures { result ≡ list_any (has_index index) kept.now }
{
    kept.iter().any(|there| there.has_index(index))
}

/// A position at which no cyclic is kept: the one that was left last, or one more. It takes no memory.
pub(crate) fn free_position(kept: &mut Vec<Kept>, free: &mut Vec<Index>) -> Index
    requires free { FreePositions kept.old.items free.old.items }
    requires more { free.old.items ≡ [] → length kept.old.items < cyclics }
    requires room { cyclics ≤ vec_capacity kept.old }
    ensures free { FreePositions kept.new.items (result ∷ free.new.items) }
    ensures same { (p : ℕ) → slice_index_or kept.new.items p nothing_kept ≡ slice_index_or kept.old.items p nothing_kept }
    ensures kept_room { vec_capacity kept.new ≡ vec_capacity kept.old }
    ensures free_room { vec_capacity free.new ≡ vec_capacity free.old }
{
    if let Some(position) = free.pop() {
        return position;
    }
    let position = Index::new(kept.len() as u16).unwrap();
    kept.push_reserved(Kept::nothing());
    position
}
