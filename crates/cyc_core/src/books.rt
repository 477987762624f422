//! The books of a level: what became of each cyclic's expirations.

ghost use Rattle.std.specs.Prelude.{◌≡◌, ℕ, ◌+◌, ◌<◌, ◌↔◌, ◌==◌, Some, IfSome, IsSome};
ghost use Rattle.std.specs.List.{list_any};
ghost use Rattle.cyc_level.specs.Level.{count};
ghost use Rattle.cyc_core.specs.Tables.{level_of};
ghost use Rattle.cyc_core.specs.Showing.{books_of, StandsAt};

use crate::level_core::LevelCore;
use cyc_types::CyclicId;
use std::collections::VecDeque;

/// The books of one admitted cyclic. `sent` is always the sum of the other four.
#[derive(Clone, Copy, Debug, PartialEq, Eq)]
pub struct Books {
    /// The expirations of the present stay.
    pub sent: u64,
    /// The calls that are done.
    pub done: u64,
    /// The calls outstanding, with the one in hand; 0 where the cyclic is marked for removal.
    pub pending: u32,
    /// The calls outstanding of a cyclic that is marked for removal; else 0.
    pub kept: u32,
    /// The expirations that were lost at the ceiling.
    pub lost: u64,
}

/// Where a cyclic with calls outstanding stands.
#[derive(Clone, Copy, Debug, PartialEq, Eq)]
pub enum Place {
    /// Between its raise and its slot in the buffer.
    FirerHand,
    /// In the bank that the firing side has left.
    OldBank,
    /// In the bank that the firing side fills.
    NewBank,
    /// In the soft interrupt's hand.
    DrainerHand,
}

/// Whether the id stands in the list.
fn stands_in(list: &VecDeque<CyclicId>, id: CyclicId) -> bool
    ensures { result ≡ list_any (λ other. other == id) list.now.items }
{
    list.contains(&id)
}

impl LevelCore {
    /// The books of an admitted cyclic. None for an id that is not admitted.
    pub fn books(&self, id: CyclicId) -> Option<Books>
        ensures books { result ≡ books_of (level_of self.now) id }
        ensures conserved { IfSome result (λ b. b.sent ≡ b.done + b.pending + b.kept + b.lost) }
    {
        let entry = self.find(id)?;
        let (pending, kept) = if self.marked == Some(id) {
            (0, entry.count)
        } else {
            (entry.count, 0)
        };
        Some(Books {
            sent: entry.sent,
            done: entry.done,
            pending,
            kept,
            lost: entry.lost,
        })
    }

    /// Where the cyclic stands, where calls of it are outstanding; else None. It walks along the two lists.
    pub fn place(&self, id: CyclicId) -> Option<Place>
        ensures place { (place : Place) → (result ≡ Some place) ↔ StandsAt (level_of self.now) id place }
        ensures outstanding { IsSome result ↔ (0 < count (level_of self.now) id) }
    {
        if self.firer_hand == Some(id) {
            return Some(Place::FirerHand);
        }
        if self.drainer_hand == Some(id) {
            return Some(Place::DrainerHand);
        }
        if stands_in(&self.old_list, id) {
            return Some(Place::OldBank);
        }
        if stands_in(&self.new_list, id) {
            return Some(Place::NewBank);
        }
        None
    }
}
