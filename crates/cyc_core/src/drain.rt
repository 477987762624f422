//! The soft side of a plain level, as events of the level.

ghost use Rattle.std.specs.Prelude.{◌≡◌, ℕ, ◌+◌, Some, IfSome};
ghost use Rattle.std.specs.Option.{option_map};
ghost use Rattle.cyc_types.specs.Draining.{Finishes, hand_after, one_of};
ghost use Rattle.cyc_core.specs.Tables.{level_of, lookup};
ghost use Rattle.cyc_core.specs.DrainingSide.{held_of, done_of, Drains};

use crate::level_core::LevelCore;
use cyc_types::{CyclicId, Drain, Finished, Index};

/// The soft side of a level that no other thread uses: `made` is the number of calls done in the present stay.
///
/// The calls are the level's events: `take` Take, or Follow and, where the new list has a cyclic, Take; `finish` Finish.
impl Drain for LevelCore {
    ghost held = { λ core. held_of (level_of core) };

    ghost made = { λ core. done_of (level_of core) };

    ghost step = { λ core call after. Drains (level_of core) call (level_of after) };

    #[inline(always)]
    fn hand(&self) -> Option<CyclicId> {
        self.drainer_hand
    }

    #[inline(always)]
    fn take(&mut self) -> Option<CyclicId> {
        if self.hard_bank != self.soft_bank {
            if !self.old_list.is_empty() {
                self.take_first();
                return self.drainer_hand;
            }
            self.follow();
        }
        if self.is_soft_list_empty() {
            return None;
        }
        self.take_first();
        self.drainer_hand
    }

    #[inline(always)]
    fn finish(&mut self) -> Finished {
        let Some(id) = self.drainer_hand else {
            unreachable!()
        };
        match self.hinted(id) {
            Some(position) => self.finish_at(id, position),
            None => self.finish_apart(id),
        }
    }
}

impl LevelCore {
    /// `finish` of the id in hand, which has this position.
    #[inline(always)]
    fn finish_at(&mut self, id: CyclicId, position: Index) -> Finished
        requires named { option_map (λ entry. entry.position) (lookup id self.old.table) ≡ Some position }
        requires hand { self.old.drainer_hand ≡ Some id }
        ensures step { IfSome (held_of (level_of self.old))
            (λ held. Drains (level_of self.old) (Finishes held result) (level_of self.new)) }
        ensures hand { held_of (level_of self.new) ≡ hand_after result (held_of (level_of self.old)) }
        ensures made { (other : ℕ) → done_of (level_of self.new) other
            ≡ done_of (level_of self.old) other + one_of other (held_of (level_of self.old)) }
    {
        let entry = self.entry_at(id, position);
        self.finish_call(entry);
        if self.drainer_hand.is_some() {
            return Finished::More;
        }
        if self.marked == Some(id) {
            return Finished::LastOfRemoval;
        }
        Finished::Last
    }

    /// `finish` of an id whose hint is wrong. By a call, so that where it is right the look-up costs no registers.
    #[cold]
    #[inline(never)]
    fn finish_apart(&mut self, id: CyclicId) -> Finished
        requires { self.old.drainer_hand ≡ Some id }
        ensures step { IfSome (held_of (level_of self.old))
            (λ held. Drains (level_of self.old) (Finishes held result) (level_of self.new)) }
        ensures hand { held_of (level_of self.new) ≡ hand_after result (held_of (level_of self.old)) }
        ensures made { (other : ℕ) → done_of (level_of self.new) other
            ≡ done_of (level_of self.old) other + one_of other (held_of (level_of self.old)) }
    {
        // Costs nothing: it tells that the level is lawful.
        self.conservation();
        let entry = self.entry_of(id);
        self.finish_at(id, entry.position)
    }
}
