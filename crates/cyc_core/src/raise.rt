//! The firing side of a plain level, as events of the level.

ghost use Rattle.std.specs.Prelude.{◌≡◌, Some};
ghost use Rattle.std.specs.Option.{option_map};
ghost use Rattle.cyc_types.specs.Firing.{Learns, MayRaise, Raises, Sound};
ghost use Rattle.cyc_core.specs.Tables.{level_of, lookup};
ghost use Rattle.cyc_core.specs.FiringSide.{firing_view, FiringDoes};

use crate::level_core::LevelCore;
use cyc_types::{CyclicId, Index, Raise, Raised, Sent};

/// The firing side of a level that no other thread uses: `seen` is the pend.
///
/// The calls are the level's events: `admit` Admit, `raise` Lose, or Expire and from 0 also Publish, `mark` Mark,
/// `poll_clear` Clear where it answers, `expand` Switch.
impl Raise for LevelCore {
    ghost view = { λ core. firing_view (level_of core) };

    ghost step = { λ core call after. FiringDoes (level_of core) call (level_of after) };

    fn law(&self) {
        self.conservation();
    }

    fn admit(&mut self, id: CyclicId, index: Index) {
        // Costs nothing: it tells that the level is lawful.
        self.conservation();
        self.begin_stay(id, index);
    }

    fn load_pend(&mut self, id: CyclicId) -> u32 {
        let entry = self.entry_of(id);
        entry.count
    }

    #[inline(always)]
    fn raise(&mut self, id: CyclicId) -> Raised {
        match self.hinted(id) {
            Some(position) => self.raise_at(id, position),
            None => self.raise_apart(id),
        }
    }

    fn mark(&mut self, id: CyclicId) -> u32 {
        let entry = self.entry_of(id);
        self.begin_removal(id);
        entry.count
    }

    fn poll_clear(&mut self, id: CyclicId) -> Option<Sent> {
        let entry = self.entry_of(id);
        if entry.count > 0 {
            return None;
        }
        self.end_stay(id);
        Some(Sent {
            sent: entry.sent,
            lost: entry.lost,
        })
    }

    fn expand(&mut self, bank: u8) {
        // Costs nothing: it tells that the level is lawful.
        self.conservation();
        self.switch_to(bank);
    }

    fn followed(&mut self) -> bool {
        self.hard_bank == self.soft_bank
    }

    fn sent(&self, id: CyclicId) -> Sent {
        let entry = self.entry_of(id);
        Sent {
            sent: entry.sent,
            lost: entry.lost,
        }
    }
}

impl LevelCore {
    /// `raise` of an id that has this position.
    #[inline(always)]
    fn raise_at(&mut self, id: CyclicId, position: Index) -> Raised
        requires named { option_map (λ entry. entry.position) (lookup id self.old.table) ≡ Some position }
        requires may { MayRaise id (firing_view (level_of self.old)) }
        ensures step { FiringDoes (level_of self.old) (Raises id result) (level_of self.new) }
        ensures learns { Learns (firing_view (level_of self.old)) (Raises id result) (firing_view (level_of self.new)) }
        ensures sound { Sound (firing_view (level_of self.new)) }
    {
        let entry = self.entry_at(id, position);
        let count = entry.count;
        if count == self.ceiling {
            self.lose(entry);
            return Raised::Lost;
        }
        if count > 0 {
            self.expire(entry);
            return Raised::More;
        }
        self.expire(entry);
        self.publish();
        Raised::First
    }

    /// `raise` of an id whose hint is wrong. By a call, so that where it is right the look-up costs no registers.
    #[cold]
    #[inline(never)]
    fn raise_apart(&mut self, id: CyclicId) -> Raised
        requires { MayRaise id (firing_view (level_of self.old)) }
        ensures step { FiringDoes (level_of self.old) (Raises id result) (level_of self.new) }
        ensures learns { Learns (firing_view (level_of self.old)) (Raises id result) (firing_view (level_of self.new)) }
        ensures sound { Sound (firing_view (level_of self.new)) }
    {
        let entry = self.entry_of(id);
        self.raise_at(id, entry.position)
    }
}
