//! The events of a plain level, one function for each.

ghost use Rattle.std.specs.Prelude.{◌≡◌, ◌≢◌, ℕ, ◌+◌, ◌<◌, ◌≤◌, ◌↔◌, ◌==◌, Some, None, IsTrue, IsOk, OnOk, OnErr, IfErr, IsSome};
ghost use Rattle.std.specs.Prelude.{IsSomeAnd, slice_get, take, []};
ghost use Rattle.std.specs.List.{FoldsTo};
ghost use Rattle.cyc_level.specs.declared.Event.TheVariants.{Admit, Expire, Lose, Publish, Take, Finish, Mark, Clear, Switch};
ghost use Rattle.cyc_level.specs.declared.Event.TheVariants.{Follow};
ghost use Rattle.cyc_level.specs.Level.{count, soft_list};
ghost use Rattle.cyc_level.specs.Events.{Enabled, IsUnused, after};
ghost use Rattle.cyc_core.specs.Tables.{level_of, lookup};
ghost use Rattle.cyc_core.specs.Reached.{Happens};

use crate::admitted::{Admitted, Kept, free_position, is_index_kept};
use crate::level_core::{LevelCore, set_hint};
use cyc_level::Event;
use cyc_types::{CyclicId, GREATEST_BANK, Index};
use thiserror::Error;

/// The event is not enabled.
#[derive(Clone, Copy, Debug, PartialEq, Eq, Error)]
#[error("the event is not enabled")]
pub struct NotEnabled;

/// The position of the first event of a list, counted from 0, that was not enabled when its turn came.
#[derive(Clone, Copy, Debug, PartialEq, Eq, Error)]
#[error("event {0} is not enabled")]
pub struct NotEnabledAt(pub usize);

// What each event changes, where it is enabled.
impl LevelCore {
    pub(crate) fn begin_stay(&mut self, id: CyclicId, index: Index)
        requires { Enabled (Admit id index) (level_of self.old) }
        ensures { level_of self.new ≡ after (Admit id index) (level_of self.old) }
    {
        let position = free_position(&mut self.kept, &mut self.free);
        self.ids.insert(id, position);
        self.kept[position.number() as usize] = Kept {
            id,
            sent: 0,
            lost: 0,
            count: 0,
            index,
            here: true,
        };
        set_hint(&mut self.hints, id, position);
    }

    pub(crate) fn expire(&mut self, entry: Admitted)
        requires here { lookup entry.id self.old.table ≡ Some entry }
        requires enabled { Enabled (Expire entry.id) (level_of self.old) }
        ensures { level_of self.new ≡ after (Expire entry.id) (level_of self.old) }
    {
        let kept = &mut self.kept[entry.position.number() as usize];
        kept.sent = entry.sent + 1;
        kept.count = entry.count + 1;
        self.firer_hand = (entry.count == 0).then_some(entry.id);
    }

    pub(crate) fn lose(&mut self, entry: Admitted)
        requires here { lookup entry.id self.old.table ≡ Some entry }
        requires enabled { Enabled (Lose entry.id) (level_of self.old) }
        ensures { level_of self.new ≡ after (Lose entry.id) (level_of self.old) }
    {
        prove!(entry.count == self.ceiling);
        let kept = &mut self.kept[entry.position.number() as usize];
        kept.sent = entry.sent + 1;
        kept.lost = entry.lost + 1;
    }

    pub(crate) fn publish(&mut self)
        requires { Enabled Publish (level_of self.old) }
        ensures { level_of self.new ≡ after Publish (level_of self.old) }
    {
        if let Some(id) = self.firer_hand {
            self.new_list.push_back_reserved(id);
            self.firer_hand = None;
        }
    }

    pub(crate) fn take_first(&mut self)
        requires { Enabled Take (level_of self.old) }
        ensures { level_of self.new ≡ after Take (level_of self.old) }
    {
        if self.hard_bank == self.soft_bank {
            self.drainer_hand = self.new_list.pop_front();
            return;
        }
        self.drainer_hand = self.old_list.pop_front();
    }

    #[inline(always)]
    pub(crate) fn finish_call(&mut self, entry: Admitted)
        requires here { lookup entry.id self.old.table ≡ Some entry }
        requires hand { self.old.drainer_hand ≡ Some entry.id }
        ensures { level_of self.new ≡ after Finish (level_of self.old) }
    {
        let kept = &mut self.kept[entry.position.number() as usize];
        kept.count = entry.count - 1;
        self.drainer_hand = (entry.count != 1).then_some(entry.id);
    }

    pub(crate) fn begin_removal(&mut self, id: CyclicId)
        requires { Enabled (Mark id) (level_of self.old) }
        ensures { level_of self.new ≡ after (Mark id) (level_of self.old) }
    {
        self.marked = Some(id);
    }

    pub(crate) fn end_stay(&mut self, id: CyclicId)
        requires { Enabled (Clear id) (level_of self.old) }
        ensures { level_of self.new ≡ after (Clear id) (level_of self.old) }
    {
        let position = self.ids.remove(id);
        self.kept[position.number() as usize].here = false;
        self.free.push_reserved(position);
        self.marked = None;
    }

    pub(crate) fn switch_to(&mut self, bank: u8)
        requires { Enabled (Switch bank) (level_of self.old) }
        ensures { level_of self.new ≡ after (Switch bank) (level_of self.old) }
    {
        std::mem::swap(&mut self.old_list, &mut self.new_list);
        self.hard_bank = bank;
    }

    pub(crate) fn follow(&mut self)
        requires { Enabled Follow (level_of self.old) }
        ensures { level_of self.new ≡ after Follow (level_of self.old) }
    {
        self.soft_bank = self.hard_bank;
    }
}

// Whether an event is enabled.
impl LevelCore {
    fn may_admit(&self, id: CyclicId, index: Index) -> bool
        ensures { IsTrue result ↔ Enabled (Admit id index) (level_of self.now) }
    {
        if self.firer_hand.is_some() || self.find(id).is_some() {
            return false;
        }
        let slots: u32 = 1 << self.hard_bank;
        u32::from(index.number()) < slots && !is_index_kept(&self.kept, index)
    }

    fn may_expire(&self, id: CyclicId) -> bool
        ensures { IsTrue result ↔ Enabled (Expire id) (level_of self.now) }
    {
        if self.firer_hand.is_some() || self.marked == Some(id) {
            return false;
        }
        match self.find(id) {
            Some(entry) => entry.count < self.ceiling && entry.sent < u64::MAX,
            None => false,
        }
    }

    fn may_lose(&self, id: CyclicId) -> bool
        ensures { IsTrue result ↔ Enabled (Lose id) (level_of self.now) }
    {
        if self.firer_hand.is_some() || self.marked == Some(id) {
            return false;
        }
        match self.find(id) {
            Some(entry) => entry.count == self.ceiling && entry.sent < u64::MAX,
            None => false,
        }
    }

    /// Whether the list that the soft side empties is empty.
    pub(crate) fn is_soft_list_empty(&self) -> bool
        ensures { IsTrue result ↔ (soft_list (level_of self.now) ≡ []) }
    {
        if self.hard_bank == self.soft_bank {
            return self.new_list.is_empty();
        }
        self.old_list.is_empty()
    }

    fn may_mark(&self, id: CyclicId) -> bool
        ensures { IsTrue result ↔ Enabled (Mark id) (level_of self.now) }
    {
        self.firer_hand.is_none() && self.marked.is_none() && self.find(id).is_some()
    }

    fn may_clear(&self, id: CyclicId) -> bool
        ensures { IsTrue result ↔ Enabled (Clear id) (level_of self.now) }
    {
        if self.firer_hand.is_some() || self.marked != Some(id) {
            return false;
        }
        match self.find(id) {
            Some(entry) => entry.count == 0,
            None => true,
        }
    }

    fn may_switch(&self, bank: u8) -> bool
        ensures { IsTrue result ↔ Enabled (Switch bank) (level_of self.now) }
    {
        self.firer_hand.is_none()
            && self.hard_bank == self.soft_bank
            && self.hard_bank < bank
            && bank <= GREATEST_BANK
    }

    fn is_enabled(&self, event: &Event) -> bool
        ensures { IsTrue result ↔ Enabled event.now (level_of self.now) }
    {
        match event {
            Event::Admit(id, index) => self.may_admit(*id, *index),
            Event::Expire(id) => self.may_expire(*id),
            Event::Lose(id) => self.may_lose(*id),
            Event::Publish => self.firer_hand.is_some(),
            Event::Take => self.drainer_hand.is_none() && !self.is_soft_list_empty(),
            Event::Finish => self.drainer_hand.is_some(),
            Event::Mark(id) => self.may_mark(*id),
            Event::Clear(id) => self.may_clear(*id),
            Event::Switch(bank) => self.may_switch(*bank),
            Event::Follow => self.hard_bank != self.soft_bank && self.old_list.is_empty(),
        }
    }
}

impl LevelCore {
    fn make(&mut self, event: Event)
        requires { Enabled event (level_of self.old) }
        ensures { level_of self.new ≡ after event (level_of self.old) }
    {
        match event {
            Event::Admit(id, index) => self.begin_stay(id, index),
            Event::Expire(id) => {
                let entry = self.entry_of(id);
                self.expire(entry);
            }
            Event::Lose(id) => {
                let entry = self.entry_of(id);
                self.lose(entry);
            }
            Event::Publish => self.publish(),
            Event::Take => self.take_first(),
            Event::Finish => {
                if let Some(id) = self.drainer_hand {
                    let entry = self.entry_of(id);
                    self.finish_call(entry);
                }
            }
            Event::Mark(id) => self.begin_removal(id),
            Event::Clear(id) => self.end_stay(id),
            Event::Switch(bank) => self.switch_to(bank),
            Event::Follow => self.follow(),
        }
    }

    /// Makes one event, where it is enabled; else nothing changes. O(n) for Admit.
    pub fn step(&mut self, event: Event) -> Result<(), NotEnabled>
        ensures enabled { IsOk result ↔ Enabled event (level_of self.old) }
        ensures ok { OnOk result (level_of self.new ≡ after event (level_of self.old)) }
        ensures err { OnErr result (self.new ≡ self.old) }
    {
        if !self.is_enabled(&event) {
            return Err(NotEnabled);
        }
        self.make(event);
        Ok(())
    }

    /// Makes the events in order, up to the first that is not enabled. The events before that one have happened. O(n) for each
    /// Admit.
    pub fn apply(&mut self, events: &[Event]) -> Result<(), NotEnabledAt>
        ensures ok { OnOk result (FoldsTo Happens (level_of self.old) events.now (level_of self.new)) }
        ensures before { IfErr result (λ at. FoldsTo Happens (level_of self.old) (take at.0 events.now) (level_of self.new)) }
        ensures first { IfErr result (λ at. IsSomeAnd (slice_get events.now at.0)
            (λ event. ¬ (Enabled event (level_of self.new)))) }
    {
        for (at, event) in events.iter().enumerate() {
            if self.step(*event).is_err() {
                return Err(NotEnabledAt(at));
            }
        }
        Ok(())
    }
}
