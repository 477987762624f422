//! The steps of the firing side, one function for each kind.
ghost use Rattle.std.specs.Prelude.{◌≡◌, ◌≢◌, ℕ, ◌+◌, ◌%◌, ◌<◌, ◌≤◌, true, Some, None, IsSome};
ghost use Rattle.cyc_types.specs.Limits.{cyclics, greatest_bank};
ghost use Rattle.cyc_level.specs.Level.{bank_size};
ghost use Rattle.cyc_level.specs.Events.{most_sent};
ghost use Rattle.cyc_level.specs.Lawful.{IsId};
ghost use Rattle.cyc_level.specs.Runs.{StayCounts};
ghost use Rattle.ring_rule.specs.declared.RaiseStep.TheVariants.{Admitted, Loaded, Lost, Added, Stored, Published, Marked};
ghost use Rattle.ring_rule.specs.declared.RaiseStep.TheVariants.{Cleared, Switched, LoadedSoftBank};
ghost use Rattle.ring_rule.specs.Words.{mark_bit, index_range, entry};
ghost use Rattle.ring_rule.specs.Trail.{open_stay, seen_pend, firer_hand_of, marked_of, hard_bank_of, producer_index};
ghost use Rattle.ring_rule.specs.Trail.{stored_entry, has_followed};
ghost use Rattle.ring_steps.specs.Sides.{IsSeatOf, MakesRaiseStep};

use crate::plays::{
    AddPlay, AdmitPlay, ClearPlay, LoadPlay, LoadSoftBankPlay, LoadToRaisePlay, MarkPlay,
    PublishPlay, Served, StorePlay, SwitchPlay,
};
use crate::positions::{HARD, MARK, PRODUCERS, SOFT, buffer_at, pend_at};
use crate::sides::FiringSide;
use crate::words::Words;
use ring_rule::firing_steps;

impl Words {
    /// The load of the pend word of an unused index of the hard bank, which admits the id there. It found 0.
    pub fn admit<J: Served>(&self, side: &mut FiringSide, index: usize)
        requires own { IsSeatOf J.setting self.now side.old.seat }
        requires hand { firer_hand_of side.old.seat.me.0.raise_trail ≡ None }
        requires id { IsId J.id × (open_stay J.id side.old.seat.me.0.raise_trail ≡ None) }
        requires index { (index < cyclics) × (index < bank_size (hard_bank_of side.old.seat.me.0.raise_trail))
            × ((j : ℕ) (s : StayCounts) → open_stay j side.old.seat.me.0.raise_trail ≡ Some s → s.index ≢ index) }
        ensures { MakesRaiseStep J.setting (Admitted J.id index) side.old.seat side.new.seat }
    {
        firing_steps();
        self.table
            .shared
            .load::<AdmitPlay<J>>(&mut side.seat, pend_at(index));
    }

    /// The load of the pend word of an admitted id: its outstanding calls, with the mark.
    pub fn load<J: Served>(&self, side: &mut FiringSide, index: usize) -> u64
        requires own { IsSeatOf J.setting self.now side.old.seat }
        requires stay { (index < cyclics) × ((s : StayCounts) × (open_stay J.id side.old.seat.me.0.raise_trail ≡ Some s)
            × (s.index ≡ index)) }
        ensures bound { result % mark_bit ≤ seen_pend J.id side.old.seat.me.0.raise_trail }
        ensures step { MakesRaiseStep J.setting (Loaded J.id result) side.old.seat side.new.seat }
    {
        firing_steps();
        self.table
            .shared
            .load::<LoadPlay<J>>(&mut side.seat, pend_at(index))
    }

    /// The load of the pend word that begins a raise. Where it found the ceiling the expiration is lost.
    pub fn load_to_raise<J: Served>(&self, side: &mut FiringSide, index: usize) -> u64
        requires own { IsSeatOf J.setting self.now side.old.seat }
        requires hand { firer_hand_of side.old.seat.me.0.raise_trail ≡ None }
        requires unmarked { marked_of side.old.seat.me.0.raise_trail ≢ Some J.id }
        requires stay { (index < cyclics) × ((s : StayCounts) × (open_stay J.id side.old.seat.me.0.raise_trail ≡ Some s)
            × (s.index ≡ index) × (s.sent < most_sent)) }
        ensures bound { (result ≤ seen_pend J.id side.old.seat.me.0.raise_trail) × (result ≤ J.setting.ceiling) }
        ensures lost { result ≡ J.setting.ceiling → MakesRaiseStep J.setting (Lost J.id result) side.old.seat side.new.seat }
        ensures below { result ≢ J.setting.ceiling → MakesRaiseStep J.setting (Loaded J.id result) side.old.seat side.new.seat }
    {
        firing_steps();
        self.table
            .shared
            .load::<LoadToRaisePlay<J>>(&mut side.seat, pend_at(index))
    }

    /// The `fetch_add` of 1 on a pend word that was seen below the ceiling.
    pub fn add<J: Served>(&self, side: &mut FiringSide, index: usize) -> u64
        requires own { IsSeatOf J.setting self.now side.old.seat }
        requires hand { firer_hand_of side.old.seat.me.0.raise_trail ≡ None }
        requires unmarked { marked_of side.old.seat.me.0.raise_trail ≢ Some J.id }
        requires below { seen_pend J.id side.old.seat.me.0.raise_trail < J.setting.ceiling }
        requires stay { (index < cyclics) × ((s : StayCounts) × (open_stay J.id side.old.seat.me.0.raise_trail ≡ Some s)
            × (s.index ≡ index) × (s.sent < most_sent)) }
        ensures bound { result ≤ seen_pend J.id side.old.seat.me.0.raise_trail }
        ensures step { MakesRaiseStep J.setting (Added J.id result) side.old.seat side.new.seat }
    {
        firing_steps();
        self.table
            .shared
            .fetch_add::<AddPlay<J>>(&mut side.seat, pend_at(index), 1)
    }

    /// The store of the hand's entry in the buffer word at the producer index. `mask` is the hard bank's size less one.
    pub fn store<J: Served>(&self, side: &mut FiringSide, mask: u64, next: u32, value: u64)
        requires own { IsSeatOf J.setting self.now side.old.seat }
        requires hand { firer_hand_of side.old.seat.me.0.raise_trail ≡ Some J.id }
        requires bank { (hard_bank_of side.old.seat.me.0.raise_trail ≤ greatest_bank)
            × (mask + 1 ≡ bank_size (hard_bank_of side.old.seat.me.0.raise_trail)) }
        requires next { next ≡ producer_index J.setting.start side.old.seat.me.0.raise_trail % index_range }
        requires value { (s : StayCounts) × (open_stay J.id side.old.seat.me.0.raise_trail ≡ Some s)
            × (value ≡ entry J.id s.index) }
        ensures stored { IsSome (stored_entry side.new.seat.me.0.raise_trail) }
        ensures step { MakesRaiseStep J.setting (Stored value) side.old.seat side.new.seat }
    {
        firing_steps();
        self.table
            .shared
            .store::<StorePlay<J>>(&mut side.seat, buffer_at(mask, next), value);
    }

    /// The store of the hard bank's producer word, one higher, after that of the entry.
    pub fn publish<J: Served>(&self, side: &mut FiringSide, bank: u64, next: u32)
        requires own { IsSeatOf J.setting self.now side.old.seat }
        requires hand { firer_hand_of side.old.seat.me.0.raise_trail ≡ Some J.id }
        requires stored { IsSome (stored_entry side.old.seat.me.0.raise_trail) }
        requires bank { (bank ≡ hard_bank_of side.old.seat.me.0.raise_trail) × (bank ≤ greatest_bank) }
        requires next { next ≡ (producer_index J.setting.start side.old.seat.me.0.raise_trail + 1) % index_range }
        ensures { MakesRaiseStep J.setting (Published next) side.old.seat side.new.seat }
    {
        firing_steps();
        self.table
            .shared
            .store::<PublishPlay<J>>(&mut side.seat, PRODUCERS + bank as usize, next as u64);
    }

    /// The `fetch_add` of the mark on the pend word, where no removal is open.
    pub fn mark<J: Served>(&self, side: &mut FiringSide, index: usize) -> u64
        requires own { IsSeatOf J.setting self.now side.old.seat }
        requires hand { firer_hand_of side.old.seat.me.0.raise_trail ≡ None }
        requires unmarked { marked_of side.old.seat.me.0.raise_trail ≡ None }
        requires stay { (index < cyclics) × ((s : StayCounts) × (open_stay J.id side.old.seat.me.0.raise_trail ≡ Some s)
            × (s.index ≡ index)) }
        ensures bound { result ≤ seen_pend J.id side.old.seat.me.0.raise_trail }
        ensures step { MakesRaiseStep J.setting (Marked J.id result) side.old.seat side.new.seat }
    {
        firing_steps();
        self.table
            .shared
            .fetch_add::<MarkPlay<J>>(&mut side.seat, pend_at(index), MARK)
    }

    /// The store of 0 in the pend word, where the mark was found alone: the stay ends.
    pub fn clear<J: Served>(&self, side: &mut FiringSide, index: usize)
        requires own { IsSeatOf J.setting self.now side.old.seat }
        requires hand { firer_hand_of side.old.seat.me.0.raise_trail ≡ None }
        requires alone { (marked_of side.old.seat.me.0.raise_trail ≡ Some J.id)
            × (seen_pend J.id side.old.seat.me.0.raise_trail ≡ 0) }
        requires stay { (index < cyclics) × ((s : StayCounts) × (open_stay J.id side.old.seat.me.0.raise_trail ≡ Some s)
            × (s.index ≡ index)) }
        ensures { MakesRaiseStep J.setting (Cleared J.id) side.old.seat side.new.seat }
    {
        firing_steps();
        self.table
            .shared
            .store::<ClearPlay<J>>(&mut side.seat, pend_at(index), 0);
    }

    /// The store of a greater hard bank, where the soft side was seen to have followed.
    pub fn switch<J: Served>(&self, side: &mut FiringSide, bank: u64)
        requires own { IsSeatOf J.setting self.now side.old.seat }
        requires hand { firer_hand_of side.old.seat.me.0.raise_trail ≡ None }
        requires followed { has_followed side.old.seat.me.0.raise_trail ≡ true }
        requires bank { (hard_bank_of side.old.seat.me.0.raise_trail < bank) × (bank ≤ greatest_bank) }
        ensures { MakesRaiseStep J.setting (Switched bank) side.old.seat side.new.seat }
    {
        firing_steps();
        self.table
            .shared
            .store::<SwitchPlay<J>>(&mut side.seat, HARD, bank);
    }

    /// The load of the soft bank. What was seen to have followed has still followed.
    pub fn load_soft_bank<J: Served>(&self, side: &mut FiringSide) -> u64
        requires own { IsSeatOf J.setting self.now side.old.seat }
        ensures followed { has_followed side.old.seat.me.0.raise_trail ≡ true
            → result ≡ hard_bank_of side.old.seat.me.0.raise_trail }
        ensures step { MakesRaiseStep J.setting (LoadedSoftBank result) side.old.seat side.new.seat }
    {
        firing_steps();
        self.table
            .shared
            .load::<LoadSoftBankPlay<J>>(&mut side.seat, SOFT)
    }
}
