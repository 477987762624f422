//! The steps of the soft side, one function for each kind.
ghost use Rattle.std.specs.Prelude.{◌≡◌, ◌≢◌, ℕ, ◌+◌, ◌%◌, ◌<◌, ◌≤◌, Some, None};
ghost use Rattle.cyc_types.specs.Limits.{greatest_bank};
ghost use Rattle.cyc_level.specs.Level.{bank_size};
ghost use Rattle.cyc_level.specs.Lawful.{IsId};
ghost use Rattle.ring_rule.specs.declared.DrainStep.TheVariants.{LoadedHardBank, LoadedProducer, Took, Subtracted, Followed};
ghost use Rattle.ring_rule.specs.Words.{mark_bit, index_range, entry_id, entry_index};
ghost use Rattle.ring_rule.specs.Trail.{held_entry, soft_bank_of, consumer_index, producer_seen, bank_seen};
ghost use Rattle.ring_steps.specs.Sides.{IsSeatOf, MakesDrainStep};

use crate::plays::{
    FollowPlay, LoadHardBankPlay, LoadProducerPlay, Served, SubtractPlay, TakePlay,
};
use crate::positions::{HARD, PRODUCERS, SOFT, buffer_at, pend_at};
use crate::sides::SoftSide;
use crate::words::Words;
use ring_rule::soft_steps;

impl Words {
    /// The load of the hard bank.
    pub fn load_hard_bank<J: Served>(&self, side: &mut SoftSide) -> u64
        requires own { IsSeatOf J.setting self.now side.old.seat }
        ensures bound { (soft_bank_of side.old.seat.me.0.drain_trail ≤ result) × (result ≤ greatest_bank) }
        ensures step { MakesDrainStep J.setting (LoadedHardBank result) side.old.seat side.new.seat }
    {
        soft_steps();
        self.table
            .shared
            .load::<LoadHardBankPlay<J>>(&mut side.seat, HARD)
    }

    /// The load of the producer word of the soft side's bank.
    pub fn load_producer<J: Served>(&self, side: &mut SoftSide, bank: u64) -> u64
        requires own { IsSeatOf J.setting self.now side.old.seat }
        requires bank { (bank ≡ soft_bank_of side.old.seat.me.0.drain_trail) × (bank ≤ greatest_bank) }
        ensures { MakesDrainStep J.setting (LoadedProducer result) side.old.seat side.new.seat }
    {
        soft_steps();
        self.table
            .shared
            .load::<LoadProducerPlay<J>>(&mut side.seat, PRODUCERS + bank as usize)
    }

    /// The load of the buffer word at the consumer index, which takes its entry. `mask` is the soft side's bank's size less one.
    pub fn take<J: Served>(&self, side: &mut SoftSide, mask: u64, next: u32) -> u64
        requires own { IsSeatOf J.setting self.now side.old.seat }
        requires hand { held_entry side.old.seat.me.0.drain_trail ≡ None }
        requires more { (end : ℕ) × (producer_seen side.old.seat.me.0.drain_trail ≡ Some end) × (end ≢ next) }
        requires bank { (soft_bank_of side.old.seat.me.0.drain_trail ≤ greatest_bank)
            × (mask + 1 ≡ bank_size (soft_bank_of side.old.seat.me.0.drain_trail)) }
        requires next { next ≡ consumer_index J.setting.start side.old.seat.me.0.drain_trail % index_range }
        ensures named { IsId (entry_id result) }
        ensures step { MakesDrainStep J.setting (Took result) side.old.seat side.new.seat }
    {
        soft_steps();
        self.table
            .shared
            .load::<TakePlay<J>>(&mut side.seat, buffer_at(mask, next))
    }

    /// The store of the soft bank, after the old bank was found empty and another hard bank before that.
    pub fn follow<J: Served>(&self, side: &mut SoftSide, bank: u64)
        requires own { IsSeatOf J.setting self.now side.old.seat }
        requires bank { (bank_seen side.old.seat.me.0.drain_trail ≡ Some bank)
            × (bank ≢ soft_bank_of side.old.seat.me.0.drain_trail) }
        requires empty { (end : ℕ) × (producer_seen side.old.seat.me.0.drain_trail ≡ Some end)
            × (end ≡ consumer_index J.setting.start side.old.seat.me.0.drain_trail % index_range) }
        ensures { MakesDrainStep J.setting (Followed bank) side.old.seat side.new.seat }
    {
        soft_steps();
        self.table
            .shared
            .store::<FollowPlay<J>>(&mut side.seat, SOFT, bank);
    }

    /// The `fetch_sub` of 1 on the pend word of the cyclic in hand: one call is done.
    pub fn subtract<J: Served>(&self, side: &mut SoftSide, index: usize) -> u64
        requires own { IsSeatOf J.setting self.now side.old.seat }
        requires hand { (e : ℕ) × (held_entry side.old.seat.me.0.drain_trail ≡ Some e) × (index ≡ entry_index e) }
        ensures bound { 0 < result % mark_bit }
        ensures step { MakesDrainStep J.setting (Subtracted result) side.old.seat side.new.seat }
    {
        soft_steps();
        self.table
            .shared
            .fetch_sub::<SubtractPlay<J>>(&mut side.seat, pend_at(index), 1)
    }
}
