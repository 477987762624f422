//! The calls of the soft side on a seat: the atomic steps of each, and what the seat notes of them.
ghost use Rattle.std.specs.Prelude.{◌≡◌, ◌≢◌, ℕ, ◌+◌, ◌%◌, ◌/◌, ◌^◌, ◌<◌, ◌≤◌, Some, None, IfSome};
ghost use Rattle.cyc_types.specs.Draining.{Takes, Finishes};
ghost use Rattle.cyc_level.specs.Lawful.{IsId};
ghost use Rattle.ring_rule.specs.declared.DrainStep.TheVariants.{Took, Subtracted};
ghost use Rattle.ring_rule.specs.Words.{mark_bit, index_range, entry_id};
ghost use Rattle.ring_rule.specs.Trail.{held_entry, producer_seen, consumer_index};
ghost use Rattle.cyc_ring.specs.Steps.{MakesDrainCall};
ghost use Rattle.ring_steps.specs.Sides.{MakesDrainStep};
ghost use Rattle.cyc_ring.specs.Ends.{IsDrainSeatOf, IsSameDrainSeat, drain_trail, drain_seat_view};

use crate::ring::Ring;
use crate::seats::DrainSeat;
use ring_steps::{ENTRY_BASE, MARK, Served};

impl Ring {
    // The load of the buffer word at the consumer index: its entry comes into the hand.
    fn take_entry<J: Served>(&self, drain_seat: &mut DrainSeat) -> u64
        requires named { J.setting ≡ self.now.setting }
        requires own { IsDrainSeatOf self.now drain_seat.old }
        requires hand { held_entry (drain_trail drain_seat.old) ≡ None }
        requires more { (end : ℕ) × (producer_seen (drain_trail drain_seat.old) ≡ Some end) × (end ≢ drain_seat.old.next) }
        ensures own { IsSameDrainSeat drain_seat.old drain_seat.new }
        ensures named { IsId (entry_id result) }
        ensures step { MakesDrainStep J.setting (Took result) drain_seat.old.side.seat drain_seat.new.side.seat }
    {
        let entry = self
            .words
            .take::<J>(&mut drain_seat.side, drain_seat.mask, drain_seat.next);
        drain_seat.next = drain_seat.next.wrapping_add(1);
        drain_seat.hand = entry;
        entry
    }

    // The oldest entry's id, which is now in the hand, or nothing. The hard bank is looked at before the producer word, so
    // that an old bank that was found empty is empty for good.
    pub(crate) fn take_as<J: Served>(&self, drain_seat: &mut DrainSeat) -> Option<u64>
        requires named { J.setting ≡ self.now.setting }
        requires own { IsDrainSeatOf self.now drain_seat.old }
        requires hand { held_entry (drain_trail drain_seat.old) ≡ None }
        ensures own { IsSameDrainSeat drain_seat.old drain_seat.new }
        ensures named { IfSome result IsId }
        ensures call { MakesDrainCall self.now.setting (drain_seat_view drain_seat.old) (Takes result)
            (drain_seat_view drain_seat.new) }
    {
        loop {
            let bank = self.words.load_hard_bank::<J>(&mut drain_seat.side);
            let end = self
                .words
                .load_producer::<J>(&mut drain_seat.side, drain_seat.bank);
            if end != drain_seat.next as u64 {
                return Some(self.take_entry::<J>(drain_seat) / ENTRY_BASE);
            }
            if bank == drain_seat.bank {
                return None;
            }
            self.words.follow::<J>(&mut drain_seat.side, bank);
            drain_seat.bank = bank;
            drain_seat.mask = (1u64 << bank) - 1;
            drain_seat.next = drain_seat.setting.start;
        }
    }

    // The `fetch_sub` of 1 on the pend word of the cyclic in hand. The answer is what the word held.
    pub(crate) fn finish_as<J: Served>(&self, drain_seat: &mut DrainSeat) -> u64
        requires named { J.setting ≡ self.now.setting }
        requires own { IsDrainSeatOf self.now drain_seat.old }
        requires hand { drain_seat.old.hand ≢ 0 }
        ensures own { IsSameDrainSeat drain_seat.old drain_seat.new }
        ensures outstanding { 0 < result % mark_bit }
        ensures step { MakesDrainStep J.setting (Subtracted result) drain_seat.old.side.seat drain_seat.new.side.seat }
    {
        let found = self.words.subtract::<J>(
            &mut drain_seat.side,
            (drain_seat.hand % ENTRY_BASE) as usize,
        );
        if found % MARK <= 1 {
            drain_seat.hand = 0;
        }
        found
    }
}
