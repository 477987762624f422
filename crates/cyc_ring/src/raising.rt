//! The calls of the firing side on a seat: the atomic steps of each, and what the seat notes of them.
ghost use Rattle.std.specs.Prelude.{◌≡◌, ◌≢◌, ℕ, ◌+◌, ◌%◌, ◌^◌, ◌<◌, ◌≤◌, true, Some, None, slice_index};
ghost use Rattle.cyc_types.specs.Limits.{cyclics, greatest_bank};
ghost use Rattle.cyc_types.specs.Firing.{Admits, Loads, Raises, Marks, Polls, Expands, Looks};
ghost use Rattle.cyc_level.specs.Level.{bank_size};
ghost use Rattle.cyc_level.specs.Events.{most_sent};
ghost use Rattle.ring_rule.specs.declared.RaiseStep.TheVariants.{Admitted, Loaded, Marked, Cleared, Switched, LoadedSoftBank};
ghost use Rattle.ring_rule.specs.Words.{mark_bit};
ghost use Rattle.ring_rule.specs.Trail.{open_stay, seen_pend, marked_of, hard_bank_of, has_followed};
ghost use Rattle.cyc_ring.specs.Steps.{MakesRaiseCall};
ghost use Rattle.ring_steps.specs.Sides.{MakesRaiseStep};
ghost use Rattle.cyc_ring.specs.Ends.{IsRaiseSeatOf, IsSameRaiseSeat, raise_trail, raise_seat_view};

use crate::ring::Ring;
use crate::seats::{RaiseSeat, hint_of};
use cyc_types::{CyclicId, Index, Raised};
use ring_steps::{ENTRY_BASE, Served};

impl Ring {
    // Begins a stay of the id at the index.
    pub(crate) fn admit_as<J: Served>(&self, raise_seat: &mut RaiseSeat, id: CyclicId, index: Index)
        requires named { (J.id ≡ id) × (J.setting ≡ self.now.setting) }
        requires own { IsRaiseSeatOf self.now raise_seat.old }
        requires index { (index < bank_size raise_seat.old.bank) × (slice_index raise_seat.old.stays.value.ids index ≡ 0) }
        requires absent { open_stay id (raise_trail raise_seat.old) ≡ None }
        ensures own { IsSameRaiseSeat raise_seat.old raise_seat.new }
        ensures step { MakesRaiseStep J.setting (Admitted id index) raise_seat.old.side.seat raise_seat.new.side.seat }
    {
        let at = index.number() as usize;
        self.words.admit::<J>(&mut raise_seat.side, at);
        raise_seat.finder.insert(id, index);
        raise_seat.stays.ids[at] = id.number();
        raise_seat.stays.sent[at] = 0;
        raise_seat.stays.lost[at] = 0;
        raise_seat.stays.hints[hint_of(id)] = index;
    }

    // The calls of the id at the index that are outstanding, with the mark.
    pub(crate) fn load_as<J: Served>(&self, raise_seat: &mut RaiseSeat, index: usize) -> u64
        requires named { J.setting ≡ self.now.setting }
        requires own { IsRaiseSeatOf self.now raise_seat.old }
        requires index { (index < cyclics) × (slice_index raise_seat.old.stays.value.ids index ≡ J.id) × (J.id ≢ 0) }
        ensures own { IsSameRaiseSeat raise_seat.old raise_seat.new }
        ensures rows { raise_seat.new.stays ≡ raise_seat.old.stays }
        ensures bound { result % mark_bit ≤ seen_pend J.id (raise_trail raise_seat.old) }
        ensures step { MakesRaiseStep J.setting (Loaded J.id result) raise_seat.old.side.seat raise_seat.new.side.seat }
    {
        self.words.load::<J>(&mut raise_seat.side, index)
    }

    // The `fetch_add` that marks the id at the index.
    pub(crate) fn mark_as<J: Served>(&self, raise_seat: &mut RaiseSeat, index: usize) -> u64
        requires named { J.setting ≡ self.now.setting }
        requires own { IsRaiseSeatOf self.now raise_seat.old }
        requires index { (index < cyclics) × (slice_index raise_seat.old.stays.value.ids index ≡ J.id) × (J.id ≢ 0) }
        requires unmarked { marked_of (raise_trail raise_seat.old) ≡ None }
        ensures own { IsSameRaiseSeat raise_seat.old raise_seat.new }
        ensures bound { result ≤ seen_pend J.id (raise_trail raise_seat.old) }
        ensures step { MakesRaiseStep J.setting (Marked J.id result) raise_seat.old.side.seat raise_seat.new.side.seat }
    {
        self.words.mark::<J>(&mut raise_seat.side, index)
    }

    // The store of 0 that ends the stay of the marked id at the index.
    pub(crate) fn clear_as<J: Served>(&self, raise_seat: &mut RaiseSeat, id: CyclicId, index: usize)
        requires named { (J.id ≡ id) × (J.setting ≡ self.now.setting) }
        requires own { IsRaiseSeatOf self.now raise_seat.old }
        requires index { (index < cyclics) × (slice_index raise_seat.old.stays.value.ids index ≡ id) × (id ≢ 0) }
        requires alone { (marked_of (raise_trail raise_seat.old) ≡ Some id) × (seen_pend id (raise_trail raise_seat.old) ≡ 0) }
        ensures own { IsSameRaiseSeat raise_seat.old raise_seat.new }
        ensures step { MakesRaiseStep J.setting (Cleared id) raise_seat.old.side.seat raise_seat.new.side.seat }
    {
        self.words.clear::<J>(&mut raise_seat.side, index);
        raise_seat.finder.remove(id);
        raise_seat.stays.ids[index] = 0;
    }

    // The store of the hard bank.
    pub(crate) fn switch_as<J: Served>(&self, raise_seat: &mut RaiseSeat, bank: u8)
        requires named { J.setting ≡ self.now.setting }
        requires own { IsRaiseSeatOf self.now raise_seat.old }
        requires followed { has_followed (raise_trail raise_seat.old) ≡ true }
        requires bank { (raise_seat.old.bank < bank) × (bank ≤ greatest_bank) }
        ensures own { IsSameRaiseSeat raise_seat.old raise_seat.new }
        ensures step { MakesRaiseStep J.setting (Switched bank) raise_seat.old.side.seat raise_seat.new.side.seat }
    {
        self.words.switch::<J>(&mut raise_seat.side, bank as u64);
        raise_seat.bank = bank as u64;
        raise_seat.mask = (1u64 << bank) - 1;
        raise_seat.next = raise_seat.setting.start;
    }

    // The load of the soft bank.
    pub(crate) fn look_as<J: Served>(&self, raise_seat: &mut RaiseSeat) -> u64
        requires named { J.setting ≡ self.now.setting }
        requires own { IsRaiseSeatOf self.now raise_seat.old }
        ensures own { IsSameRaiseSeat raise_seat.old raise_seat.new }
        ensures bank { raise_seat.new.bank ≡ raise_seat.old.bank }
        ensures followed { has_followed (raise_trail raise_seat.old) ≡ true → result ≡ hard_bank_of (raise_trail raise_seat.old) }
        ensures step { MakesRaiseStep J.setting (LoadedSoftBank result) raise_seat.old.side.seat raise_seat.new.side.seat }
    {
        self.words.load_soft_bank::<J>(&mut raise_seat.side)
    }

    // One expiration of the id at the index: the pend is loaded before it is raised, and the entry is stored before it is
    // published.
    pub(crate) fn raise_as<J: Served>(
        &self,
        raise_seat: &mut RaiseSeat,
        id: CyclicId,
        index: usize,
    ) -> Raised
        requires named { (J.id ≡ id) × (J.setting ≡ self.now.setting) }
        requires own { IsRaiseSeatOf self.now raise_seat.old }
        requires index { (index < cyclics) × (slice_index raise_seat.old.stays.value.ids index ≡ id) }
        requires unmarked { marked_of (raise_trail raise_seat.old) ≢ Some id }
        requires room { slice_index raise_seat.old.stays.value.sent index < most_sent }
        ensures own { IsSameRaiseSeat raise_seat.old raise_seat.new }
        ensures call { MakesRaiseCall self.now.setting (raise_seat_view raise_seat.old) (Raises id result)
            (raise_seat_view raise_seat.new) }
    {
        let ceiling = raise_seat.setting.ceiling as u64;
        let entry = id.number() * ENTRY_BASE + index as u64;
        let before = self.words.load_to_raise::<J>(&mut raise_seat.side, index);
        raise_seat.stays.sent[index] += 1;
        if before == ceiling {
            raise_seat.stays.lost[index] += 1;
            return Raised::Lost;
        }
        let found = self.words.add::<J>(&mut raise_seat.side, index);
        if found != 0 {
            return Raised::More;
        }
        self.words.store::<J>(
            &mut raise_seat.side,
            raise_seat.mask,
            raise_seat.next,
            entry,
        );
        raise_seat.next = raise_seat.next.wrapping_add(1);
        self.words
            .publish::<J>(&mut raise_seat.side, raise_seat.bank, raise_seat.next);
        Raised::First
    }
}
