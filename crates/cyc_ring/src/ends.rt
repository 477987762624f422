//! The ends: a seat beside its ring, under the traits of the two sides.
ghost use Rattle.std.specs.Prelude.{◌≡◌};

use crate::ring::Ring;
use crate::seats::{DrainSeat, RaiseSeat};
use cyc_types::{CyclicId, Drain, Finished, Index, Raise, Raised, Sent};
use ring_steps::{ENTRY_BASE, MARK};
use std::marker::Brand;

/// The firing side of a ring.
#[derive(Drop)]
pub struct RaiseEnd<'a> {
    ring: &'a Ring,
    seat: RaiseSeat,
    ghost own: { (seat.side.seat.table_id ≡ ring.now.words.table.shared.table_id) × (seat.setting ≡ ring.now.setting) },
}

/// The soft side of a ring.
#[derive(Drop)]
pub struct DrainEnd<'a> {
    ring: &'a Ring,
    seat: DrainSeat,
    ghost own: { (seat.side.seat.table_id ≡ ring.now.words.table.shared.table_id) × (seat.setting ≡ ring.now.setting) },
}

impl<'a> RaiseEnd<'a> {
    ghost use Rattle.std.specs.Prelude.{◌≡◌};
    ghost use Rattle.cyc_ring.specs.Ends.{IsRaiseSeatOf};

    /// The end of a seat that this ring's `open` gave.
    pub fn new(ring: &'a Ring, seat: RaiseSeat) -> RaiseEnd<'a>
        requires { IsRaiseSeatOf ring.now seat }
        ensures { (result.seat ≡ seat) × (result.ring.now ≡ ring.now) }
    {
        RaiseEnd { ring, seat }
    }

    /// The seat, as it is now.
    pub fn into_seat(self) -> RaiseSeat
        ensures seat { result ≡ self.entry.seat }
        ensures own { IsRaiseSeatOf self.entry.ring.now result }
    {
        let RaiseEnd { ring: _, seat } = self;
        seat
    }
}

impl RaiseEnd<'_> {
    ghost use Rattle.std.specs.Prelude.{◌≡◌, ◌<◌, slice_index};
    ghost use Rattle.cyc_types.specs.Limits.{cyclics};
    ghost use Rattle.cyc_types.specs.Firing.{Learns, MayRaise, Raises, Sound};
    ghost use Rattle.cyc_ring.specs.Ends.{end_view, RaiseEndCall};

    // `raise` of an id that has this index.
    #[inline(always)]
    fn raise_at(&mut self, id: CyclicId, index: usize) -> Raised
        requires may { MayRaise id (end_view self.old) }
        requires index { (index < cyclics) × (slice_index self.old.seat.stays.value.ids index ≡ id) }
        ensures step { RaiseEndCall self.old (Raises id result) self.new }
        ensures learns { Learns (end_view self.old) (Raises id result) (end_view self.new) }
        ensures sound { Sound (end_view self.new) }
    {
        self.ring.raise_as::<Brand>(&mut self.seat, id, index)
    }

    // `raise` of an id whose hint is wrong. By a call, so that where it is right the look-up costs no registers.
    #[cold]
    #[inline(never)]
    fn raise_apart(&mut self, id: CyclicId) -> Raised
        requires { MayRaise id (end_view self.old) }
        ensures step { RaiseEndCall self.old (Raises id result) self.new }
        ensures learns { Learns (end_view self.old) (Raises id result) (end_view self.new) }
        ensures sound { Sound (end_view self.new) }
    {
        let index = self.seat.index_of(id);
        self.raise_at(id, index)
    }
}

impl<'a> DrainEnd<'a> {
    ghost use Rattle.std.specs.Prelude.{◌≡◌};
    ghost use Rattle.cyc_ring.specs.Ends.{IsDrainSeatOf};

    /// The end of a seat that this ring's `open` gave.
    pub fn new(ring: &'a Ring, seat: DrainSeat) -> DrainEnd<'a>
        requires { IsDrainSeatOf ring.now seat }
        ensures { (result.seat ≡ seat) × (result.ring.now ≡ ring.now) }
    {
        DrainEnd { ring, seat }
    }

    /// The seat, as it is now, with the hand.
    pub fn into_seat(self) -> DrainSeat
        ensures seat { result ≡ self.entry.seat }
        ensures own { IsDrainSeatOf self.entry.ring.now result }
    {
        let DrainEnd { ring: _, seat } = self;
        seat
    }
}

impl Raise for RaiseEnd<'_> {
    ghost use Rattle.cyc_ring.specs.Ends.{end_view, RaiseEndCall};

    ghost view = { end_view };

    ghost step = { RaiseEndCall };

    fn law(&self) {
        let _seat = &self.seat;
    }

    fn admit(&mut self, id: CyclicId, index: Index) {
        self.ring.admit_as::<Brand>(&mut self.seat, id, index);
    }

    fn load_pend(&mut self, id: CyclicId) -> u32 {
        let index = self.seat.index_of(id);
        let found = self.ring.load_as::<Brand>(&mut self.seat, index);
        (found % MARK) as u32
    }

    fn raise(&mut self, id: CyclicId) -> Raised {
        match self.seat.hinted(id) {
            Some(index) => self.raise_at(id, index),
            None => self.raise_apart(id),
        }
    }

    fn mark(&mut self, id: CyclicId) -> u32 {
        let index = self.seat.index_of(id);
        self.ring.mark_as::<Brand>(&mut self.seat, index) as u32
    }

    fn poll_clear(&mut self, id: CyclicId) -> Option<Sent> {
        let index = self.seat.index_of(id);
        let found = self.ring.load_as::<Brand>(&mut self.seat, index);
        if found % MARK != 0 {
            return None;
        }
        let sent = self.seat.stays.sent[index];
        let lost = self.seat.stays.lost[index];
        self.ring.clear_as::<Brand>(&mut self.seat, id, index);
        Some(Sent { sent, lost })
    }

    fn expand(&mut self, bank: u8) {
        self.ring.switch_as::<Brand>(&mut self.seat, bank);
    }

    fn followed(&mut self) -> bool {
        self.ring.look_as::<Brand>(&mut self.seat) == self.seat.bank
    }

    fn sent(&self, id: CyclicId) -> Sent {
        let index = self.seat.index_of(id);
        Sent {
            sent: self.seat.stays.sent[index],
            lost: self.seat.stays.lost[index],
        }
    }
}

impl Drain for DrainEnd<'_> {
    ghost use Rattle.cyc_ring.specs.Ends.{end_hand, end_made, DrainEndCall};

    ghost held = { end_hand };

    ghost made = { end_made };

    ghost step = { DrainEndCall };

    fn hand(&self) -> Option<CyclicId> {
        CyclicId::new(self.seat.hand / ENTRY_BASE)
    }

    fn take(&mut self) -> Option<CyclicId> {
        match self.ring.take_as::<Brand>(&mut self.seat) {
            Some(id) => CyclicId::new(id),
            None => None,
        }
    }

    fn finish(&mut self) -> Finished {
        let found = self.ring.finish_as::<Brand>(&mut self.seat);
        if found % MARK > 1 {
            Finished::More
        } else if found == 1 {
            Finished::Last
        } else {
            Finished::LastOfRemoval
        }
    }
}
