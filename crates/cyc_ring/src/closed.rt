//! What a closed ring says of each cyclic.

ghost use Rattle.std.specs.Prelude.{◌≡◌, ◌≢◌, ℕ, ◌+◌, ◌%◌, ◌<◌, ◌≤◌, Some, slice_index};
ghost use Rattle.cyc_types.specs.Limits.{cyclics, last_id};
ghost use Rattle.ring_rule.specs.Words.{mark_bit};
ghost use Rattle.ring_rule.specs.Trail.{marked_of, made_calls, ended_calls};
ghost use Rattle.cyc_ring.specs.Rows.{HoldsStays};

use crate::ring::Ring;
use crate::seats::{DrainSeat, RaiseSeat, Stays};
use cyc_types::{CyclicId, Index};
use ring_steps::MARK;
use std::snapshot::Snapshot;

/// What a closed ring says of the cyclic at one index.
#[derive(Clone, Copy, Debug, PartialEq, Eq)]
pub struct Book {
    /// The cyclic.
    pub id: CyclicId,
    /// The expirations of its stay.
    pub sent: u64,
    /// The calls that are done.
    pub done: u64,
    /// The calls that are outstanding: pending, in hand or kept for its removal.
    pub count: u32,
    /// The expirations that were lost at the ceiling.
    pub lost: u64,
    /// Its removal is open.
    pub marked: bool,
}

/// A closed ring: the counts of each index, and for contracts alone what its two seats knew at last.
#[derive(Drop)]
pub struct Closed {
    stays: Box<Stays>,
    raise_seat: Snapshot<RaiseSeat>,
    drain_seat: Snapshot<DrainSeat>,
    ghost rows: { HoldsStays stays.value.ids stays.value.sent stays.value.lost raise_seat.value.side.seat.me.0.raise_trail },
    ghost named: { (i : ℕ) → i < cyclics → slice_index stays.value.ids i ≤ last_id },
    ghost counted: { (i : ℕ) → i < cyclics → slice_index stays.value.ids i ≢ 0
        → slice_index stays.value.lost i + slice_index stays.value.pends i % mark_bit ≤ slice_index stays.value.sent i },
    ghost finished: { (i : ℕ) → i < cyclics → slice_index stays.value.ids i ≢ 0
        → made_calls (slice_index stays.value.ids i) drain_seat.value.side.seat.me.0.drain_trail + slice_index stays.value.lost i
        + slice_index stays.value.pends i % mark_bit ≡ slice_index stays.value.sent i + ended_calls
        (slice_index stays.value.ids i) raise_seat.value.side.seat.me.0.raise_trail },
    ghost marked: { (i : ℕ) → i < cyclics → slice_index stays.value.ids i ≢ 0
        → marked_of raise_seat.value.side.seat.me.0.raise_trail ≡ Some (slice_index stays.value.ids i)
        → mark_bit ≤ slice_index stays.value.pends i },
    ghost unmarked: { (i : ℕ) → i < cyclics → slice_index stays.value.ids i ≢ 0
        → marked_of raise_seat.value.side.seat.me.0.raise_trail ≢ Some (slice_index stays.value.ids i)
        → slice_index stays.value.pends i < mark_bit },
}

impl Ring {
    ghost use Rattle.std.specs.Prelude.{◌≡◌, List};
    ghost use Rattle.ring_rule.specs.Log.{RingStep};
    ghost use Rattle.ring_rule.specs.Conservation.{AllStood, IsAccounted};
    ghost use Rattle.cyc_ring.specs.Ends.{IsRaiseSeatOf, IsDrainSeatOf, IsOrderOf, raise_trail, drain_trail};

    /// Ends the ring, whose two seats are given back, and keeps the counts of each index. There is one order of all steps that
    /// the two sides made, and a lawful level stood before and after each of them. Takes no memory and doesn't wait.
    pub fn close(self, raise_seat: RaiseSeat, drain_seat: DrainSeat) -> Closed
        requires raise_seat { IsRaiseSeatOf self raise_seat }
        requires drain_seat { IsDrainSeatOf self drain_seat }
        ensures seats { (result.raise_seat.value ≡ raise_seat) × (result.drain_seat.value ≡ drain_seat) }
        ensures stands { (log : List RingStep) × IsOrderOf log raise_seat drain_seat × AllStood self.setting log }
        ensures accounted { IsAccounted (raise_trail raise_seat) (drain_trail drain_seat) }
    {
        let known = Snapshot::of(&raise_seat);
        let done = Snapshot::of(&drain_seat);
        let Ring { words, setting: _ } = self;
        let RaiseSeat {
            side: firing,
            setting: _,
            finder: _,
            mut stays,
            bank: _,
            mask: _,
            next: _,
        } = raise_seat;
        let DrainSeat {
            side: soft,
            setting: _,
            bank: _,
            mask: _,
            next: _,
            hand: _,
        } = drain_seat;
        let both = words.join(firing, soft);
        words.close(both, &mut stays.pends);
        Closed {
            stays,
            raise_seat: known,
            drain_seat: done,
        }
    }
}

impl Closed {
    ghost use Rattle.std.specs.Prelude.{IfSome, IfNone};
    ghost use Rattle.cyc_ring.specs.Books.{IsBook, IsFree};

    /// The book of the cyclic that is admitted at the index. None where none is.
    pub fn book(&self, index: Index) -> Option<Book>
        ensures used { IfSome result (λ book. IsBook index book self.now) }
        ensures free { IfNone result (IsFree index self.now) }
    {
        let at = index.number() as usize;
        let id = CyclicId::new(self.stays.ids[at])?;
        let sent = self.stays.sent[at];
        let lost = self.stays.lost[at];
        let pend = self.stays.pends[at];
        let count = (pend % MARK) as u32;
        Some(Book {
            id,
            sent,
            done: sent - lost - count as u64,
            count,
            lost,
            marked: pend >= MARK,
        })
    }
}
