//! The firing side of a ring whose soft side another thread has.

ghost use Rattle.std.specs.Prelude.{◌≡◌, ◌≢◌, Some, None};
ghost use Rattle.std.specs.Option.{ForSome};
ghost use Rattle.cyc_ring.specs.Ends.{IsRaiseSeatOf};
ghost use Rattle.cyc_border.specs.Held.{view_in, step_in};

use cyc_ring::{RaiseEnd, RaiseSeat, Ring};
use cyc_types::{CyclicId, Index, Raise, Raised, Sent};
use std::alloc::Global;
use std::sync::Arc;

/// The firing side of a ring that it shares with the soft side: each call is that of a `RaiseEnd`, which is made for it of the
/// seat. The seat is there between any two calls.
#[derive(Drop)]
pub struct HeldEnd {
    pub(crate) ring: Arc<Ring, Global>,
    pub(crate) seat: Option<RaiseSeat>,
    ghost there: { seat ≢ None },
    ghost own: { ForSome seat (λ s. IsRaiseSeatOf ring.value s) },
}

impl Raise for HeldEnd {
    ghost view = { λ e. view_in e.seat };

    ghost step = { λ e call f. step_in e.seat call f.seat };

    fn law(&self) {
        match &self.seat {
            Some(seat) => seat.law(),
            None => unreachable!(),
        }
    }

    fn raise(&mut self, id: CyclicId) -> Raised {
        let seat = self.seat.take().unwrap();
        let mut end = RaiseEnd::new(&self.ring, seat);
        let answer = end.raise(id);
        self.seat = Some(end.into_seat());
        answer
    }

    fn admit(&mut self, id: CyclicId, index: Index) {
        let seat = self.seat.take().unwrap();
        let mut end = RaiseEnd::new(&self.ring, seat);
        end.admit(id, index);
        self.seat = Some(end.into_seat());
    }

    fn load_pend(&mut self, id: CyclicId) -> u32 {
        let seat = self.seat.take().unwrap();
        let mut end = RaiseEnd::new(&self.ring, seat);
        let answer = end.load_pend(id);
        self.seat = Some(end.into_seat());
        answer
    }

    fn mark(&mut self, id: CyclicId) -> u32 {
        let seat = self.seat.take().unwrap();
        let mut end = RaiseEnd::new(&self.ring, seat);
        let answer = end.mark(id);
        self.seat = Some(end.into_seat());
        answer
    }

    fn poll_clear(&mut self, id: CyclicId) -> Option<Sent> {
        let seat = self.seat.take().unwrap();
        let mut end = RaiseEnd::new(&self.ring, seat);
        let answer = end.poll_clear(id);
        self.seat = Some(end.into_seat());
        answer
    }

    fn expand(&mut self, bank: u8) {
        let seat = self.seat.take().unwrap();
        let mut end = RaiseEnd::new(&self.ring, seat);
        end.expand(bank);
        self.seat = Some(end.into_seat());
    }

    fn followed(&mut self) -> bool {
        let seat = self.seat.take().unwrap();
        let mut end = RaiseEnd::new(&self.ring, seat);
        let answer = end.followed();
        self.seat = Some(end.into_seat());
        answer
    }

    fn sent(&self, id: CyclicId) -> Sent {
        match &self.seat {
            Some(seat) => seat.sent(id),
            None => unreachable!(),
        }
    }
}
