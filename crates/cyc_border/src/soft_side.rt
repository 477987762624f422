//! One soft side of a CPU between threads.

ghost use Rattle.std.specs.Prelude.{◌≡◌, ◌≢◌, None};
ghost use Rattle.std.specs.Option.{ForSome};
ghost use Rattle.cyc_ring.specs.Ends.{IsDrainSeatOf};
ghost use Rattle.cyc_border.specs.Seats.{TakesSeat, FinishesSeat, hand_in};

use cyc_ring::{DrainEnd, DrainSeat, Ring};
use cyc_types::{CyclicId, Drain, Finished};
use std::alloc::Global;
use std::sync::Arc;

/// The soft side of one level: each call is that of a `DrainEnd`, which is made for it of the seat. The seat is there between
/// any two calls.
#[derive(Drop)]
pub struct SoftSide {
    pub(crate) ring: Arc<Ring, Global>,
    pub(crate) seat: Option<DrainSeat>,
    ghost there: { seat ≢ None },
    ghost own: { ForSome seat (λ s. IsDrainSeatOf ring.value s) },
}

impl SoftSide {
    /// The cyclic whose handler the caller is to call next: the one in hand, else the one that a look finds.
    pub fn take(&mut self) -> Option<CyclicId>
        ensures took { TakesSeat result self.old.seat self.new.seat }
        ensures ring { self.new.ring.value ≡ self.old.ring.value }
    {
        let seat = self.seat.take().unwrap();
        let mut end = DrainEnd::new(&self.ring, seat);
        let found = match end.hand() {
            Some(id) => Some(id),
            None => end.take(),
        };
        self.seat = Some(end.into_seat());
        found
    }

    /// The cyclic in hand, whose call was taken and is not finished.
    pub fn hand(&mut self) -> Option<CyclicId>
        ensures hand { result ≡ hand_in self.old.seat }
        ensures seat { self.new.seat ≡ self.old.seat }
        ensures ring { self.new.ring.value ≡ self.old.ring.value }
    {
        let seat = self.seat.take().unwrap();
        let end = DrainEnd::new(&self.ring, seat);
        let found = end.hand();
        self.seat = Some(end.into_seat());
        found
    }

    /// Counts the call of the cyclic in hand. None where none is.
    pub fn finish(&mut self) -> Option<Finished>
        ensures finished { FinishesSeat result self.old.seat self.new.seat }
        ensures ring { self.new.ring.value ≡ self.old.ring.value }
    {
        let seat = self.seat.take().unwrap();
        let mut end = DrainEnd::new(&self.ring, seat);
        let Some(_id) = end.hand() else {
            self.seat = Some(end.into_seat());
            return None;
        };
        let answer = end.finish();
        self.seat = Some(end.into_seat());
        Some(answer)
    }
}
