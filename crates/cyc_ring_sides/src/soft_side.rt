//! A soft side whose calls refuse where they are not allowed.
ghost use Rattle.cyc_ring.specs.Ends.{IsDrainSeatOf, IsSameDrainSeat};

use crate::firing_side::NotAllowed;
use cyc_ring::{DrainEnd, DrainSeat, Ring};
use cyc_soft::{Ran, SoftRefused, softint};
use cyc_types::{Calls, CyclicId, Drain, Finished, Soft};

/// The soft side of a ring.
#[derive(Drop)]
pub struct SoftSide<'a> {
    ring: &'a Ring,
    end: DrainEnd<'a>,
    ghost own: { IsDrainSeatOf ring.now end.seat },
}

// A soft interrupt at an end, which stays an end of the same ring.
fn soft<C: Calls>(end: &mut DrainEnd, calls: &mut C, budget: u32) -> Result<Ran, SoftRefused>
    ensures { IsSameDrainSeat end.old.seat end.new.seat }
{
    match softint(end, calls, Soft::Low, budget) {
        Ok(ran) => Ok(ran),
        Err(refused) => Err(refused),
    }
}

impl<'a> SoftSide<'a> {
    ghost use Rattle.std.specs.Prelude.{◌≡◌};
    ghost use Rattle.cyc_ring.specs.Ends.{IsDrainSeatOf};

    /// The soft side that goes on with this seat.
    pub fn new(ring: &'a Ring, seat: DrainSeat) -> SoftSide<'a>
        requires { IsDrainSeatOf ring.now seat }
        ensures { result.ring.now ≡ ring.now }
    {
        SoftSide {
            ring,
            end: DrainEnd::new(ring, seat),
        }
    }

    /// The seat, with the hand.
    pub fn into_seat(self) -> DrainSeat
        ensures { IsDrainSeatOf self.entry.ring.now result }
    {
        let SoftSide { ring: _, end } = self;
        end.into_seat()
    }

    /// As `Drain::hand`.
    pub fn hand(&self) -> Option<CyclicId> {
        self.end.hand()
    }

    /// As `Drain::take`.
    pub fn take(&mut self) -> Result<Option<CyclicId>, NotAllowed>
        ensures { self.new.ring.now ≡ self.old.ring.now }
    {
        if self.end.hand().is_some() {
            return Err(NotAllowed);
        }
        Ok(self.end.take())
    }

    /// As `Drain::finish`.
    pub fn finish(&mut self) -> Result<Finished, NotAllowed>
        ensures { self.new.ring.now ≡ self.old.ring.now }
    {
        if self.end.hand().is_none() {
            return Err(NotAllowed);
        }
        Ok(self.end.finish())
    }

    /// A soft interrupt at the low level.
    pub fn softint<C: Calls>(&mut self, calls: &mut C, budget: u32) -> Result<Ran, SoftRefused>
        ensures { self.new.ring.now ≡ self.old.ring.now }
    {
        soft(&mut self.end, calls, budget)
    }
}
