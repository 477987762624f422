//! What the holder of a firing seat knows.

ghost use Rattle.std.specs.Prelude.{◌≡◌, Some};
ghost use Rattle.cyc_types.specs.Firing.{MayAsk, Sound, sent_of};
ghost use Rattle.cyc_ring.specs.Ends.{seat_view};

use crate::seats::RaiseSeat;
use cyc_types::{CyclicId, Sent};

impl RaiseSeat {
    /// What the holder of the seat knows is sound. It does nothing when it runs.
    pub fn law(&self)
        ensures { Sound (seat_view self.now) }
    {
        let _side = &self.side;
    }

    /// The counts of the present stay of `id`, as the holder of the seat knows them; no atomic step.
    pub fn sent(&self, id: CyclicId) -> Sent
        requires { MayAsk id (seat_view self.now) }
        ensures { sent_of id (seat_view self.now) ≡ Some result }
    {
        let index = self.index_of(id);
        Sent {
            sent: self.stays.sent[index],
            lost: self.stays.lost[index],
        }
    }
}
