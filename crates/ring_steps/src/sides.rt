//! The seats of a ring's two sides. Only the steps here can use them.
ghost use Rattle.std.specs.Prelude.{◌≡◌, []};
ghost use Rattle.ring_rule.specs.declared.Role.TheVariants.{Joint, Raise, Drain};

use atomic_table::Seat;
use ring_rule::SeatView;

/// The seat of the firing side: for contracts the steps that it has made, the newest first.
#[derive(Drop)]
pub struct FiringSide {
    pub(crate) seat: Seat<(), SeatView>,
    ghost role: { seat.me.0.role ≡ Raise },
    ghost no_slots: { seat.me.1 ≡ [] },
}

/// The seat of the soft side, the same.
#[derive(Drop)]
pub struct SoftSide {
    pub(crate) seat: Seat<(), SeatView>,
    ghost role: { seat.me.0.role ≡ Drain },
    ghost no_slots: { seat.me.1 ≡ [] },
}

/// The one seat of both sides, before the split and after the join.
#[derive(Drop)]
pub struct BothSides {
    pub(crate) seat: Seat<(), SeatView>,
    ghost role: { seat.me.0.role ≡ Joint },
    ghost no_slots: { seat.me.1 ≡ [] },
}
