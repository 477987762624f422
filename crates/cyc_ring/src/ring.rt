//! The ring: its opening, the calls of its two seats, and its closing.

ghost use Rattle.std.specs.Prelude.{◌≡◌};

use crate::seats::{DrainSeat, RaiseSeat};
use cyc_types::{Ceiling, Refusal};
use ring_rule::Setting;
use ring_steps::Words;
use std::alloc::Global;

/// The words of one soft level.
#[derive(Drop)]
pub struct Ring {
    pub(crate) words: Words,
    pub(crate) setting: Setting,
    ghost same: { words.setting ≡ setting },
}

impl Ring {
    ghost use Rattle.std.specs.Prelude.{◌≡◌, [], IfOk, IfErr};
    ghost use Rattle.cyc_types.specs.declared.refusal.Refusal.TheVariants.{Memory};
    ghost use Rattle.cyc_ring.specs.Ends.{raise_trail, drain_trail, IsRaiseSeatOf, IsDrainSeatOf};

    /// Opens a ring with no cyclic, both sides on bank 0, and the two seats of its sides. `ceiling` is the greatest pend; the
    /// buffer indexes of each bank begin at `start`. Takes all the memory that the ring will use, and refuses Memory
    /// alone (our own rule: the kernel allocates each bank when it grows).
    pub fn open(
        alloc: Global,
        ceiling: Ceiling,
        start: u32,
    ) -> Result<(Ring, RaiseSeat, DrainSeat), Refusal>
        ensures seats { IfOk result (λ r. IsRaiseSeatOf r.0 r.1 × IsDrainSeatOf r.0 r.2) }
        ensures setting { IfOk result (λ r. r.0.setting ≡ record { ceiling = ceiling; start = start }) }
        ensures empty { IfOk result (λ r. (raise_trail r.1 ≡ []) × (drain_trail r.2 ≡ [])) }
        ensures refused { IfErr result (λ e. e ≡ Memory) }
    {
        let (words, both) = Words::open(alloc, ceiling, start)?;
        let setting = Setting {
            ceiling: ceiling.calls(),
            start,
        };
        let (firing, soft) = words.split(both);
        let raise_seat = RaiseSeat::new(alloc, firing, setting)?;
        let drain_seat = DrainSeat::new(soft, setting);
        Ok((Ring { words, setting }, raise_seat, drain_seat))
    }
}
