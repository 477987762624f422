//! The seats of a ring's two sides.

ghost use Rattle.std.specs.Prelude.{◌≡◌, ◌≢◌, ℕ, ◌+◌, ◌-◌, ◌/◌, ◌%◌, ◌^◌, ◌<◌, ◌≤◌, [], None, slice_index, IfOk, IfSome, IsSome};
ghost use Rattle.cyc_types.specs.Limits.{cyclics, greatest_bank};
ghost use Rattle.cyc_level.specs.Lawful.{IsId};
ghost use Rattle.ring_rule.specs.Words.{mark_bit, index_range, entry_id};
ghost use Rattle.ring_rule.specs.Trail.{open_stay, firer_hand_of, hard_bank_of, producer_index, held_entry, consumer_index};
ghost use Rattle.ring_rule.specs.Trail.{soft_bank_of};
ghost use Rattle.cyc_finder.specs.Indexes.{index_of};
ghost use Rattle.cyc_ring.specs.Rows.{HoldsStays, stay_index, entry_in_hand};
ghost use Rattle.cyc_ring.specs.Views.{IsSeenSound, IsBalanced};

use cyc_finder::Finder;
use cyc_types::{CYCLICS, CyclicId, Index};
use ring_rule::Setting;
use ring_steps::{FiringSide, INDEXES, SoftSide};
use std::alloc::{AllocError, Global};

/// For each index the id of its cyclic, 0 where it is free, and the counts of its stay; its pend word, once the ring is closed;
/// and for the low bits of an id the index of the last such one, right or not. They stand in memory of their own, so that a seat
/// or a closed ring that is moved copies little.
#[derive(Drop)]
pub struct Stays {
    pub(crate) ids: [u64; INDEXES],
    pub(crate) sent: [u64; INDEXES],
    pub(crate) lost: [u64; INDEXES],
    pub(crate) pends: [u64; INDEXES],
    pub(crate) hints: [Index; INDEXES],
}

/// The seat of a ring's firing side: what it knows of each index, and its slot in the buffer.
#[derive(Drop)]
pub struct RaiseSeat {
    pub(crate) side: FiringSide,
    pub(crate) setting: Setting,
    pub(crate) finder: Finder,
    pub(crate) stays: Box<Stays>,
    // The bank that it fills, the bank's size less one, and the next index.
    pub(crate) bank: u64,
    pub(crate) mask: u64,
    pub(crate) next: u32,
    ghost free_hand: { firer_hand_of side.seat.me.0.raise_trail ≡ None },
    ghost bank_is: { (bank ≡ hard_bank_of side.seat.me.0.raise_trail) × (bank ≤ greatest_bank) × (mask + 1 ≡ 2 ^ bank) },
    ghost next_is: { next ≡ producer_index setting.start side.seat.me.0.raise_trail % index_range },
    ghost ranges: { (0 < setting.ceiling) × (setting.ceiling < mark_bit) × (setting.start < index_range) },
    ghost rows: { HoldsStays stays.value.ids stays.value.sent stays.value.lost side.seat.me.0.raise_trail },
    ghost roomy: { cyclics ≤ finder.room },
    ghost listed: { (id : ℕ) → index_of id finder.entries ≡ stay_index (open_stay id side.seat.me.0.raise_trail) },
    ghost seen: { IsSeenSound setting.ceiling side.seat.me.0.raise_trail },
    ghost balanced: { IsBalanced side.seat.me.0.raise_trail },
}

/// The seat of a ring's soft side: its hand, and its slot in the buffer.
#[derive(Drop)]
pub struct DrainSeat {
    pub(crate) side: SoftSide,
    pub(crate) setting: Setting,
    // The bank that it drains, the bank's size less one, and the next index.
    pub(crate) bank: u64,
    pub(crate) mask: u64,
    pub(crate) next: u32,
    // The entry in hand, 0 where there is none.
    pub(crate) hand: u64,
    ghost bank_is: { (bank ≡ soft_bank_of side.seat.me.0.drain_trail) × (bank ≤ greatest_bank) × (mask + 1 ≡ 2 ^ bank) },
    ghost next_is: { next ≡ consumer_index setting.start side.seat.me.0.drain_trail % index_range },
    ghost ranges: { (0 < setting.ceiling) × (setting.ceiling < mark_bit) × (setting.start < index_range) },
    ghost hand_is: { held_entry side.seat.me.0.drain_trail ≡ entry_in_hand hand },
    ghost hand_named: { hand ≢ 0 → IsId (entry_id hand) },
}

// Where the hint of an id stands: at its low bits, with those above them added.
#[inline(always)]
pub(crate) fn hint_of(id: CyclicId) -> usize
    ensures { result < cyclics }
{
    let number = id.number();
    let hints = INDEXES as u64;
    ((number + number / hints) % hints) as usize
}

impl RaiseSeat {
    pub(crate) fn new(
        alloc: Global,
        side: FiringSide,
        setting: Setting,
    ) -> Result<RaiseSeat, AllocError>
        requires empty { side.seat.me.0.raise_trail ≡ [] }
        requires ranges { (0 < setting.ceiling) × (setting.ceiling < mark_bit) × (setting.start < index_range) }
        ensures { IfOk result (λ r. (r.side ≡ side) × (r.setting ≡ setting)) }
    {
        let mut finder = Finder::new(alloc)?;
        finder.reserve(usize::from(CYCLICS))?;
        let first = Index::new(0).unwrap();
        let stays = Box::new(
            alloc,
            Stays {
                ids: [0; INDEXES],
                sent: [0; INDEXES],
                lost: [0; INDEXES],
                pends: [0; INDEXES],
                hints: [first; INDEXES],
            },
        )?;
        Ok(RaiseSeat {
            side,
            setting,
            finder,
            stays,
            bank: 0,
            mask: 0,
            next: setting.start,
        })
    }

    // The index at which the id is admitted, where its hint is right, as it is until another id of its low bits is admitted.
    #[inline(always)]
    pub(crate) fn hinted(&self, id: CyclicId) -> Option<usize>
        ensures { IfSome result (λ index. (index < cyclics) × (slice_index self.now.stays.value.ids index ≡ id)) }
    {
        let index = usize::from(self.stays.hints[hint_of(id)].number());
        if self.stays.ids[index] == id.number() {
            return Some(index);
        }
        None
    }

    // The index at which the id is admitted. O(1) where its hint is right, else as `Finder::find`.
    pub(crate) fn index_of(&self, id: CyclicId) -> usize
        requires { open_stay id self.now.side.seat.me.0.raise_trail ≢ None }
        ensures { (result < cyclics) × (slice_index self.now.stays.value.ids result ≡ id) }
    {
        if let Some(index) = self.hinted(id) {
            return index;
        }
        match self.finder.find(id) {
            Some(index) => usize::from(index.number()),
            None => unreachable!(),
        }
    }
}

impl DrainSeat {
    pub(crate) fn new(side: SoftSide, setting: Setting) -> DrainSeat
        requires empty { side.seat.me.0.drain_trail ≡ [] }
        requires ranges { (0 < setting.ceiling) × (setting.ceiling < mark_bit) × (setting.start < index_range) }
        ensures { (result.side ≡ side) × (result.setting ≡ setting) }
    {
        DrainSeat {
            side,
            setting,
            bank: 0,
            mask: 0,
            next: setting.start,
            hand: 0,
        }
    }
}
