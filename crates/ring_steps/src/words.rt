//! The words of a ring: opened, split, joined and closed.

ghost use Rattle.std.specs.Prelude.{◌≡◌, ℕ, ◌<◌, ◌^◌, IfOk, length, slice_index};
ghost use Rattle.ring_rule.specs.Words.{word_count, mark_bit, index_range, first_word};

use crate::plays::{Parts, Whole};
use crate::positions::{HARD, INDEXES, PRODUCERS, WORDS, pend_at};
use crate::sides::{BothSides, FiringSide, SoftSide};
use atomic_table::Table;
use cyc_types::Ceiling;
use ring_rule::{
    RingRule, SeatView, Setting, closing_stands, join_is_allowed, opening_meets_the_rule,
    split_is_allowed,
};
use std::alloc::{AllocError, Global};

/// The words of one soft level.
#[derive(Drop)]
pub struct Words {
    pub(crate) table: Table<(), SeatView, Setting, RingRule, Global>,
    pub(crate) setting: Setting,
    ghost wide: { table.shared.table_id.words ≡ word_count },
    ghost no_slots: { table.shared.table_id.slots ≡ 0 },
    ghost ranges: { (0 < setting.ceiling) × (setting.ceiling < mark_bit) × (setting.start < index_range) },
    ghost key: { table.shared.key ≡ setting },
}

// The words of a new ring: both banks are 0, and each bank begins at `start`.
fn first_words(alloc: Global, start: u32) -> Result<Vec<u64>, AllocError>
    ensures { IfOk result (λ v. (length v.items ≡ word_count)
        × ((j : ℕ) → j < word_count → slice_index v.items j ≡ first_word start j)) }
{
    let mut words = Vec::with_capacity(alloc, WORDS)?;
    for j in 0..WORDS {
        words.push(if j < PRODUCERS {
            0
        } else if j < HARD {
            start as u64
        } else {
            0
        })?;
    }
    Ok(words)
}

impl Words {
    ghost use Rattle.std.specs.Prelude.{◌≡◌, ◌<◌, ℕ, List, [], IfOk, slice_index};
    ghost use Rattle.cyc_types.specs.Limits.{cyclics};
    ghost use Rattle.ring_rule.specs.declared.Role.TheVariants.{Joint};
    ghost use Rattle.ring_rule.specs.Log.{RingStep, replay};
    ghost use Rattle.ring_rule.specs.Rule.{opening_view, raise_view, drain_view, joint_view, HasItsTrail};
    ghost use Rattle.ring_rule.specs.Words.{pend_word};
    ghost use Rattle.ring_rule.specs.Conservation.{AllStood};
    ghost use Rattle.ring_steps.specs.Sides.{IsSeatOf};

    /// The words of a ring with no cyclic, both sides on bank 0, and the seat of both sides. `ceiling` is the greatest pend; the
    /// buffer indexes of each bank begin at `start`. Takes all the memory that the ring's words will use.
    pub fn open(
        alloc: Global,
        ceiling: Ceiling,
        start: u32,
    ) -> Result<(Words, BothSides), AllocError>
        ensures seat { IfOk result (λ r. IsSeatOf r.0.setting r.0 r.1.seat) }
        ensures setting { IfOk result (λ r. r.0.setting ≡ record { ceiling = ceiling; start = start }) }
        ensures empty { IfOk result (λ r. r.1.seat.me.0 ≡ opening_view) }
    {
        opening_meets_the_rule();
        let words = first_words(alloc, start)?;
        let setting = Setting {
            ceiling: ceiling.calls(),
            start,
        };
        let (table, seat) = Table::of_words(alloc, words.as_slice(), &setting)?;
        Ok((Words { table, setting }, BothSides { seat }))
    }

    /// Gives each side its seat, with the trails as they are.
    pub fn split(&self, both: BothSides) -> (FiringSide, SoftSide)
        requires { both.seat.table_id ≡ self.now.table.shared.table_id }
        ensures own { (result.0.seat.table_id ≡ both.seat.table_id) × (result.1.seat.table_id ≡ both.seat.table_id) }
        ensures trails { (result.0.seat.me.0 ≡ raise_view both.seat.me.0) × (result.1.seat.me.0 ≡ drain_view both.seat.me.0) }
    {
        split_is_allowed();
        let BothSides { mut seat } = both;
        let other = self.table.shared.split_seat::<Parts>(&mut seat);
        (FiringSide { seat }, SoftSide { seat: other })
    }

    /// Puts the two seats together, each with its side's trail.
    pub fn join(&self, firing: FiringSide, soft: SoftSide) -> BothSides
        requires { (firing.seat.table_id ≡ self.now.table.shared.table_id)
            × (soft.seat.table_id ≡ self.now.table.shared.table_id) }
        ensures own { result.seat.table_id ≡ firing.seat.table_id }
        ensures trails { result.seat.me.0 ≡ joint_view firing.seat.me.0 soft.seat.me.0 }
    {
        join_is_allowed();
        let FiringSide { mut seat } = firing;
        let SoftSide { seat: other } = soft;
        self.table.shared.join_seat::<Whole>(&mut seat, other);
        BothSides { seat }
    }

    /// Ends the words, and puts the pend word of each index into `pends`, so that no such array stands on the stack. There is one
    /// order of all steps that the two sides made, which left them, and a lawful level stood before and after each of its steps.
    pub fn close(self, both: BothSides, pends: &mut [u64; INDEXES])
        requires { both.seat.table_id ≡ self.table.shared.table_id }
        ensures { (log : List RingStep) × HasItsTrail log both.seat.me.0 Joint × AllStood self.setting log
            × ((i : ℕ) → i < cyclics → slice_index pends.new i ≡ slice_index (replay self.setting.start log) (pend_word i)) }
    {
        closing_stands();
        let Words { table, setting: _ } = self;
        let BothSides { seat } = both;
        let closed = table.close_with(seat);
        for i in 0..INDEXES {
            pends[i] = closed.word(pend_at(i));
        }
        closed.free();
    }
}
