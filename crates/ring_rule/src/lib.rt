//! The rule of a ring: what its words and the views of its two seats show together, between any two atomic steps; and the law
//! of each step, that it keeps the rule.
//!
//! The definitions stand in `specs/`. They rest on the model of a level in `cyc_level`.
#![tactic(auto)]

mod step_laws;

ghost use Rattle.ring_rule.specs.declared.Setting.{Setting as TheSetting};
ghost use Rattle.ring_rule.specs.Rule.{RingState, MeetsRule, opening_view};
ghost use Rattle.ring_rule.specs.Conservation.{Conserves};
ghost use Rattle.ring_rule.specs.Moves.{OpeningMeetsRule, SplitIsAllowed, JoinIsAllowed, ClosingStands};
ghost use Rattle.ring_rule.specs.Laws.{EachRecordIsTrue, TrailsMakeTheLog, SidesAreTheTrails, RecordsComeAfter, NewRaiseIsTrue};
ghost use Rattle.ring_rule.specs.Laws.{NewDrainIsTrue, FoundIsShown, NoCallFollowsRemoval};
ghost use Rattle.ring_rule.specs.Apart.{WordsAreApart};

use atomic_table::TableRule;
use std::collections::LinkedList;
pub use step_laws::{firing_steps, soft_steps};

/// Which side's seat it is. Before the split and after the join one seat is both; the seat that the join leaves is spent.
pub enum Role {
    Joint,
    Raise,
    Drain,
    Spent,
}

/// An atomic step of the firing side, with its id where it has one, and the value that it found or stored.
pub enum RaiseStep {
    /// The load of an unused pend word that admits the id at this index.
    Admitted(u64, u64),
    /// The load of the pend word.
    Loaded(u64, u64),
    /// The load of the pend word, in a raise that finds it at the ceiling: the expiration is lost.
    Lost(u64, u64),
    /// The `fetch_add` of 1 on the pend word.
    Added(u64, u64),
    /// The store of this entry in a buffer word.
    Stored(u64),
    /// The store of this index in a producer word.
    Published(u64),
    /// The `fetch_add` of the mark on the pend word.
    Marked(u64, u64),
    /// The store of 0 in the pend word, which ends the stay of the id.
    Cleared(u64),
    /// The store of this bank as the hard bank.
    Switched(u64),
    /// The load of the soft bank.
    LoadedSoftBank(u64),
}

/// An atomic step of the soft side, with the value that it found or stored.
pub enum DrainStep {
    /// The load of the hard bank.
    LoadedHardBank(u64),
    /// The load of the producer word of the soft side's bank.
    LoadedProducer(u64),
    /// The load of a buffer word: its entry is taken.
    Took(u64),
    /// The `fetch_sub` of 1 on the pend word of the cyclic in hand: one call is done.
    Subtracted(u64),
    /// The store of this bank as the soft bank.
    Followed(u64),
}

/// What a seat knows: the steps of its side, the newest first, and the position of each in the one order of all steps of both
/// sides. It exists in proofs alone, and no value of it is made.
pub struct SeatView {
    pub role: Role,
    pub raise_trail: LinkedList<RaiseStep>,
    pub raise_positions: LinkedList<u64>,
    pub drain_trail: LinkedList<DrainStep>,
    pub drain_positions: LinkedList<u64>,
}

/// What is fixed when a ring is opened.
#[derive(Clone, Copy)]
pub struct Setting {
    /// The greatest pend.
    pub ceiling: u32,
    /// The first index of each bank.
    pub start: u32,
}

/// The rule that the table of a ring keeps.
pub struct RingRule;

impl TableRule<(), SeatView, Setting> for RingRule {
    ghost holds = { MeetsRule };

    ghost first = { λ _. opening_view };
}

/// The conservation theorem: whatever state meets the ring's rule has one order of all steps that were made, with each seat's
/// in the order of its trail. Its events are an enabled run, and the level that this reaches is the shown one, as it was after
/// each earlier step. So it is lawful; each admitted cyclic's expirations are its finished calls, its
/// outstanding ones and those lost; a cyclic with calls outstanding stands in exactly one place; no list is longer than its
/// bank; the pend word of an unused index is 0; and each shown entry names an admitted id.
pub fn ring_conservation()
    ensures { (k : TheSetting) (s : RingState) → MeetsRule k s → Conserves k s }
{}

/// A ring that is opened keeps the rule.
pub fn opening_meets_the_rule()
    ensures { OpeningMeetsRule }
{}

/// The split of a seat keeps the rule. It is no event.
pub fn split_is_allowed()
    ensures { SplitIsAllowed }
{}

/// The join of the two seats keeps the rule. It is no event.
pub fn join_is_allowed()
    ensures { JoinIsAllowed }
{}

/// A ring that is closed gives the order of all steps, whose sides are the two trails, and the level that stood at each position.
pub fn closing_stands()
    ensures { ClosingStands }
{}

/// Where the rule holds, each record of a seat stands at its position in the one order of all steps, and is true there: what it
/// is recorded to have found is what its word held just before it.
pub fn each_record_is_true()
    ensures { EachRecordIsTrue }
{}

/// The order is read off the two seats' trails by the positions alone. So it is the one order, and not some order.
pub fn trails_make_the_log()
    ensures { TrailsMakeTheLog }
{}

/// The events of the order are on each side those of its trail.
pub fn sides_are_the_trails()
    ensures { SidesAreTheTrails }
{}

/// What the two sides gained since a state stands in the order behind all that had been made then: so no call can answer from
/// a step that was made before it began.
pub fn records_come_after()
    ensures { RecordsComeAfter }
{}

/// Whatever its play says, a record that a raise seat gains has the next position and is true of the words before it.
pub fn new_raise_is_true()
    ensures { NewRaiseIsTrue }
{}

/// The same of a drain seat.
pub fn new_drain_is_true()
    ensures { NewDrainIsTrue }
{}

/// What a step found, the level just before it shows: a pend word the outstanding calls of its id with the mark, the bank
/// words the banks, the producer word of the soft side's bank the consumer index and the list's length modulo 2^32, and a
/// buffer word the entry of the list's first id.
pub fn found_is_shown()
    ensures { FoundIsShown }
{}

/// Behind the step that ends a stay of an id, and until it is admitted anew, no step takes it or finishes a call of it, and it
/// is not in the soft side's hand. So once a removal has answered, no handler's call of the cyclic begins or ends.
pub fn no_call_follows_removal()
    ensures { NoCallFollowsRemoval }
{}

/// No two uses of a ring share a word: each index has a pend word of its own, each slot of each bank a buffer word of its own,
/// and no word of these is left over.
pub fn words_are_apart()
    ensures { WordsAreApart }
{}
