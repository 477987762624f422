//! The records by rising id.

ghost use Rattle.std.specs.Prelude.{◌≡◌, ◌≢◌, ℕ, ◌+◌, ◌-◌, ◌<◌, ◌≤◌, ◌^◌, ◌++◌, ◌∷◌, [], All, length, slice_set, remove};
ghost use Rattle.std.specs.Prelude.{Some, None, OnOk, OnErr, IfErr, IfNone, IfSome};
ghost use Rattle.std.specs.Bool.{OnTrue, OnFalse};
ghost use Rattle.std.specs.List.{slice_get};
ghost use Rattle.cyc_finder.specs.Sorted.{Rises, IsAt};
ghost use Rattle.cyc_types.specs.declared.refusal.Refusal.TheVariants.{Memory};
ghost use Rattle.cyc_types.specs.Limits.{most_cpus};
ghost use Rattle.cyc_types.specs.Counting.{no_counts};
ghost use Rattle.cyc_places.specs.Places.{RecordsView, IsRecord, HasNoRecord, new_record, with_placement, with_ended, ended_on};
ghost use Rattle.cyc_places.specs.Places.{summed, HasRisingIds, HaveCounts, HaveAllCounts, IsReceiptOf};

use crate::record::{Placement, Record};
use cyc_finder::{HINTS, HasId, hint_of, search};
use cyc_types::{CPUS, CyclicId, Level, Receipt, Refusal, Sent};
use std::alloc::Global;
use std::collections::VecDeque;
use std::marker::Model;

/// The id of a record, as it stands in the list beside the records. It has a type of its own since a look-up is among things that
/// have an id, and a bare `CyclicId` is none of these. When it runs it is the id and nothing more.
#[derive(Clone, Copy)]
struct RecordId {
    id: CyclicId,
}

impl HasId for RecordId {
    ghost id_of = { λ kept. kept.id };

    fn number(&self) -> u64 {
        self.id.number()
    }

    fn is_up_to(&self, id: CyclicId) -> bool {
        self.id.number() <= id.number()
    }
}

/// The records by rising id. A look-up takes O(log n), and nothing but `reserve` takes memory.
///
/// Each record stands in a box of its own, so that a removal moves the boxes between it and the nearer end and no record. The
/// ids stand in a list of their own too, in at most two runs, one of which a look-up halves over, so that it follows no box. The
/// box of a record that goes is kept for the next one.
#[derive(Drop)]
pub struct Records {
    list: VecDeque<Box<Record>>,
    // Their ids, in the same order.
    ids: VecDeque<RecordId>,
    // Where there is one, both lists have room for it.
    spare: Option<Box<Record>>,
    alloc: Global,
    // For the low bits of an id where `seek` found the last such one: right or not, it says where to look.
    hints: [u16; HINTS],
}

impl Model for Records {
    ghost use Rattle.std.specs.Prelude.{◌<◌, ◌+◌, ◌≡◌, length, map, cond, is_some, IsSome};
    ghost use Rattle.std.specs.VecDeque.{deque_len, deque_capacity};
    ghost use Rattle.cyc_places.specs.Places.{RecordsView, HasRisingIds, HaveCounts, HaveAllCounts};

    ghost Value = { RecordsView };

    ghost view = { λ r. record {
      list = map (λ kept. kept.value) r.list.items;
      room = length r.list.items + cond (is_some r.spare) 1 0;
    } };

    ghost invariant = { λ r. HasRisingIds (map (λ kept. kept.value) r.list.items)
        × HaveCounts (map (λ kept. kept.value) r.list.items)
        × HaveAllCounts (map (λ kept. kept.value) r.list.items) × (IsSome r.spare → deque_len r.list < deque_capacity r.list)
        × (r.ids.items ≡ map (λ kept. record { id = kept.value.id }) r.list.items)
        × (IsSome r.spare → deque_len r.ids < deque_capacity r.ids) };
}

// The position of an id among those of the front and then those of the back, which rise. None where it is in neither.
fn find_in(front: &[RecordId], back: &[RecordId], id: CyclicId) -> Option<usize>
    requires rises { Rises (λ kept. kept.id) (front.now ++ back.now) }
    requires countable { length front.now + length back.now < 2 ^ 64 }
    ensures none { IfNone result (All (λ kept. kept.id ≢ id) (front.now ++ back.now)) }
    ensures some { IfSome result (IsAt (λ kept. kept.id) (front.now ++ back.now) id) }
{
    match back.first() {
        Some(first) if first.id.number() <= id.number() => match search(back, id) {
            Ok(position) => Some(front.len() + position),
            Err(_) => None,
        },
        _ => search(front, id).ok(),
    }
}

impl Records {
    /// No record.
    pub fn new(alloc: Global) -> Records
        ensures { result.list ≡ [] }
    {
        Records {
            list: VecDeque::new(alloc),
            ids: VecDeque::new(alloc),
            spare: None,
            alloc,
            hints: [0; HINTS],
        }
    }

    /// Takes the memory of one more record, so that the next `push` takes none. Refuses with Memory alone.
    pub fn reserve(&mut self) -> Result<(), Refusal>
        ensures list { self.new.list ≡ self.old.list }
        ensures ok { OnOk result (length self.new.list < self.new.room) }
        ensures err { IfErr result (λ refusal. refusal ≡ Memory) }
    {
        self.list.reserve(1)?;
        self.ids.reserve(1)?;
        if self.spare.is_none() {
            self.spare = Some(Box::new(self.alloc, Record::VACANT)?);
        }
        Ok(())
    }

    /// Puts in a record, with no ended stay, behind the others, whose ids are smaller. Takes no memory.
    pub fn push(&mut self, id: CyclicId, level: Level, placement: Placement)
        requires last { All (λ r. r.id < id) self.old.list }
        requires reserved { length self.old.list < self.old.room }
        ensures { self.new.list ≡ self.old.list ++ new_record id level placement ∷ [] }
    {
        let Some(mut kept) = self.spare.take() else {
            unreachable!()
        };
        *kept = Record {
            id,
            level,
            placement,
            ended: [Sent { sent: 0, lost: 0 }; CPUS as usize],
        };
        self.list.push_back_reserved(kept);
        self.ids.push_back_reserved(RecordId { id });
    }

    /// How many records there are.
    pub fn len(&self) -> usize
        ensures { result ≡ length self.now.list }
    {
        self.list.len()
    }

    /// The position of the record of this id. None where it has none. O(log n).
    pub fn find(&self, id: CyclicId) -> Option<usize>
        ensures none { IfNone result (HasNoRecord id self.now.list) }
        ensures some { IfSome result (λ k. (r : Record) × IsRecord self.now.list k r × (r.id ≡ id)) }
    {
        let (front, back) = self.ids.as_slices();
        find_in(front, back, id)
    }

    /// Whether the record of this id is at this position.
    #[inline(always)]
    fn is_at(&self, id: CyclicId, position: usize) -> bool
        ensures there { OnTrue result ((r : Record) × IsRecord self.now.list position r × (r.id ≡ id)) }
        ensures elsewhere { OnFalse result ((r : Record) → IsRecord self.now.list position r → r.id ≢ id) }
    {
        position < self.ids.len() && self.ids[position].id.number() == id.number()
    }

    /// As `find`, by two looks: as far from the first record as the id is above its id, and where `seek` found it last. None
    /// unless it is at one of them. O(1).
    #[inline(always)]
    pub fn soon(&self, id: CyclicId) -> Option<usize>
        ensures none { IfNone result ((first r : Record) → IsRecord self.now.list 0 first → first.id ≤ id
            → IsRecord self.now.list (id - first.id) r → r.id ≢ id) }
        ensures some { IfSome result (λ k. (r : Record) × IsRecord self.now.list k r × (r.id ≡ id)) }
    {
        let Some(first) = self.ids.front() else {
            return None;
        };
        let guessed = id.number().wrapping_sub(first.id.number()) as usize;
        if self.is_at(id, guessed) {
            return Some(guessed);
        }
        let hinted = usize::from(self.hints[hint_of(id)]);
        if self.is_at(id, hinted) {
            return Some(hinted);
        }
        None
    }

    /// As `find`, and the next `soon` of this id finds it while no record before it goes and no other id has its hint.
    #[cold]
    #[inline(never)]
    pub fn seek(&mut self, id: CyclicId) -> Option<usize>
        ensures none { IfNone result (HasNoRecord id self.new.list) }
        ensures some { IfSome result (λ k. (r : Record) × IsRecord self.new.list k r × (r.id ≡ id)) }
        ensures same { self.new ≡ self.old }
    {
        let position = self.find(id)?;
        self.hints[hint_of(id)] = position.min(usize::from(u16::MAX)) as u16;
        Some(position)
    }

    /// The record at a position.
    pub fn at(&self, position: usize) -> &Record
        requires { position < length self.now.list }
        ensures { IsRecord self.now.list position result.now }
    {
        &self.list[position]
    }

    /// The cyclic of this record is now there.
    pub fn set_placement(&mut self, position: usize, there: Placement)
        requires { position < length self.old.list }
        ensures { (r : Record) → IsRecord self.old.list position r
            → self.new.list ≡ slice_set self.old.list position (with_placement there r) }
    {
        self.list[position].placement = there;
    }

    /// A stay of the cyclic has ended on the CPU of this number with these counts.
    pub fn add_ended(&mut self, position: usize, cpu: usize, counts: Sent)
        requires here { position < length self.old.list }
        requires cpu { cpu < most_cpus }
        requires counted { counts.lost ≤ counts.sent }
        requires fits { (r : Record) → IsRecord self.old.list position r → ((ended_on cpu r).sent + counts.sent < 2 ^ 64)
            × ((ended_on cpu r).lost + counts.lost < 2 ^ 64) }
        ensures { (r : Record) → IsRecord self.old.list position r
            → self.new.list ≡ slice_set self.old.list position (with_ended cpu (summed (ended_on cpu r) counts) r) }
    {
        let record = &mut self.list[position];
        let ended = record.ended[cpu];
        record.ended[cpu] = Sent {
            sent: ended.sent + counts.sent,
            lost: ended.lost + counts.lost,
        };
    }

    /// A stay of the cyclic begins on the CPU of this number, and takes on the counts that earlier ones left there, which it
    /// gives.
    pub fn take_ended(&mut self, position: usize, cpu: usize) -> Sent
        requires here { position < length self.old.list }
        requires cpu { cpu < most_cpus }
        ensures counts { (r : Record) → IsRecord self.old.list position r → result ≡ ended_on cpu r }
        ensures list { (r : Record) → IsRecord self.old.list position r
            → self.new.list ≡ slice_set self.old.list position (with_ended cpu no_counts r) }
    {
        let record = &mut self.list[position];
        let counts = record.ended[cpu];
        record.ended[cpu] = Sent { sent: 0, lost: 0 };
        counts
    }

    /// The removal of the cyclic has answered: its record goes. It moves 16 bytes for each record between it and the nearer
    /// end: 8 of its box and 8 of its id.
    pub fn remove(&mut self, position: usize)
        requires { position < length self.old.list }
        ensures { self.new.list ≡ remove self.old.list position }
    {
        self.spare = self.list.remove(position);
        self.ids.remove(position);
    }

    /// The receipt of a cyclic all of whose stays have ended: the counts of all of them.
    pub fn receipt(&self, position: usize) -> Receipt
        requires { position < length self.now.list }
        ensures { (r : Record) → IsRecord self.now.list position r → IsReceiptOf result r }
    {
        let record = &self.list[position];
        Receipt {
            id: record.id,
            sent: record.ended_sent(),
            lost: record.ended_lost(),
        }
    }

    /// What is true of the records at any time: their ids rise, and of each it is known for 16 CPUs what its ended stays left. It
    /// does nothing when it runs.
    pub fn law(&self)
        ensures rising { HasRisingIds self.now.list }
        ensures counts { HaveCounts self.now.list }
        ensures all { HaveAllCounts self.now.list }
    {
        let _ = self.list.len();
    }
}
