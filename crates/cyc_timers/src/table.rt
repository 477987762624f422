//! The cyclics of one CPU: the heap, the records and the look-up by id, shown as one list of rows.

ghost use Rattle.std.specs.Prelude.{◌≡◌, ◌≢◌, ℕ, ◌+◌, ◌-◌, ◌<◌, ◌≤◌, max, length, slice_index_or, slice_set, Some, None, IfOk};
ghost use Rattle.std.specs.Prelude.{IfErr, OnOk, OnErr, IfNone, IfSome, All, [], insert, remove};
ghost use Rattle.std.specs.Bool.{OnTrue, OnFalse};
ghost use Rattle.cyc_types.specs.Limits.{cyclics};
ghost use Rattle.cyc_types.specs.Series.{never};
ghost use Rattle.cyc_types.specs.Timers.{IsSoundTimer};
ghost use Rattle.cyc_types.specs.declared.refusal.Refusal.TheVariants.{Memory};
ghost use Rattle.cyc_timers.specs.Rows.{Row, TableView, new_table, timers_of, IsRow, IsRising, HasNo, HasDistinctIndexes};
ghost use Rattle.cyc_timers.specs.Rows.{vacant_row, with_record, with_counts, at_moment, IsRecordOf, IsFirstAt};
ghost use Rattle.cyc_finder.specs.Sorted.{IsNextAfter, IsPassed};

use cyc_finder::Finder;
use cyc_heap::ExpiryHeap;
use cyc_types::{CyclicId, Index, Interval, Level, Moment, Refusal, Sent};
use std::alloc::Global;
use std::marker::Model;

/// What a CPU keeps of a cyclic beside its expiration (`cyclic_t` of sys/cyclic_impl.h).
#[derive(Clone, Copy)]
pub struct Record {
    /// At which level its handler is called (`cy_level`).
    pub level: Level,
    /// From one expiration to the next, in nanoseconds (`cy_interval`).
    pub interval: Interval,
    /// The expirations so far.
    pub expired: u64,
    /// Those of them that were lost at the ceiling.
    pub lost: u64,
    /// What of both it carried in from another CPU (our own).
    pub carried: Sent,
}

/// The cyclics of a CPU: the expirations in a heap, the records by index, and the indexes by rising id (`cyp_heap` and
/// `cyp_cyclics` of sys/cyclic_impl.h; the order by id is our own).
///
/// A look-up by id takes O(log n), and so do an expiration, taking out and, on average, putting in above the last id.
#[derive(Drop)]
pub struct Table {
    heap: ExpiryHeap,
    records: Vec<Record>,
    finder: Finder,
}

impl Model for Table {
    ghost use Rattle.std.specs.Prelude.{◌≤◌, length, vec_capacity};
    ghost use Rattle.cyc_timers.specs.Rows.{TableView, rows_of, IsTable};

    ghost Value = { TableView };

    ghost view = { λ t. record {
      rows = rows_of t.heap.slots t.records.items t.finder.entries;
      root = t.heap.root;
      size =
          length t.heap.slots;
      room = t.heap.room;
    } };

    ghost invariant = { λ t. IsTable t.heap.slots t.records.items t.finder.entries × (t.heap.room ≤ vec_capacity t.records)
        × (t.heap.room ≤ t.finder.room) × (length t.heap.slots ≤ t.heap.room) };
}

impl Record {
    /// What stands at an index that is free.
    fn vacant() -> Record
        ensures { result.interval ≡ 1 }
    {
        Record {
            level: Level::Low,
            interval: Interval::new(1).unwrap(),
            expired: 0,
            lost: 0,
            carried: Sent { sent: 0, lost: 0 },
        }
    }
}

impl Table {
    /// A table of size 1 with no cyclic (`cyclic_configure`). Takes the memory of one cyclic; refuses with Memory alone.
    pub fn new(alloc: Global) -> Result<Table, Refusal>
        ensures ok { IfOk result (λ table. table ≡ new_table) }
        ensures err { IfErr result (λ refusal. refusal ≡ Memory) }
    {
        let mut records = Vec::with_capacity(alloc, 1)?;
        let finder = Finder::new(alloc)?;
        let heap = ExpiryHeap::new(alloc)?;
        let _ = records.push(Record::vacant());
        Ok(Table {
            heap,
            records,
            finder,
        })
    }

    /// Takes the memory of this size, so that `widen` up to it and each `insert` take none. Refuses with Memory alone; no
    /// cyclic is touched then.
    pub fn reserve(&mut self, size: usize) -> Result<(), Refusal>
        ensures ok { OnOk result (self.new ≡ record self.old { room = max self.old.room size }) }
        ensures err { OnErr result (self.new ≡ self.old) }
        ensures memory { IfErr result (λ refusal. refusal ≡ Memory) }
        ensures refused { OnErr result (self.old.room < size) }
    {
        self.records
            .reserve(size.saturating_sub(self.records.len()))?;
        self.finder.reserve(size)?;
        self.heap.reserve(size)
    }

    /// Adds free indexes up to this size; a table that is larger stays as it is (`cyclic_expand`). Takes no memory.
    pub fn widen(&mut self, size: usize)
        requires few { size ≤ cyclics }
        requires reserved { size ≤ self.old.room }
        ensures { self.new ≡ record self.old { size = max self.old.size size } }
    {
        self.heap.widen(size);
        let length = self.records.len().max(size);
        let _ = self.records.resize(length, Record::vacant());
    }

    /// Puts in a cyclic with this record and this first expiration, and gives its index, which was free (`cyclic_add_here`).
    /// O(log n) on average where the id is above all that came, else as `insert` of a `Finder`. Takes no memory.
    pub fn insert(&mut self, id: CyclicId, moment: Moment, kept: Record) -> Index
        requires free { length self.old.rows < self.old.size }
        requires absent { HasNo id self.old.rows }
        requires moment { moment ≤ never }
        requires interval { (0 < kept.interval) × (kept.interval ≤ never) }
        ensures below { result < self.old.size }
        ensures fresh { All (λ r. r.index ≢ result) self.old.rows }
        ensures rows { (k : ℕ) × (k ≤ length self.old.rows)
            × (self.new.rows ≡ insert self.old.rows k (with_record moment kept (vacant_row id result))) }
        ensures size { self.new.size ≡ self.old.size }
        ensures room { self.new.room ≡ self.old.room }
    {
        let index = self.heap.insert(moment, id);
        self.finder.insert(id, index);
        self.records[index.number() as usize] = kept;
        index
    }

    /// The index of the cyclic of this id, or None where it is not here. O(log n), and takes no memory.
    pub fn find(&self, id: CyclicId) -> Option<Index>
        ensures none { IfNone result (HasNo id self.now.rows) }
        ensures some { IfSome result (λ index. (k : ℕ) × (r : Row) × IsRow self.now.rows k r × (r.timer.id ≡ id)
            × (r.index ≡ index)) }
    {
        self.finder.find(id)
    }

    /// Whether a cyclic of this id is here. O(1) where the id is above all that came, as that of a new cyclic mostly is, else
    /// O(log n). Takes no memory.
    pub fn has(&self, id: CyclicId) -> bool
        ensures here { OnTrue result ((k : ℕ) × (r : Row) × IsRow self.now.rows k r × (r.timer.id ≡ id)) }
        ensures none { OnFalse result (HasNo id self.now.rows) }
    {
        self.finder.has(id)
    }

    /// As `find`, by two looks: as far from the first id as this is above it, and where it was found last. None unless it stands
    /// at one of them. O(1), and takes no memory.
    #[inline(always)]
    pub fn soon(&self, id: CyclicId) -> Option<Index>
        ensures none { IfNone result ((first r : Row) → IsRow self.now.rows 0 first → first.timer.id ≤ id
            → IsRow self.now.rows (id - first.timer.id) r → r.timer.id ≢ id) }
        ensures some { IfSome result (λ index. (k : ℕ) × (r : Row) × IsRow self.now.rows k r × (r.timer.id ≡ id)
            × (r.index ≡ index)) }
    {
        self.finder.soon(id)
    }

    /// As `find`, and the next `soon` of this id finds it while no cyclic comes and no other id has its hint.
    pub fn seek(&mut self, id: CyclicId) -> Option<Index>
        ensures none { IfNone result (HasNo id self.new.rows) }
        ensures some { IfSome result (λ index. (k : ℕ) × (r : Row) × IsRow self.new.rows k r × (r.timer.id ≡ id)
            × (r.index ≡ index)) }
        ensures same { self.new ≡ self.old }
    {
        self.finder.seek(id)
    }

    /// The cyclic with the smallest id above this one, or with the smallest of all: its id and its index, for a walk by rising
    /// id. None where there is none. O(log n), and those that were taken out are passed by. Takes no memory.
    pub fn next_after(&self, passed: Option<CyclicId>) -> Option<(CyclicId, Index)>
        ensures none { IfNone result (All (λ r. IsPassed passed r.timer.id) self.now.rows) }
        ensures some { IfSome result (λ found. (k : ℕ) × (r : Row) × IsRow self.now.rows k r × (r.timer.id ≡ found.0)
            × (r.index ≡ found.1) × IsNextAfter (λ x. x.timer.id) self.now.rows passed k) }
    {
        self.finder.next_after(passed)
    }

    /// The next expiration of the cyclic with this index of `find` (`cy_expire`). O(1).
    pub fn moment(&self, index: Index) -> Moment
        requires { (k : ℕ) × (r : Row) × IsRow self.now.rows k r × (r.index ≡ index) }
        ensures { (k : ℕ) (r : Row) → IsRow self.now.rows k r → r.index ≡ index → result ≡ r.timer.moment }
    {
        match self.heap.at(index) {
            Some(found) => found.0,
            None => unreachable!(),
        }
    }

    /// What is kept of the cyclic with this index of `find` or `root`. O(1).
    pub fn record(&self, index: Index) -> Record
        requires { (k : ℕ) × (r : Row) × IsRow self.now.rows k r × (r.index ≡ index) }
        ensures { (k : ℕ) (r : Row) → IsRow self.now.rows k r → r.index ≡ index → IsRecordOf result r }
    {
        let number = index.number() as usize;
        self.records[number]
    }

    /// Gives the cyclic with this id, and this index of `find`, another next expiration, earlier or later
    /// (`cyclic_reprogram_cyclic`). O(log n), and takes no memory.
    pub fn reprogram(&mut self, id: CyclicId, index: Index, moment: Moment)
        requires here { (k : ℕ) × (r : Row) × IsRow self.old.rows k r × (r.timer.id ≡ id) × (r.index ≡ index) }
        requires moment { moment ≤ never }
        ensures rows { (k : ℕ) (r : Row) → IsRow self.old.rows k r → r.index ≡ index
            → self.new.rows ≡ slice_set self.old.rows k (at_moment moment r) }
        ensures size { self.new.size ≡ self.old.size }
        ensures room { self.new.room ≡ self.old.room }
    {
        self.heap.replace_of(id, index, moment);
    }

    /// Takes out the cyclic of this id; its index is free from now on (`cyclic_remove_here`). O(log n), and takes no memory.
    pub fn remove(&mut self, id: CyclicId)
        requires { (k : ℕ) × (r : Row) × IsRow self.old.rows k r × (r.timer.id ≡ id) }
        ensures rows { (k : ℕ) (r : Row) → IsRow self.old.rows k r → r.timer.id ≡ id → self.new.rows ≡ remove self.old.rows k }
        ensures size { self.new.size ≡ self.old.size }
        ensures room { self.new.room ≡ self.old.room }
    {
        let index = self.finder.remove(id);
        self.heap.remove(index);
    }

    /// The cyclic that expires first, of equal moments the smaller id: its index, its moment and its id. None where there is
    /// no cyclic. O(1).
    pub fn root(&self) -> Option<(Index, Moment, CyclicId)>
        ensures none { IfNone result (self.now.rows ≡ []) }
        ensures root { IfSome result (λ found. self.now.root ≡ Some found.0) }
        ensures first { IfSome result (λ found. (k : ℕ) × (r : Row) × IsRow self.now.rows k r × (r.index ≡ found.0)
            × (r.timer.moment ≡ found.1) × (r.timer.id ≡ found.2) × IsFirstAt self.now.rows k) }
    {
        self.heap.root()
    }

    /// The cyclic that expires first where it is due: its index, how long ago its moment came, in nanoseconds, and its id. None
    /// where none is due. O(1).
    pub fn due_root(&self, now: Moment) -> Option<(Index, u64, CyclicId)>
        ensures none { IfNone result (All (λ t. now < t.moment) (timers_of self.now.rows)) }
        ensures due { IfSome result (λ found. found.1 ≤ now) }
        ensures root { IfSome result (λ found. self.now.root ≡ Some found.0) }
        ensures first { IfSome result (λ found. (k : ℕ) × (r : Row) × IsRow self.now.rows k r × (r.index ≡ found.0)
            × (r.timer.moment ≡ now - found.1) × (r.timer.id ≡ found.2) × IsFirstAt self.now.rows k) }
    {
        self.heap.due_root(now)
    }

    /// Gives the cyclic that expires first, with the index of `root`, another next expiration, and other counts of those so far
    /// and of those that were lost (`cyclic_fire`). O(log n), and takes no memory.
    #[inline(always)]
    pub fn expire_root(&mut self, index: Index, moment: Moment, expired: u64, lost: u64)
        requires root { self.old.root ≡ Some index }
        requires moment { moment ≤ never }
        requires here { (k : ℕ) × (r : Row) × IsRow self.old.rows k r × (r.index ≡ index) }
        ensures rows { (k : ℕ) (r : Row) → IsRow self.old.rows k r → r.index ≡ index
            → self.new.rows ≡ slice_set self.old.rows k (with_counts moment expired lost r) }
        ensures size { self.new.size ≡ self.old.size }
        ensures room { self.new.room ≡ self.old.room }
    {
        let kept = &mut self.records[index.number() as usize];
        kept.expired = expired;
        kept.lost = lost;
        self.heap.lower_root(moment);
    }

    /// The number of indexes, those in use and those that are free (`cyp_size`).
    pub fn size(&self) -> usize
        ensures value { result ≡ self.now.size }
        ensures few { result ≤ cyclics }
        ensures reserved { result ≤ self.now.room }
    {
        self.heap.size()
    }

    /// How many cyclics there are (`cyp_nelems`).
    pub fn len(&self) -> usize
        ensures value { result ≡ length self.now.rows }
        ensures few { result ≤ self.now.size }
    {
        self.heap.len()
    }

    /// What is true of every table: its ids rise, each of its cyclics is sound, and no two have one index. It does nothing
    /// when it runs.
    pub fn law(&self)
        ensures rising { IsRising self.now.rows }
        ensures sound { All IsSoundTimer (timers_of self.now.rows) }
        ensures apart { HasDistinctIndexes self.now.rows }
        ensures below { All (λ r. r.index < self.now.size) self.now.rows }
    {
        let _size = self.heap.size();
    }
}
