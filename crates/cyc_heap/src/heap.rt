//! The heap of expirations, with a look-up by index.

ghost use Rattle.std.specs.Prelude.{◌≡◌, ℕ, ◌+◌, ◌-◌, ◌*◌, ◌/◌, ◌<◌, ◌≤◌, ◌⊎◌, ◌↔◌, ◌++◌, [], ◌∷◌, true, false};
ghost use Rattle.std.specs.Prelude.{max, length, replicate, slice_set};
ghost use Rattle.std.specs.Prelude.{option_map, Some, None, IsSome, IfSome, IfNone, IfOk, IfErr, OnOk, OnErr, vec_len};
ghost use Rattle.std.specs.Prelude.{vec_capacity, is_some, count_by};
ghost use Rattle.cyc_types.specs.Limits.{cyclics};
ghost use Rattle.cyc_types.specs.declared.refusal.Refusal.TheVariants.{Memory};
ghost use Rattle.cyc_types.specs.Expirations.{Expiration};
ghost use Rattle.cyc_types.specs.Series.{never};
ghost use Rattle.cyc_heap.specs.Tournament.{key, cyclic_index, entry_at, free_entry, slots, IsPlayed};
ghost use Rattle.cyc_heap.specs.Few.{most_few, root_position, shown, IsTree};
ghost use Rattle.cyc_heap.specs.Heap.{HeapView, new_heap, size_of, used_count, expiration_at, slots_moved, pair_of};
ghost use Rattle.cyc_heap.specs.Heap.{IsEmptyHeap, IsLeast, IsOf};

use crate::between::{few_at_most, gather, play_few};
use crate::changes::{add, change, change_many, lower_first, take};
use crate::entry::Entry;
use crate::few::find;
use crate::games::play_all;
use cyc_types::{CYCLICS, CyclicId, Index, Moment, Refusal};
use std::alloc::Global;
use std::marker::Model;

/// The expirations of one CPU's cyclics by their indexes, with the least at hand (`cyp_heap` of sys/cyclic_impl.h).
/// The size is the number of indexes; of equal moments the smaller id expires first (our own rule).
///
/// Few expirations are a heap in an array, as the kernel's, and many are a tournament (our own): a change of any expiration sifts
/// it among the few, or plays the games above its index again, at most twelve. An insertion that leads from few to many plays all
/// games, and a removal that leads back sifts all that are left; of the same leaves at least 16 others lie between two such
/// calls.
#[derive(Drop)]
pub struct ExpiryHeap {
    /// Few expirations as a heap in front, where what stands behind means nothing; or the leaves, and after them the winner of
    /// each game.
    entries: Vec<Entry>,
    /// Where the least expiration stands: in front, or as the last winner.
    root: usize,
    /// Whether they are few. More than `few_at_most` play, until no more than half of so many are left.
    is_few: bool,
    /// How many stand in front.
    held: usize,
    /// The number of leaves: one for each index, and some for those to come, so that few calls of `widen` play all games.
    leaves: usize,
    /// The number of indexes.
    size: usize,
    /// The indexes that were given and are free again; the last is given first.
    free: Vec<Index>,
    /// How many indexes were ever given: the smaller ones. Those above are free too, and the smallest of them is given next
    /// where none is free again.
    given: usize,
    /// The size for which memory was taken.
    room: usize,
}

impl Model for ExpiryHeap {
    ghost use Rattle.std.specs.Prelude.{suc, ◌*◌, ◌≤◌, vec_capacity, take};
    ghost use Rattle.cyc_heap.specs.Heap.{HeapView};
    ghost use Rattle.cyc_heap.specs.Tournament.{slots};
    ghost use Rattle.cyc_heap.specs.Few.{shown, root_of, IsTournament, IsFront, extent};

    ghost Value = { HeapView };

    ghost view = { λ h. record {
      slots = slots h.size (shown h.is_few h.held h.entries.items);
      root =
          root_of h.is_few (take h.held h.entries.items) h.leaves (shown h.is_few h.held h.entries.items);
      room = h.room;
    } };

    ghost invariant = { λ h. IsTournament h.is_few (take h.held h.entries.items) (extent h.leaves h.size h.given)
        (shown h.is_few h.held h.entries.items) h.free.items
        × IsFront h.is_few h.held h.root (extent h.leaves h.size h.given) h.entries.items h.free.items
        × (h.size ≤ h.room) × (2 * h.room ≤ suc (vec_capacity h.entries)) × (h.room ≤ vec_capacity h.free) };
}

impl ExpiryHeap {
    /// A heap of size 1 with its one index free. Refuses with Memory alone.
    pub fn new(alloc: Global) -> Result<ExpiryHeap, Refusal>
        ensures ok { IfOk result (λ heap. heap ≡ new_heap) }
        ensures err { IfErr result (λ refusal. refusal ≡ Memory) }
    {
        let mut entries = Vec::with_capacity(alloc, 1)?;
        let free = Vec::with_capacity(alloc, 1)?;
        add_free(&mut entries, 1);
        Ok(ExpiryHeap {
            entries,
            root: 0,
            is_few: true,
            held: 0,
            leaves: 1,
            size: 1,
            free,
            given: 0,
            room: 1,
        })
    }

    /// Takes the memory of this size, so that `widen` and `insert` up to it take none. Refuses with Memory alone, and
    /// only where the memory was not taken before.
    pub fn reserve(&mut self, size: usize) -> Result<(), Refusal>
        ensures ok { OnOk result (self.new ≡ record self.old { room = max self.old.room size }) }
        ensures err { OnErr result (self.new ≡ self.old) }
        ensures memory { IfErr result (λ refusal. refusal ≡ Memory) }
        ensures refused { OnErr result (self.old.room < size) }
    {
        if size > self.room {
            // no allocation can give as much as overflows here
            let all = size.checked_mul(2).ok_or(Refusal::Memory)?;
            let more = all.saturating_sub(self.entries.len());
            self.entries.reserve(more)?;
            self.free.reserve(size - self.free.len())?;
            self.room = size;
        }
        Ok(())
    }

    /// Adds free indexes up to this size (`cyclic_expand`). Takes no memory. O(1), but for a call that lays out more leaves,
    /// twice as many where the memory is there: it writes fewer than twice `CYCLICS` entries, and where many play it plays all
    /// games.
    pub fn widen(&mut self, size: usize)
        requires few { size ≤ cyclics }
        requires reserved { size ≤ self.old.room }
        ensures slots { self.new.slots ≡ self.old.slots ++ replicate (size - size_of self.old) None }
        ensures root { self.new.root ≡ self.old.root }
        ensures room { self.new.room ≡ self.old.room }
    {
        if size > self.size {
            self.leaves = lay_out(&mut self.entries, self.is_few, self.leaves, size);
            self.root = root_at(self.is_few, self.leaves);
            self.size = size;
        }
    }

    /// Puts in an expiration, and gives the index that it has from now on: one that was free. Takes no memory.
    pub fn insert(&mut self, moment: Moment, id: CyclicId) -> Index
        requires { used_count self.old < size_of self.old }
        ensures below { result < size_of self.old }
        ensures free { expiration_at self.old result ≡ None }
        ensures slots { self.new.slots ≡ slice_set self.old.slots result (Some (record { moment = moment; id = id })) }
        ensures room { self.new.room ≡ self.old.room }
    {
        self.is_few = make_room(&mut self.entries, self.is_few, &mut self.held, self.leaves);
        self.root = root_at(self.is_few, self.leaves);
        let index = next_index(&mut self.free, &mut self.given);
        let entry = Entry::new(moment, id, index);
        self.held = add(
            &mut self.entries,
            self.is_few,
            self.held,
            self.leaves,
            index,
            entry,
        );
        index
    }

    /// The least expiration by its moment and then its id, and its index. None where no index is in use.
    pub fn root(&self) -> Option<(Index, Moment, CyclicId)>
        ensures some { IsSome result ↔ (0 < used_count self.now) }
        ensures empty { IfNone result (IsEmptyHeap self.now) }
        ensures root { self.now.root ≡ option_map (λ found. found.0) result }
        ensures least { IfSome result (λ found. IsLeast self.now found.0 (record { moment = found.1; id = found.2 })) }
    {
        let first = self.first();
        let moment = first.moment()?;
        Some((first.index(), moment, first.id()))
    }

    /// The root where its moment has come: its index, how long ago that was, in nanoseconds, and its id. None where the moment is
    /// later than `now`, and where no index is in use: one comparison tells both, since the entry of a free index comes after
    /// every moment.
    pub fn due_root(&self, now: Moment) -> Option<(Index, u64, CyclicId)>
        ensures none { IfNone result (IsEmptyHeap self.now
            ⊎ ((i : ℕ) × (e : Expiration) × IsLeast self.now i e × (now < e.moment))) }
        ensures due { IfSome result (λ found. found.1 ≤ now) }
        ensures root { IfSome result (λ found. self.now.root ≡ Some found.0) }
        ensures least { IfSome result (λ found. IsLeast self.now found.0 (record { moment = now - found.1; id = found.2 })) }
    {
        let first = self.first();
        let now = now.nanoseconds();
        if now < first.moment {
            return None;
        }
        Some((first.index(), now - first.moment, first.id()))
    }

    /// The entry at the root, which may be that of a free index.
    #[inline(always)]
    fn first(&self) -> Entry
        ensures free { never < result.moment → IsEmptyHeap self.now × (self.now.root ≡ None) }
        ensures used { result.moment ≤ never → IsLeast self.now (cyclic_index result) (key result)
            × (self.now.root ≡ Some (cyclic_index result)) }
    {
        self.entries[self.root]
    }

    /// Gives the least expiration another moment (`cyclic_downheap` in `cyclic_fire`).
    #[inline(always)]
    pub fn lower_root(&mut self, moment: Moment)
        requires { IsSome self.old.root }
        ensures slots { IfSome self.old.root (λ index. self.new.slots ≡ slots_moved self.old.slots index moment) }
        ensures room { self.new.room ≡ self.old.room }
    {
        let held = self.held;
        if held > 0 {
            lower_first(&mut self.entries, held, self.leaves, moment);
            return;
        }
        let index = self.entries[self.root].index();
        change_many(&mut self.entries, self.leaves, index, moment);
    }

    /// Gives the expiration of this index another moment, earlier or later (`cyclic_reprogram_cyclic`).
    pub fn replace(&mut self, index: Index, moment: Moment)
        requires { IsSome (expiration_at self.old index) }
        ensures slots { self.new.slots ≡ slots_moved self.old.slots index moment }
        ensures room { self.new.room ≡ self.old.room }
    {
        let id = self.leaf(index).id();
        self.replace_of(id, index, moment);
    }

    /// As `replace`, where it is known of which id the index is: among few that one is found the sooner.
    pub fn replace_of(&mut self, id: CyclicId, index: Index, moment: Moment)
        requires { IsOf self.old id index }
        ensures slots { self.new.slots ≡ slots_moved self.old.slots index moment }
        ensures room { self.new.room ≡ self.old.room }
    {
        change(
            &mut self.entries,
            self.is_few,
            self.held,
            self.leaves,
            id,
            index,
            moment,
        );
    }

    /// Takes out the expiration of this index, which is free from now on (`cyclic_remove_here`).
    pub fn remove(&mut self, index: Index)
        requires { IsSome (expiration_at self.old index) }
        ensures slots { self.new.slots ≡ slice_set self.old.slots index None }
        ensures room { self.new.room ≡ self.old.room }
    {
        self.held = take(
            &mut self.entries,
            self.is_few,
            self.held,
            self.leaves,
            index,
        );
        self.free.push_reserved(index);
        let len = self.given.saturating_sub(self.free.len());
        self.is_few = is_few_now(
            &mut self.entries,
            self.is_few,
            &mut self.held,
            self.leaves,
            len,
        );
        self.root = root_at(self.is_few, self.leaves);
    }

    /// The expiration of this index. None where the index is free or not below the size.
    pub fn at(&self, index: Index) -> Option<(Moment, CyclicId)>
        ensures { result ≡ option_map pair_of (expiration_at self.now index) }
    {
        let entry = self.leaf(index);
        let moment = entry.moment()?;
        Some((moment, entry.id()))
    }

    /// The entry of this index, one that is free where there is none.
    fn leaf(&self, index: Index) -> Entry
        ensures free { never < result.moment → expiration_at self.now index ≡ None }
        ensures used { result.moment ≤ never → expiration_at self.now index ≡ Some (key result) }
    {
        if self.is_few {
            return match find(&self.entries.as_slice()[..self.held], index) {
                Some(position) => self.entries[position],
                None => Entry::free(),
            };
        }
        let position = usize::from(index.number());
        if position >= self.size {
            return Entry::free();
        }
        self.entries[position]
    }

    /// How many indexes are in use.
    pub fn len(&self) -> usize
        ensures value { result ≡ used_count self.now }
        ensures few { result ≤ size_of self.now }
    {
        self.given - self.free.len()
    }

    /// The number of indexes, those in use and those that are free.
    pub fn size(&self) -> usize
        ensures value { result ≡ size_of self.now }
        ensures few { result ≤ cyclics }
        ensures reserved { result ≤ self.now.room }
    {
        self.size
    }
}

/// Where the least expiration stands.
fn root_at(is_few: bool, leaves: usize) -> usize
    requires some { 0 < leaves }
    requires few { leaves ≤ cyclics }
    ensures { result ≡ root_position is_few leaves }
{
    if is_few { 0 } else { 2 * (leaves - 1) }
}

/// Where the few are as many as may be few, they play from now on. Says whether they are few, so that there is room for one
/// more.
fn make_room(entries: &mut Vec<Entry>, is_few: bool, held: &mut usize, leaves: usize) -> bool
    requires leaves { leaves ≤ cyclics }
    requires low { held.old < leaves }
    requires none { is_few ≡ false → held.old ≡ 0 }
    requires tree { IsTree is_few held.old leaves entries.old.items }
    ensures tree { IsTree result held.new leaves entries.new.items }
    ensures long { length entries.new.items ≡ length entries.old.items }
    ensures kept { (i : ℕ) → i < leaves
        → entry_at (shown result held.new entries.new.items) i ≡ entry_at (shown is_few held.old entries.old.items) i }
    ensures few { result ≡ true → (is_few ≡ true) × (held.new ≡ held.old) × (held.new < most_few leaves) }
    ensures none { result ≡ false → held.new ≡ 0 }
    ensures room { vec_capacity entries.new ≡ vec_capacity entries.old }
{
    if !is_few {
        return false;
    }
    if *held < few_at_most(leaves) {
        return true;
    }
    play_few(entries, *held, leaves);
    *held = 0;
    false
}

/// Whether they are few, now that so many are left. Where they were many and few are left, these stand in front from now on.
fn is_few_now(
    entries: &mut Vec<Entry>,
    is_few: bool,
    held: &mut usize,
    leaves: usize,
    len: usize,
) -> bool
    requires some { 0 < leaves }
    requires leaves { leaves ≤ cyclics }
    requires none { is_few ≡ false → held.old ≡ 0 }
    requires own { (i : ℕ) → i < leaves → (entry_at (shown is_few held.old entries.old.items) i).moment ≤ never
        → cyclic_index (entry_at (shown is_few held.old entries.old.items) i) ≡ i }
    requires tree { IsTree is_few held.old leaves entries.old.items }
    ensures tree { IsTree result held.new leaves entries.new.items }
    ensures long { length entries.new.items ≡ length entries.old.items }
    ensures kept { (i : ℕ) → i < leaves
        → entry_at (shown result held.new entries.new.items) i ≡ entry_at (shown is_few held.old entries.old.items) i }
    ensures few { is_few ≡ true → (result ≡ true) × (held.new ≡ held.old) }
    ensures left { is_few ≡ false → result ≡ true → (len ≤ most_few leaves / 2)
        × (held.new ≡ count_by is_some (slots leaves (shown is_few held.old entries.old.items))) }
    ensures none { result ≡ false → held.new ≡ 0 }
    ensures room { vec_capacity entries.new ≡ vec_capacity entries.old }
{
    if is_few {
        return true;
    }
    // so much fewer that the way there and back isn't gone at each call
    if len > few_at_most(leaves) / 2 {
        return false;
    }
    *held = gather(entries, leaves);
    true
}

/// The index that is given next: the last of those that are free again, or else the smallest that was never given.
fn next_index(free: &mut Vec<Index>, given: &mut usize) -> Index
    requires { free.old.items ≡ [] → given.old < cyclics }
    ensures next { ((free.old.items ≡ free.new.items ++ result ∷ []) × (given.new ≡ given.old))
        ⊎ ((free.old.items ≡ []) × (free.new.items ≡ []) × (result ≡ given.old) × (given.new ≡ given.old + 1)) }
    ensures room { vec_capacity free.new ≡ vec_capacity free.old }
{
    match free.pop() {
        Some(index) => index,
        None => {
            let index = index_at(*given);
            *given += 1;
            index
        }
    }
}

/// Makes the leaves at least as many as this size, and says how many there are. Where they are too few they become twice as
/// many, if the memory is there, and many play all games anew. Takes no memory.
fn lay_out(entries: &mut Vec<Entry>, is_few: bool, leaves: usize, size: usize) -> usize
    requires some { 0 < leaves }
    requires few { leaves ≤ cyclics }
    requires size { size ≤ cyclics }
    requires long { length entries.old.items + 1 ≡ 2 * leaves }
    requires room { 2 * size ≤ vec_capacity entries.old + 1 }
    ensures size { size ≤ result }
    ensures more { leaves ≤ result }
    ensures few { result ≤ cyclics }
    ensures long { length entries.new.items + 1 ≡ 2 * result }
    ensures front { is_few ≡ true → (p : ℕ) → p < length entries.old.items
        → entry_at entries.new.items p ≡ entry_at entries.old.items p }
    ensures kept { is_few ≡ false → (i : ℕ) → i < leaves → entry_at entries.new.items i ≡ entry_at entries.old.items i }
    ensures unused { is_few ≡ false → (i : ℕ) → leaves ≤ i → i < result → entry_at entries.new.items i ≡ free_entry }
    ensures played { is_few ≡ false → IsPlayed leaves entries.old.items → IsPlayed result entries.new.items }
    ensures room { vec_capacity entries.new ≡ vec_capacity entries.old }
{
    if size <= leaves {
        return leaves;
    }
    let most = usize::from(CYCLICS).min(entries.capacity() / 2);
    let more = size.max(most.min(2 * leaves));
    if is_few {
        add_free(entries, 2 * more - 1);
        return more;
    }
    entries.truncate(leaves);
    add_free(entries, 2 * more - 1);
    play_all(entries.as_mut_slice(), more);
    more
}

/// Adds free entries up to this number.
fn add_free(entries: &mut Vec<Entry>, number: usize)
    requires more { length entries.old.items ≤ number }
    requires room { number ≤ vec_capacity entries.old }
    ensures long { length entries.new.items ≡ number }
    ensures kept { (i : ℕ) → i < length entries.old.items → entry_at entries.new.items i ≡ entry_at entries.old.items i }
    ensures unused { (i : ℕ) → length entries.old.items ≤ i → i < number → entry_at entries.new.items i ≡ free_entry }
    ensures room { vec_capacity entries.new ≡ vec_capacity entries.old }
{
    for _position in entries.len()..number {
        entries.push_reserved(Entry::free());
    }
}

/// The index of this number.
fn index_at(number: usize) -> Index
    requires { number < cyclics }
    ensures { result ≡ number }
{
    Index::new(number as u16).unwrap()
}
