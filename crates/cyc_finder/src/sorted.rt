//! The look-up by id among things by rising id.

ghost use Rattle.std.specs.Prelude.{◌≡◌, ℕ, ◌-◌, ◌<◌, ◌≤◌, ◌↔◌, length, Some, IfOk, IfErr, IfSome, IfNone};
ghost use Rattle.std.specs.Bool.{IsTrue, OnTrue, OnFalse};
ghost use Rattle.std.specs.List.{slice_get};
ghost use Rattle.cyc_finder.specs.Sorted.{Rises, IsAt, IsGap};
ghost use Rattle.cyc_finder.specs.Halving.{IsIn};

use crate::halving::{Run, halve_few, narrow_many};
use cyc_types::CyclicId;

/// A thing that has the id of a cyclic.
pub trait HasId {
    ghost id_of: { Self → ℕ };

    /// The number of its id, which never changes.
    fn number(&self) -> u64
        ensures { result ≡ id_of self.now };

    /// Whether its id is at most this one.
    fn is_up_to(&self, id: CyclicId) -> bool
        ensures { IsTrue result ↔ (id_of self.now ≤ id) };
}

/// The most things among which a look-up halves in a loop.
const FEW: usize = 32;

/// How far from the first thing that of this id stands if no id between the two is left out. Of a smaller id than the first this
/// says nothing.
#[inline(always)]
fn distance<T: HasId>(things: &[T], id: CyclicId) -> u64
    requires { 0 < length things.now }
    ensures { (first : T) → slice_get things.now 0 ≡ Some first → T.id_of first ≤ id → result ≡ id - T.id_of first }
{
    id.number().wrapping_sub(things[0].number())
}

/// Whether the thing of this id stands at this position. O(1).
#[inline(always)]
pub fn stands_at<T: HasId>(things: &[T], id: CyclicId, position: usize) -> bool
    ensures there { OnTrue result (IsAt T.id_of things.now id position) }
    ensures elsewhere { OnFalse result (¬ IsAt T.id_of things.now id position) }
{
    position < things.len() && things[position].number() == id.number()
}

/// Where the thing of this id stands, by one look, as far from the first as the id is from its id: None unless it stands there.
/// O(1).
#[inline(always)]
pub fn guess<T: HasId>(things: &[T], id: CyclicId) -> Option<usize>
    ensures some { IfSome result (IsAt T.id_of things.now id) }
    ensures none { IfNone result ((first : T) → slice_get things.now 0 ≡ Some first → T.id_of first ≤ id
        → ¬ IsAt T.id_of things.now id (id - T.id_of first)) }
{
    if things.is_empty() {
        return None;
    }
    let guessed = distance(things, id);
    if guessed < things.len() as u64 && stands_at(things, id, guessed as usize) {
        return Some(guessed as usize);
    }
    None
}

/// Where the thing of this id stands, or where it would stand, by halving. O(log n), and takes no memory (our own; the kernel
/// names a cyclic by its address). Ids mostly rise by one, so the first look mostly answers where none was taken out.
#[inline(always)]
pub fn search<T: HasId>(things: &[T], id: CyclicId) -> Result<usize, usize>
    requires { Rises T.id_of things.now }
    ensures found { IfOk result (IsAt T.id_of things.now id) }
    ensures absent { IfErr result (IsGap T.id_of things.now id) }
{
    if let Some(guessed) = guess(things, id) {
        return Ok(guessed);
    }
    search_unguessed(things, id)
}

/// Whether the id is above those of all things, as that of a new one mostly is. O(1).
#[inline(always)]
pub(crate) fn is_above_all<T: HasId>(things: &[T], id: CyclicId) -> bool
    requires { Rises T.id_of things.now }
    ensures { OnTrue result (IsGap T.id_of things.now id (length things.now)) }
{
    match things.last() {
        Some(last) => last.number() < id.number(),
        None => true,
    }
}

/// As `search`, with a look at the last thing first: O(1) where the id is above all others, as that of a new thing mostly is.
#[inline(always)]
pub fn search_new<T: HasId>(things: &[T], id: CyclicId) -> Result<usize, usize>
    requires { Rises T.id_of things.now }
    ensures found { IfOk result (IsAt T.id_of things.now id) }
    ensures absent { IfErr result (IsGap T.id_of things.now id) }
{
    if !is_above_all(things, id) {
        return search(things, id);
    }
    Err(things.len())
}

/// As `search`, where the thing is known not to stand where it is guessed: it isn't looked for there first.
#[inline(always)]
pub fn search_unguessed<T: HasId>(things: &[T], id: CyclicId) -> Result<usize, usize>
    requires { Rises T.id_of things.now }
    ensures found { IfOk result (IsAt T.id_of things.now id) }
    ensures absent { IfErr result (IsGap T.id_of things.now id) }
{
    if things.is_empty() {
        return Err(0);
    }
    if things.len() > FEW {
        return search_many(things, id);
    }
    let whole = Run {
        base: 0,
        size: things.len(),
    };
    settled(things, id, halve_few(things, id, whole))
}

/// What a look-up says that has come to one thing: this has the id, or the id would stand beside it.
#[inline(always)]
fn settled<T: HasId>(things: &[T], id: CyclicId, run: Run) -> Result<usize, usize>
    requires here { IsIn T.id_of things.now id run.base run.size }
    requires one { run.size ≤ 1 }
    ensures found { IfOk result (IsAt T.id_of things.now id) }
    ensures absent { IfErr result (IsGap T.id_of things.now id) }
{
    let there = things[run.base].number();
    if there == id.number() {
        return Ok(run.base);
    }
    Err(run.base + usize::from(there < id.number()))
}

/// As `search`, among many, with no guess. It is called where the guess was wrong, so that what calls `search` keeps no registers
/// for it.
#[cold]
#[inline(never)]
fn search_many<T: HasId>(things: &[T], id: CyclicId) -> Result<usize, usize>
    requires some { 0 < length things.now }
    requires rises { Rises T.id_of things.now }
    ensures found { IfOk result (IsAt T.id_of things.now id) }
    ensures absent { IfErr result (IsGap T.id_of things.now id) }
{
    let whole = Run {
        base: 0,
        size: things.len(),
    };
    settled(things, id, narrow_many(things, id, whole))
}

/// As `search`, where a hint was wrong, which mostly is right: out of its way.
#[cold]
#[inline(never)]
fn search_anew<T: HasId>(things: &[T], id: CyclicId) -> Result<usize, usize>
    requires { Rises T.id_of things.now }
    ensures found { IfOk result (IsAt T.id_of things.now id) }
    ensures absent { IfErr result (IsGap T.id_of things.now id) }
{
    search(things, id)
}

/// As `search`, with a look at the hinted position first: right whatever the hint is, and O(1) where the thing stands there.
#[inline(always)]
pub fn search_near<T: HasId>(things: &[T], id: CyclicId, hint: usize) -> Result<usize, usize>
    requires { Rises T.id_of things.now }
    ensures found { IfOk result (IsAt T.id_of things.now id) }
    ensures absent { IfErr result (IsGap T.id_of things.now id) }
{
    if stands_at(things, id, hint) {
        return Ok(hint);
    }
    search_anew(things, id)
}
