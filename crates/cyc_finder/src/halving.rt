//! Halving over things by rising id, where they are many with no branch that an id decides.

ghost use Rattle.std.specs.Prelude.{◌≤◌, ◌<◌, ◌+◌, ◌≡◌, ◌⊎◌, length};
ghost use Rattle.cyc_finder.specs.Sorted.{Rises};
ghost use Rattle.cyc_finder.specs.Halving.{IsIn, IsUpTo, IsAbove};

use crate::sorted::HasId;
use cyc_types::CyclicId;

/// A run of things: so many from a position on.
#[derive(Clone, Copy)]
pub(crate) struct Run {
    pub(crate) base: usize,
    pub(crate) size: usize,
}

/// One of two positions: the upper one where the thing at `middle` has at most this id, else the lower one.
#[inline(always)]
fn reach<T: HasId>(things: &[T], id: CyclicId, middle: usize, lower: usize, upper: usize) -> usize
    requires { middle < length things.now }
    ensures { (IsUpTo T.id_of things.now id middle × (result ≡ upper))
        ⊎ (IsAbove T.id_of things.now id middle × (result ≡ lower)) }
{
    if things[middle].is_up_to(id) {
        upper
    } else {
        lower
    }
}

/// The half of the run that can have the id, of the larger size where the two sizes differ. A run of one thing stays.
#[inline(always)]
fn halve<T: HasId>(things: &[T], id: CyclicId, run: Run) -> Run
    requires rises { Rises T.id_of things.now }
    requires here { IsIn T.id_of things.now id run.base run.size }
    ensures here { IsIn T.id_of things.now id result.base result.size }
    ensures size { result.size ≤ run.size }
    ensures less { 1 < run.size → result.size < run.size }
{
    if run.size < 2 {
        return run;
    }
    let half = run.size / 2;
    let middle = run.base + half;
    Run {
        base: reach(things, id, middle, run.base, middle),
        size: run.size - half,
    }
}

/// The quarter of the run that can have the id, of the largest size where the sizes differ. A run of fewer than four stays.
///
/// The three comparisons don't wait for each other, as those of two halvings do.
#[inline(always)]
fn quarter<T: HasId>(things: &[T], id: CyclicId, run: Run) -> Run
    requires rises { Rises T.id_of things.now }
    requires here { IsIn T.id_of things.now id run.base run.size }
    ensures here { IsIn T.id_of things.now id result.base result.size }
    ensures size { result.size ≤ run.size }
    ensures less { 3 < run.size → result.size < run.size }
{
    if run.size < 4 {
        return run;
    }
    let step = run.size / 4;
    let second = run.base + step;
    let third = second + step;
    let last = third + step;
    let lower = reach(things, id, second, run.base, second);
    let upper = reach(things, id, last, third, last);
    Run {
        base: reach(things, id, third, lower, upper),
        size: run.size - 3 * step,
    }
}

/// Halves the run to one thing.
///
/// In a loop LLVM makes a branch of each choice between two positions. Among few these are mostly foretold, as where one id is
/// looked up again and again.
#[inline(always)]
pub(crate) fn halve_few<T: HasId>(things: &[T], id: CyclicId, run: Run) -> Run
    requires rises { Rises T.id_of things.now }
    requires here { IsIn T.id_of things.now id run.base run.size }
    ensures here { IsIn T.id_of things.now id result.base result.size }
    ensures one { result.size ≤ 1 }
{
    let mut run = run;
    while run.size > 1 {
        run = halve(things, id, run);
    }
    run
}

/// Quarters the run four times and halves it twice, or until one thing is left.
///
/// Straight code outside any loop: there LLVM keeps a choice between two positions as a conditional move, where in a loop it
/// makes a branch of it, which among many is foretold wrongly every second time. What is skipped hangs on the size alone.
#[inline(never)]
fn narrow<T: HasId>(things: &[T], id: CyclicId, run: Run) -> Run
    requires rises { Rises T.id_of things.now }
    requires here { IsIn T.id_of things.now id run.base run.size }
    ensures here { IsIn T.id_of things.now id result.base result.size }
    ensures less { 1 < run.size → result.size < run.size }
{
    let run = quarter(things, id, run);
    let run = quarter(things, id, run);
    let run = quarter(things, id, run);
    let run = quarter(things, id, run);
    let run = halve(things, id, run);
    halve(things, id, run)
}

/// Narrows the run to one thing.
pub(crate) fn narrow_many<T: HasId>(things: &[T], id: CyclicId, run: Run) -> Run
    requires rises { Rises T.id_of things.now }
    requires here { IsIn T.id_of things.now id run.base run.size }
    ensures here { IsIn T.id_of things.now id result.base result.size }
    ensures one { result.size ≤ 1 }
{
    let mut run = run;
    while run.size > 1 {
        run = narrow(things, id, run);
    }
    run
}
