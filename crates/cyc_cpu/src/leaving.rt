//! How a stay ends at the end of its level.

ghost use Rattle.std.specs.Prelude.{◌≡◌, ◌≢◌, ℕ, ◌+◌, ◌<◌, ◌≤◌, ◌∷◌, [], Some, None};
ghost use Rattle.std.specs.Bool.{OnTrue, OnFalse};
ghost use Rattle.cyc_types.specs.Firing.{MayMark, MayPoll, Loads, Marks, Polls, Sound, seen_of};
ghost use Rattle.cyc_types.specs.Runs.{Goes};
ghost use Rattle.cyc_types.specs.declared.firing.Sent.{Sent as Counts};
ghost use Rattle.cyc_types.specs.declared.level.Level.TheVariants.{Low, Lock, High};
ghost use Rattle.cyc_cpu.specs.Removal.{calls_at};

use cyc_types::{CyclicId, Level, Raise};

/// Marks the cyclic, and ends its stay at once where no call of it is outstanding. The answer is how many are.
fn remove_from<R: Raise>(end: &mut R, id: CyclicId) -> u32
    requires { MayMark id (R.view end.old) }
    ensures kept { 0 < result → Goes R.Raise end.old (Marks id result ∷ []) end.new }
    ensures ended { result ≡ 0 → (counts : Counts)
        × Goes R.Raise end.old (Marks id 0 ∷ Polls id (Some counts) ∷ []) end.new }
    ensures seen { result ≤ seen_of id (R.view end.old) }
    ensures sound { Sound (R.view end.new) }
{
    let left = end.mark(id);
    if left == 0 && end.poll_clear(id).is_none() {
        unreachable!()
    }
    left
}

/// Marks the cyclic at the end of its level, and ends its stay at once where no call of it is outstanding. The answer is how
/// many are, 0 at high level.
pub(crate) fn remove_at<R: Raise>(id: CyclicId, level: Level, lock: &mut R, low: &mut R) -> u32
    requires lock { level ≡ Lock → MayMark id (R.view lock.old) }
    requires low { level ≡ Low → MayMark id (R.view low.old) }
    ensures high { level ≡ High → result ≡ 0 }
    ensures kept { 0 < result → Goes R.Raise lock.old (calls_at Lock level (Marks id result ∷ [])) lock.new
        × Goes R.Raise low.old (calls_at Low level (Marks id result ∷ [])) low.new }
    ensures ended { result ≡ 0 → (counts : Counts)
        × Goes R.Raise lock.old (calls_at Lock level (Marks id 0 ∷ Polls id (Some counts) ∷ [])) lock.new
        × Goes R.Raise low.old (calls_at Low level (Marks id 0 ∷ Polls id (Some counts) ∷ [])) low.new }
    ensures seen_lock { level ≡ Lock → result ≤ seen_of id (R.view lock.old) }
    ensures seen_low { level ≡ Low → result ≤ seen_of id (R.view low.old) }
    ensures sound_lock { Sound (R.view lock.old) → Sound (R.view lock.new) }
    ensures sound_low { Sound (R.view low.old) → Sound (R.view low.new) }
{
    match level {
        Level::High => 0,
        Level::Lock => remove_from(lock, id),
        Level::Low => remove_from(low, id),
    }
}

/// Ends the stay of the marked cyclic where no call of it is outstanding, and says whether it did.
fn poll_end<R: Raise>(end: &mut R, id: CyclicId) -> bool
    requires { MayPoll id (R.view end.old) }
    ensures ended { OnTrue result ((counts : Counts) × Goes R.Raise end.old (Polls id (Some counts) ∷ []) end.new) }
    ensures waits { OnFalse result (Goes R.Raise end.old (Polls id None ∷ []) end.new) }
    ensures sound { Sound (R.view end.new) }
{
    match end.poll_clear(id) {
        Some(_counts) => true,
        None => false,
    }
}

/// Ends the stay of the marked cyclic at the end of its level where no call of it is outstanding, and says whether it did.
pub(crate) fn poll_at<R: Raise>(id: CyclicId, level: Level, lock: &mut R, low: &mut R) -> bool
    requires lock { level ≡ Lock → MayPoll id (R.view lock.old) }
    requires low { level ≡ Low → MayPoll id (R.view low.old) }
    ensures ended { OnTrue result ((counts : Counts)
        × Goes R.Raise lock.old (calls_at Lock level (Polls id (Some counts) ∷ [])) lock.new
        × Goes R.Raise low.old (calls_at Low level (Polls id (Some counts) ∷ [])) low.new) }
    ensures waits { OnFalse result (Goes R.Raise lock.old (calls_at Lock level (Polls id None ∷ [])) lock.new
        × Goes R.Raise low.old (calls_at Low level (Polls id None ∷ [])) low.new) }
    ensures sound_lock { Sound (R.view lock.old) → Sound (R.view lock.new) }
    ensures sound_low { Sound (R.view low.old) → Sound (R.view low.new) }
{
    match level {
        Level::High => true,
        Level::Lock => poll_end(lock, id),
        Level::Low => poll_end(low, id),
    }
}

/// Ends the stay of the cyclic where its load finds no call outstanding, and says whether it did.
fn take_from<R: Raise>(end: &mut R, id: CyclicId) -> bool
    requires { MayMark id (R.view end.old) }
    ensures ended { OnTrue result ((counts : Counts)
        × Goes R.Raise end.old (Loads id 0 ∷ Marks id 0 ∷ Polls id (Some counts) ∷ []) end.new) }
    ensures pending { OnFalse result ((n : ℕ) × (0 < n) × (n ≤ seen_of id (R.view end.old))
        × Goes R.Raise end.old (Loads id n ∷ []) end.new) }
    ensures sound { Sound (R.view end.new) }
{
    if end.load_pend(id) > 0 {
        return false;
    }
    if remove_from(end, id) > 0 {
        unreachable!()
    }
    true
}

/// Ends the stay of the cyclic at the end of its level where its load finds no call outstanding, and says whether it did.
pub(crate) fn take_at<R: Raise>(id: CyclicId, level: Level, lock: &mut R, low: &mut R) -> bool
    requires lock { level ≡ Lock → MayMark id (R.view lock.old) }
    requires low { level ≡ Low → MayMark id (R.view low.old) }
    ensures ended { OnTrue result ((counts : Counts)
        × Goes R.Raise lock.old (calls_at Lock level (Loads id 0 ∷ Marks id 0 ∷ Polls id (Some counts) ∷ [])) lock.new
        × Goes R.Raise low.old (calls_at Low level (Loads id 0 ∷ Marks id 0 ∷ Polls id (Some counts) ∷ [])) low.new) }
    ensures pending { OnFalse result ((n : ℕ) × (0 < n) × (n ≤ seen_of id (R.view lock.old) + seen_of id (R.view low.old))
        × Goes R.Raise lock.old (calls_at Lock level (Loads id n ∷ [])) lock.new
        × Goes R.Raise low.old (calls_at Low level (Loads id n ∷ [])) low.new) }
    ensures soft { OnFalse result (level ≢ High) }
    ensures sound_lock { Sound (R.view lock.old) → Sound (R.view lock.new) }
    ensures sound_low { Sound (R.view low.old) → Sound (R.view low.new) }
{
    match level {
        Level::High => true,
        Level::Lock => take_from(lock, id),
        Level::Low => take_from(low, id),
    }
}
