//! The games of the tournament: which entry wins one, and how they are played.

ghost use Rattle.std.specs.Prelude.{◌≡◌, ◌≢◌, ℕ, ◌+◌, ◌*◌, ◌/◌, ◌<◌, ◌≤◌, length, vec_capacity, IfSome, IfNone};
ghost use Rattle.cyc_types.specs.Limits.{cyclics};
ghost use Rattle.cyc_heap.specs.Tournament.{entry_at, IsWinner, IsPlayed, IsPlayedBut};

use crate::entry::Entry;

/// The one of two entries that expires first.
#[inline(always)]
fn winner(first: Entry, second: Entry) -> Entry
    ensures { IsWinner result first second }
{
    if second.expires_before(&first) {
        second
    } else {
        first
    }
}

/// Plays the game of the entry at this position again, which is not the last winner. The answer is where its winner stands.
#[inline(always)]
fn play(entries: &mut [Entry], leaves: usize, position: usize) -> usize
    requires few { leaves ≤ cyclics }
    requires long { length entries.old + 1 ≡ 2 * leaves }
    requires position { position + 2 < 2 * leaves }
    requires played { IsPlayedBut (position / 2) leaves entries.old }
    ensures position { result ≡ leaves + position / 2 }
    ensures long { length entries.new ≡ length entries.old }
    ensures kept { (i : ℕ) → i < leaves → entry_at entries.new i ≡ entry_at entries.old i }
    ensures played { IsPlayedBut (result / 2) leaves entries.new }
{
    let game = position / 2;
    let won = leaves + game;
    entries[won] = winner(entries[position], entries[4 * game + 1 - position]);
    won
}

/// Plays the next games from this position on, at most four. The answer is where the last of their winners stands, which has
/// games to come or has won all. None where it has won all earlier.
#[inline(always)]
fn play_four(entries: &mut [Entry], leaves: usize, position: usize) -> Option<usize>
    requires few { leaves ≤ cyclics }
    requires long { length entries.old + 1 ≡ 2 * leaves }
    requires position { position + 1 < 2 * leaves }
    requires played { IsPlayedBut (position / 2) leaves entries.old }
    ensures position { IfSome result (λ p. p + 1 < 2 * leaves) }
    ensures nearer { IfSome result (λ p. (most : ℕ) → 2 * leaves ≤ position + 32 * most → 2 * leaves ≤ p + 2 * most) }
    ensures long { length entries.new ≡ length entries.old }
    ensures kept { (i : ℕ) → i < leaves → entry_at entries.new i ≡ entry_at entries.old i }
    ensures won { IfNone result (IsPlayed leaves entries.new) }
    ensures played { IfSome result (λ p. IsPlayedBut (p / 2) leaves entries.new) }
{
    let last = 2 * leaves - 2;
    if position == last {
        return None;
    }
    let position = play(entries, leaves, position);
    if position == last {
        return None;
    }
    let position = play(entries, leaves, position);
    if position == last {
        return None;
    }
    let position = play(entries, leaves, position);
    if position == last {
        return None;
    }
    Some(play(entries, leaves, position))
}

/// Puts an entry into the leaf of an index, and plays the games above it again: at most twelve. There is no loop, so that each
/// winner is chosen with no branch, and none is read that was just written.
#[inline(never)]
fn replay(entries: &mut [Entry], leaves: usize, index: usize, entry: Entry)
    requires few { leaves ≤ cyclics }
    requires long { length entries.old + 1 ≡ 2 * leaves }
    requires index { index < leaves }
    requires played { IsPlayed leaves entries.old }
    ensures long { length entries.new ≡ length entries.old }
    ensures here { entry_at entries.new index ≡ entry }
    ensures others { (i : ℕ) → i < leaves → i ≢ index → entry_at entries.new i ≡ entry_at entries.old i }
    ensures played { IsPlayed leaves entries.new }
{
    entries[index] = entry;
    let Some(position) = play_four(entries, leaves, index) else {
        return;
    };
    let Some(position) = play_four(entries, leaves, position) else {
        return;
    };
    play_four(entries, leaves, position);
}

/// Puts an entry into the leaf of an index, and plays the games above it again.
pub(crate) fn enter(entries: &mut Vec<Entry>, leaves: usize, index: usize, entry: Entry)
    requires few { leaves ≤ cyclics }
    requires long { length entries.old.items + 1 ≡ 2 * leaves }
    requires index { index < leaves }
    requires played { IsPlayed leaves entries.old.items }
    ensures long { length entries.new.items ≡ length entries.old.items }
    ensures here { entry_at entries.new.items index ≡ entry }
    ensures others { (i : ℕ) → i < leaves → i ≢ index → entry_at entries.new.items i ≡ entry_at entries.old.items i }
    ensures played { IsPlayed leaves entries.new.items }
    ensures room { vec_capacity entries.new ≡ vec_capacity entries.old }
{
    replay(entries.as_mut_slice(), leaves, index, entry);
}

/// Plays all games among the leaves: their winners come after them.
pub(crate) fn play_all(entries: &mut [Entry], leaves: usize)
    requires some { 0 < leaves }
    requires few { leaves ≤ cyclics }
    requires long { length entries.old + 1 ≡ 2 * leaves }
    ensures long { length entries.new ≡ length entries.old }
    ensures kept { (i : ℕ) → i < leaves → entry_at entries.new i ≡ entry_at entries.old i }
    ensures played { IsPlayed leaves entries.new }
{
    for game in 0..leaves - 1 {
        entries[leaves + game] = winner(entries[2 * game], entries[2 * game + 1]);
    }
}
