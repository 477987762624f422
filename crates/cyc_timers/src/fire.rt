//! One fire: every expiration that is due, in order.

ghost use Rattle.std.specs.Prelude.{◌≡◌, ℕ, ◌+◌, ◌-◌, ◌<◌, ◌≤◌, ◌++◌, ◌∷◌, [], length, min, All, List, Some, IfOk, IfErr, OnOk};
ghost use Rattle.std.specs.Prelude.{OnErr};
ghost use Rattle.std.specs.Bool.{OnTrue, OnFalse};
ghost use Rattle.cyc_types.specs.Series.{due, next, never, late};
ghost use Rattle.cyc_types.specs.Firing.{MayRaise, Sound};
ghost use Rattle.cyc_types.specs.Levels.{at_level};
ghost use Rattle.cyc_types.specs.declared.level.Level.TheVariants.{Low, Lock, High};
ghost use Rattle.cyc_types.specs.declared.refusal.Refusal.TheVariants.{CountSpent};
ghost use Rattle.cyc_types.specs.Timers.{earliest};
ghost use Rattle.cyc_types.specs.Expirations.{Expiration, expirations};
ghost use Rattle.cyc_timers.specs.Rows.{timers_of, cyclics_of};
ghost use Rattle.cyc_timers.specs.Ends.{IsReady, lock_and_low, marks_at};
ghost use Rattle.cyc_timers.specs.Made.{Makes, WhyStopped, fire_state};
ghost use Rattle.cyc_timers.specs.Acts.{Sides, Acts, RaisedOnce, acting, id_at_level, way_losses};

use crate::table::Table;
use cyc_types::{
    Calls, CyclicId, Interval, LATE, Level, Moment, Raise, Raised, Refusal, Refused, next,
};

/// The moment of this many nanoseconds, at most never.
fn nearest_moment(nanoseconds: u64) -> Moment
    ensures { result ≡ min nanoseconds never }
{
    let nearest = nanoseconds.min(Moment::NEVER.nanoseconds());
    Moment::new(nearest as i64).unwrap()
}

/// Whether the expiration after one that is due, an interval later, is more than a second late. Mostly the first look answers.
fn is_late(passed: u64, interval: u64) -> bool
    ensures late { OnTrue result (interval + late < passed) }
    ensures near { OnFalse result (passed ≤ interval + late) }
{
    passed > LATE && passed - LATE > interval
}

/// The expiration after one that was due so long ago (the loop of `cyclic_fire`).
fn following(ago: u64, interval: Interval, now: Moment) -> Moment
    requires due { ago ≤ now }
    requires now { now < never }
    ensures due { due (now - ago) interval now ≡ 1 + due result interval now }
    ensures next { next (now - ago) interval now ≡ next result interval now }
    ensures follows { 0 < due result interval now → result ≡ now - ago + interval }
    ensures later { now - ago ≤ result }
    ensures bound { result ≤ never }
{
    let moment = now.nanoseconds() - ago;
    let length = interval.nanoseconds();
    if is_late(ago, length) {
        let then = nearest_moment(moment);
        return next(then, interval, now);
    }
    nearest_moment(moment + length)
}

/// Raises a cyclic once, and says how many expirations were lost.
#[inline(always)]
fn raise_once<R: Raise>(end: &mut R, id: CyclicId) -> u64
    requires { MayRaise id (R.view end.old) }
    ensures raised { RaisedOnce R.Raise id end.old end.new result }
    ensures few { result ≤ 1 }
    ensures sound { Sound (R.view end.new) }
{
    match end.raise(id) {
        Raised::Lost => 1,
        Raised::First | Raised::More => 0,
    }
}

/// Makes one expiration at its level (`cyclic_expire`), and says how many were lost.
pub fn expire_at<C: Calls, R: Raise>(
    id: CyclicId,
    level: Level,
    calls: &mut C,
    lock: &mut R,
    low: &mut R,
) -> Result<u64, Refused>
    requires lock { level ≡ Lock → MayRaise id (R.view lock.old) }
    requires low { level ≡ Low → MayRaise id (R.view low.old) }
    ensures acts { IfOk result (λ lost. (a : Acts (acting (at_level C.called High) C.count R.Raise)
        (id_at_level High level id) (id_at_level Lock level id) (id_at_level Low level id)
        (record { calls = calls.old; lock = lock.old; low = low.old })
        (record { calls = calls.new; lock = lock.new; low = low.new }))
        × (lost ≡ way_losses a.lock_way + way_losses a.low_way)) }
    ensures few { IfOk result (λ lost. lost ≤ 1) }
    ensures sound_lock { Sound (R.view lock.old) → Sound (R.view lock.new) }
    ensures sound_low { Sound (R.view low.old) → Sound (R.view low.new) }

    // A refused call changes no count, and neither end.
    ensures refused { OnErr result (C.may_refuse calls.old id) }
    ensures high { OnErr result (level ≡ High) }
    ensures kept { OnErr result ((q : ℕ) → C.count calls.new q ≡ C.count calls.old q) }
    ensures lock { OnErr result (lock.new ≡ lock.old) }
    ensures low { OnErr result (low.new ≡ low.old) }
{
    match level {
        Level::High => {
            calls.call(id, level)?;
            Ok(0)
        }
        Level::Lock => Ok(raise_once(lock, id)),
        Level::Low => Ok(raise_once(low, id)),
    }
}

/// What a fire did.
#[derive(Clone, Copy, Debug, PartialEq, Eq)]
pub struct Fired {
    /// The expirations that were made.
    pub expired: u64,
    /// Those of them that were lost at the ceiling.
    pub lost: u64,
    /// The least expiration from now on, `NEVER` where there is none.
    pub next: Moment,
}

/// A fire that stopped at an expiration that was refused.
#[derive(Clone, Copy, Debug, PartialEq, Eq)]
pub struct FireRefused {
    /// The refusal.
    pub why: Refusal,
    /// The expirations that were made before.
    pub expired: u64,
    /// Those of them that were lost at the ceiling.
    pub lost: u64,
}

/// The least expiration, `NEVER` where there is none.
fn next_moment(table: &Table) -> Moment
    requires { All (λ t. t.moment ≤ never) (timers_of table.now.rows) }
    ensures { result ≡ earliest (timers_of table.now.rows) }
{
    match table.root() {
        Some((_, moment, _)) => moment,
        None => Moment::NEVER,
    }
}

/// Why a fire stops at a cyclic that has expired as often as it may. A call, so that LLVM takes it for rare.
#[cold]
#[inline(never)]
fn spent(id: CyclicId) -> Refusal
    ensures { result ≡ CountSpent id }
{
    Refusal::CountSpent(id)
}

/// What a fire answers that stopped at a refusal.
fn stopped(why: Refusal, expired: u64, lost: u64) -> FireRefused
    ensures { result ≡ record { why = why; expired = expired; lost = lost } }
{
    FireRefused { why, expired, lost }
}

/// Makes every expiration that is due, in ascending order (`cyclic_fire`).
pub fn fire_all<C: Calls, R: Raise>(
    table: &mut Table,
    lock: &mut R,
    low: &mut R,
    calls: &mut C,
    most: u64,
    now: Moment,
) -> Result<Fired, FireRefused>
    requires now { now < never }
    requires ready { IsReady R.view table.old.size most (marks_at R.view lock.old low.old) (lock_and_low lock.old low.old)
        table.old.rows }

    // The whole list was made, and no more.
    ensures expired { IfOk result (λ r. r.expired ≡ length (expirations now (timers_of table.old.rows))) }
    ensures next { IfOk result (λ r. r.next ≡ earliest (timers_of table.new.rows)) }
    ensures made { IfOk result (λ r. Makes (acting (at_level C.called High) C.count R.Raise) now
        (expirations now (timers_of table.old.rows))
        (fire_state (cyclics_of table.old.rows) (record { calls = calls.old; lock = lock.old; low = low.old }))
        (fire_state (cyclics_of table.new.rows) (record { calls = calls.new; lock = lock.new; low = low.new }))
        r.lost) }

    // The list was made up to an expiration that was refused.
    ensures refused { IfErr result (λ e. (made : List Expiration) × (last : Expiration) × (rest : List Expiration)
        × (expirations now (timers_of table.old.rows) ≡ made ++ last ∷ rest) × (length made ≡ e.expired) × (at : C)
        × Makes (acting (at_level C.called High) C.count R.Raise) now made
        (fire_state (cyclics_of table.old.rows) (record { calls = calls.old; lock = lock.old; low = low.old }))
        (fire_state (cyclics_of table.new.rows) (record { calls = at; lock = lock.new; low = low.new })) e.lost
        × ((id : ℕ) → C.count calls.new id ≡ C.count at id)
        × WhyStopped C.may_refuse most at last (timers_of table.new.rows) e.why) }

    // The CPU is ready for the next.
    ensures ready { IsReady R.view table.new.size most (marks_at R.view lock.old low.old) (lock_and_low lock.new low.new)
        table.new.rows }
    ensures size { table.new.size ≡ table.old.size }
    ensures room { table.new.room ≡ table.old.room }
{
    table.law();
    let _len = table.len();
    let _size = table.size();
    let mut expired = 0;
    let mut lost = 0;
    while let Some(root) = table.due_root(now) {
        let index = root.0;
        let ago = root.1;
        let id = root.2;
        let found = table.record(index);
        let count = found.expired;
        if count >= most {
            return Err(stopped(spent(id), expired, lost));
        }
        let more = match expire_at(id, found.level, calls, lock, low) {
            Ok(more) => more,
            Err(Refused) => return Err(stopped(Refusal::HandlerRefused(id), expired, lost)),
        };
        // read here, the interval and the counts need not outlast the call
        let kept = table.record(index);
        table.expire_root(
            index,
            following(ago, kept.interval, now),
            kept.expired + 1,
            kept.lost + more,
        );
        expired += 1;
        lost += more;
    }
    Ok(Fired {
        expired,
        lost,
        next: next_moment(table),
    })
}
