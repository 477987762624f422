//! The firing side of one CPU: opening it, taking memory, growing, adding and firing.

ghost use Rattle.std.specs.Prelude.{◌≡◌, ◌≢◌, ℕ, ◌+◌, ◌<◌, ◌≤◌, ◌++◌, ◌∷◌, [], List, All, length, slice_set, None, Some, IfOk};
ghost use Rattle.std.specs.Prelude.{false, IfErr, Ok, Err, OnOk, OnErr, IfNone, IfSome, ◌⊎◌};
ghost use Rattle.std.specs.Bool.{OnTrue, OnFalse};
ghost use Rattle.cyc_types.specs.Limits.{cyclics};
ghost use Rattle.cyc_types.specs.declared.level.Level.TheVariants.{Low, Lock};
ghost use Rattle.cyc_types.specs.Series.{never, first};
ghost use Rattle.cyc_types.specs.declared.refusal.Refusal.TheVariants.{Memory, BadNow, NoCyclic, Suspended};
ghost use Rattle.cyc_types.specs.Timers.{earliest, IsSoundTimer};
ghost use Rattle.cyc_types.specs.Expirations.{Expiration, expirations};
ghost use Rattle.cyc_timers.specs.Rows.{Cyclic, timers};
ghost use Rattle.cyc_cpu.specs.Laws.{IsLawful};
ghost use Rattle.cyc_cpu.specs.Losses.{IsSparedAt};
ghost use Rattle.cyc_cpu.specs.Cpu.{running, seen_at, IsCyclic, IsFresh, HasNoCyclic, Asks, MayWiden, Places, new_cyclic};
ghost use Rattle.cyc_cpu.specs.Calls.{CpuChanges, CpuDoes, no_interrupts, Fire, Add, Reprogram, AskPending, AskTotals, AskRoom};
ghost use Rattle.cyc_cpu.specs.Calls.{Reserve, Widen};

use crate::ends::{both_followed, least_bank, load_pend, slots_of};
use cyc_timers::{FireRefused, Fired, Record, Table, fire_all};
use cyc_types::{CYCLICS, Calls, CyclicId, Interval, Level, Moment, Raise, Refusal, Sent, When};
use std::alloc::Global;
use std::marker::Model;

/// The counts of a cyclic on its CPU.
#[derive(Clone, Copy, Debug, PartialEq, Eq)]
pub struct Totals {
    /// The expirations.
    pub expired: u64,
    /// Those of them that were lost at the ceiling.
    pub lost: u64,
    /// The calls that are outstanding: pending, in hand or kept for a removal.
    pub pending: u32,
}

/// The firing side of one CPU (`cyc_cpu_t` of sys/cyclic_impl.h): its cyclics and the firing ends of its two soft levels.
#[derive(Drop)]
pub struct Hard<R: Raise> {
    pub(crate) table: Table,
    pub(crate) removal: Option<CyclicId>,
    pub(crate) most: u64,
    pub(crate) suspended: bool,
    pub(crate) lock: R,
    pub(crate) low: R,
}

impl<R: Raise> Model for Hard<R> {
    ghost use Rattle.cyc_timers.specs.Rows.{cyclics_of};
    ghost use Rattle.cyc_cpu.specs.Cpu.{CpuView};
    ghost use Rattle.cyc_timers.specs.Ends.{IsHard, lock_and_low};

    ghost Value = { CpuView R };

    ghost view = { λ h. record {
      cyclics = cyclics_of h.table.rows;
      removal = h.removal;
      size = h.table.size;
      room =
          h.table.room;
      most = h.most;
      suspended = h.suspended;
      lock = h.lock;
      low = h.low;
    } };

    ghost invariant = { λ h. IsHard R.view h.table.size h.most h.removal (lock_and_low h.lock h.low) h.table.rows };
}

/// A fire that made nothing is refused.
fn refused(why: Refusal) -> FireRefused
    ensures { result ≡ record { why = why; expired = 0; lost = 0 } }
{
    FireRefused {
        why,
        expired: 0,
        lost: 0,
    }
}

/// Why a suspended CPU does not fire. A call, so that LLVM takes it for rare, and a fire that is made goes straight on.
#[cold]
#[inline(never)]
fn asleep() -> Refusal
    ensures { result ≡ Suspended }
{
    Refusal::Suspended
}

impl<R: Raise + Drop> Hard<R> {
    /// A CPU with no cyclic and of size 1, over the ends of its lock and its low level. No cyclic expires more than `most`
    /// times. Takes the memory of one cyclic. Refuses with Memory alone; the ends are then dropped.
    pub fn new(alloc: Global, most: u64, lock: R, low: R) -> Result<Hard<R>, Refusal>
        requires lock { IsFresh (R.view lock) }
        requires low { IsFresh (R.view low) }
        ensures ok { IfOk result (λ cpu. cpu ≡ record {
          cyclics = [];
          removal = None;
          size = 1;
          room = 1;
          most = most;
          suspended = false;
          lock =
              lock;
          low = low;
        }) }
        ensures err { IfErr result (λ refusal. refusal ≡ Memory) }
    {
        let table = Table::new(alloc)?;
        lock.law();
        low.law();
        Ok(Hard {
            table,
            removal: None,
            most,
            suspended: false,
            lock,
            low,
        })
    }
}

impl<R: Raise> Hard<R> {
    /// The ends of the lock and the low level.
    pub fn into_ends(self) -> (R, R)
        ensures { result ≡ (self.lock, self.low) }
    {
        let Hard {
            table: _table,
            removal: _,
            most: _,
            suspended: _,
            lock,
            low,
        } = self;
        (lock, low)
    }

    /// What is true of every CPU. It does nothing when it runs.
    pub fn law(&self)
        ensures { IsLawful R.view self.now }
    {
        self.table.law();
        let _ = self.table.len();
        let _ = self.table.size();
    }

    /// Each cyclic as a fire takes it: its next expiration is a moment, and its interval is one. It does nothing when it runs.
    pub fn timers_law(&self)
        ensures { All IsSoundTimer (timers self.now.cyclics) }
    {
        self.table.law();
    }

    /// How many cyclics there are, with one whose removal is open.
    pub fn len(&self) -> usize
        ensures { result ≡ length self.now.cyclics }
    {
        self.table.len()
    }

    /// The id of the cyclic whose removal is open.
    pub fn removal(&self) -> Option<CyclicId>
        ensures { result ≡ self.now.removal }
    {
        self.removal
    }

    /// Makes every expiration that is due at `now`, in the order of their moments and ids (`cyclic_fire`). At high level the
    /// handler is called, at a soft level the pend is raised.
    ///
    /// Refuses with Suspended while the CPU is suspended, then with BadNow where `now` is never. An expiration of a cyclic that
    /// has expired `most` times is refused with CountSpent, and one whose handler refuses with HandlerRefused; those before it
    /// were made. Takes no memory.
    pub fn fire<C: Calls>(&mut self, now: Moment, calls: &mut C) -> Result<Fired, FireRefused>
        // The whole list was made, or it was made up to an expiration that was refused; while the CPU is suspended, or at the
        // moment that is never, nothing.
        ensures { CpuDoes C.Calls R.Raise no_interrupts (running calls.old self.old) (Fire now result)
            (running calls.new self.new) }
    {
        if self.suspended {
            return Err(refused(asleep()));
        }
        if now.nanoseconds() == Moment::NEVER.nanoseconds() {
            return Err(refused(Refusal::BadNow));
        }
        fire_all(
            &mut self.table,
            &mut self.lock,
            &mut self.low,
            calls,
            self.most,
            now,
        )
    }

    /// Gives the cyclic another next expiration, and changes nothing else (`cyclic_reprogram`). Refuses with NoCyclic where
    /// the id is not here, or its removal is open. Takes no memory.
    pub fn reprogram(&mut self, id: CyclicId, moment: Moment) -> Result<(), Refusal>
        ensures { CpuChanges R.Raise self.old (Reprogram id moment result) self.new }
    {
        let _ = moment.nanoseconds();
        if self.is_removed(id) {
            return Err(Refusal::NoCyclic);
        }
        if let Some(index) = self.table.soon(id) {
            self.table.reprogram(id, index, moment);
            return Ok(());
        }
        if self.reprogram_anew(id, moment) {
            return Ok(());
        }
        Err(Refusal::NoCyclic)
    }

    /// As `reprogram`, of a cyclic whose removal is not open and that two looks did not find: out of the way of one that they
    /// find. Says whether it is here.
    #[cold]
    #[inline(never)]
    fn reprogram_anew(&mut self, id: CyclicId, moment: Moment) -> bool
        requires { self.old.removal ≢ Some id }
        ensures here { OnTrue result (CpuChanges R.Raise self.old (Reprogram id moment (Ok tt)) self.new) }
        ensures none { OnFalse result (CpuChanges R.Raise self.old (Reprogram id moment (Err NoCyclic)) self.new) }
    {
        match self.table.seek(id) {
            Some(index) => {
                self.table.reprogram(id, index, moment);
                true
            }
            None => false,
        }
    }

    /// The calls of the cyclic that are outstanding, 0 at high level. None where the id is not here. Takes no memory.
    pub fn pending(&mut self, id: CyclicId) -> Option<u32>
        ensures { CpuChanges R.Raise self.old (AskPending id result) self.new }
    {
        let (_, pend) = self.ask(id)?;
        Some(pend)
    }

    /// The counts of the cyclic, with those that it carried in, and its calls that are outstanding. None where the id is
    /// not here. Takes no memory.
    pub fn totals(&mut self, id: CyclicId) -> Option<Totals>
        ensures { CpuChanges R.Raise self.old (AskTotals id result) self.new }
    {
        let (kept, pending) = self.ask(id)?;
        Some(Totals {
            expired: kept.expired,
            lost: kept.lost,
            pending,
        })
    }

    /// What is kept of the cyclic, and its calls that are outstanding. None where the id is not here.
    fn ask(&mut self, id: CyclicId) -> Option<(Record, u32)>
        ensures none { IfNone result (HasNoCyclic id self.old.cyclics × (self.new ≡ self.old)) }
        ensures some { IfSome result (λ a. (asks : Asks R.Raise id a.1 self.old self.new)
            × (a.0.expired ≡ asks.cyclic.timer.expired) × (a.0.lost ≡ asks.cyclic.lost)
            × IsSparedAt R.view self.old asks.cyclic) }
        ensures seen { IfSome result (λ a. seen_at R.view id self.new ≡ a.1) }
    {
        self.table.law();
        let index = self.table.find(id)?;
        let kept = self.table.record(index);
        let pend = load_pend(id, kept.level, &mut self.lock, &mut self.low);
        Some((kept, pend))
    }

    /// Whether indexes for so many more cyclics can be had. Takes no memory.
    ///
    /// Refuses with Full where the CPU would hold more than `CYCLICS`; where the size must grow also with Busy while a
    /// removal is open, and then with Expanding where a soft level has not followed the last switch of banks.
    pub fn room(&mut self, more: usize) -> Result<(), Refusal>
        ensures { CpuChanges R.Raise self.old (AskRoom more result) self.new }
    {
        let len = self.table.len();
        let size = self.table.size();
        if more > usize::from(CYCLICS) - len {
            return Err(Refusal::Full);
        }
        if len + more <= size {
            return Ok(());
        }
        if let Some(id) = self.removal {
            return Err(Refusal::Busy(id));
        }
        if both_followed(&mut self.lock, &mut self.low) {
            Ok(())
        } else {
            Err(Refusal::Expanding)
        }
    }

    /// Takes the memory that so many more cyclics need, so that `widen` and adding them take none. Refuses as `room`, then
    /// with Memory.
    pub fn reserve(&mut self, more: usize) -> Result<(), Refusal>
        ensures { CpuChanges R.Raise self.old (Reserve more result) self.new }
    {
        self.room(more)?;
        let needed = self.table.len() + more;
        if needed <= self.table.size() {
            return Ok(());
        }
        self.table.reserve(slots_of(least_bank(needed)))
    }

    /// Makes the size what so many more cyclics need, and switches both soft levels where it grows (`cyclic_expand`). Takes
    /// no memory.
    pub fn widen(&mut self, more: usize)
        requires { MayWiden R.view more self.old }
        ensures { CpuChanges R.Raise self.old (Widen more) self.new }
    {
        let needed = self.table.len() + more;
        if needed > self.table.size() {
            let bank = least_bank(needed);
            self.table.widen(slots_of(bank));
            self.lock.expand(bank);
            self.low.expand(bank);
        }
    }

    /// Adds a cyclic (`cyclic_add_here`). Its first expiration is what `when` says at `now`.
    ///
    /// Refuses with BadNow where `now` is never, then as `reserve` of one.
    pub fn add(
        &mut self,
        id: CyclicId,
        level: Level,
        when: When,
        now: Moment,
    ) -> Result<(), Refusal>
        requires absent { HasNoCyclic id self.old.cyclics }
        ensures { CpuChanges R.Raise self.old (Add id level when now result) self.new }
    {
        if now.nanoseconds() == Moment::NEVER.nanoseconds() {
            return Err(Refusal::BadNow);
        }
        self.reserve(1)?;
        self.widen(1);
        self.enter(id, level, when.interval, when.first(now));
        Ok(())
    }

    /// Puts in a cyclic that has not expired yet, and admits it at the end of its level.
    fn enter(&mut self, id: CyclicId, level: Level, interval: Interval, moment: Moment)
        requires absent { HasNoCyclic id self.old.cyclics }
        requires free { length self.old.cyclics < self.old.size }
        ensures { Places R.Raise (new_cyclic id level interval moment) self.old self.new }
    {
        self.place(id, level, interval, moment, Sent { sent: 0, lost: 0 });
    }

    /// Whether the removal of this id is open.
    fn is_removed(&self, id: CyclicId) -> bool
        ensures removed { OnTrue result (self.now.removal ≡ Some id) }
        ensures kept { OnFalse result (self.now.removal ≢ Some id) }
    {
        match self.removal {
            Some(removed) => removed.number() == id.number(),
            None => false,
        }
    }
}
