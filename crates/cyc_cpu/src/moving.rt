//! A cyclic leaves a CPU with its counts, or comes to one with them.

ghost use Rattle.std.specs.Prelude.{◌≡◌, ◌≢◌, ℕ, ◌<◌, ◌≤◌, length, None, Some, IfOk, IfErr, OnOk, IfNone, IfSome};
ghost use Rattle.std.specs.Bool.{OnTrue};
ghost use Rattle.cyc_types.specs.Series.{never};

use crate::ends::admit_at;
use crate::hard::Hard;
use crate::leaving::take_at;
use cyc_timers::Record;
use cyc_types::{CyclicId, Interval, Level, Moment, Raise, Refusal, Sent};

/// All that a CPU has of a cyclic, as it goes to another CPU.
#[derive(Clone, Copy, Debug, PartialEq, Eq)]
pub struct Taken {
    pub level: Level,
    pub interval: Interval,
    /// The next expiration.
    pub moment: Moment,
    /// The counts, with those that it had carried in.
    pub sent: Sent,
}

impl<R: Raise> Hard<R> {
    ghost use Rattle.cyc_cpu.specs.Cpu.{HasNoCyclic};
    ghost use Rattle.cyc_cpu.specs.Calls.{CpuChanges, TakeNow, Place};

    /// Takes the cyclic off this CPU with all its counts (the first half of `cyclic_juggle_one_to`).
    ///
    /// Refuses with NoCyclic where the id is not here, then with Busy while any removal is open, then with Pending where
    /// calls of it are outstanding. Takes no memory.
    pub fn take_now(&mut self, id: CyclicId) -> Result<Taken, Refusal>
        ensures did { CpuChanges R.Raise self.old (TakeNow id result) self.new }
        ensures counts { IfOk result (λ taken. (taken.sent.lost ≤ taken.sent.sent) × (taken.sent.sent ≤ self.old.most)) }
    {
        self.table.law();
        let Some(index) = self.table.find(id) else {
            return Err(Refusal::NoCyclic);
        };
        if let Some(removed) = self.removal {
            return Err(Refusal::Busy(removed));
        }
        let kept = self.table.record(index);
        if !take_at(id, kept.level, &mut self.lock, &mut self.low) {
            return Err(Refusal::Pending);
        }
        let moment = self.table.moment(index);
        self.table.remove(id);
        Ok(Taken {
            level: kept.level,
            interval: kept.interval,
            moment,
            sent: Sent {
                sent: kept.expired,
                lost: kept.lost,
            },
        })
    }

    /// Puts in a cyclic with these counts, and admits it at the end of its level (the second half of
    /// `cyclic_juggle_one_to`). Takes no memory.
    pub fn place(
        &mut self,
        id: CyclicId,
        level: Level,
        interval: Interval,
        moment: Moment,
        carried: Sent,
    )
        requires absent { HasNoCyclic id self.old.cyclics }
        requires free { length self.old.cyclics < self.old.size }
        requires lost { carried.lost ≤ carried.sent }
        requires most { carried.sent ≤ self.old.most }
        ensures { CpuChanges R.Raise self.old (Place id level interval moment carried) self.new }
    {
        let _ = moment.nanoseconds();
        let _ = interval.nanoseconds();
        let kept = Record {
            level,
            interval,
            expired: carried.sent,
            lost: carried.lost,
            carried,
        };
        let index = self.table.insert(id, moment, kept);
        self.table.law();
        admit_at(id, level, index, &mut self.lock, &mut self.low);
    }
}
