//! A system of several CPUs over plain levels, with the handlers of its cyclics, a clock and random numbers.

ghost use Rattle.std.specs.Prelude.{◌≤◌};

use crate::digest::Digest;
use crate::random::Random;
use cyc_agreement::SystemRemoval;
use cyc_core::LevelCore;
use cyc_replay::begin;
use cyc_system::{SoftFault, System};
use cyc_types::{
    Ceiling, CyclicId, JuggleReport, Level, Moment, Receipt, Refusal, Soft, Tally, When,
};
use std::alloc::Global;

/// How many ids have handlers.
const IDS: usize = 1_048_576;

#[derive(Drop)]
pub(crate) struct Machine {
    pub(crate) system: System<LevelCore>,
    pub(crate) calls: Tally,
    pub(crate) cpus: u32,
    pub(crate) clock: u64,
    pub(crate) random: Random,
    pub(crate) digest: Digest,
}

/// The moment of this many nanoseconds, or the last one.
pub(crate) fn moment(nanoseconds: u64) -> Result<Moment, Refusal> {
    Moment::new(i64::try_from(nanoseconds).unwrap_or(i64::MAX))
}

/// The id of this number.
pub(crate) fn id_of(number: u64) -> Result<CyclicId, Refusal> {
    CyclicId::new(number).ok_or(Refusal::IdsSpent)
}

/// A machine with no cyclic.
pub(crate) fn open(alloc: Global, cpus: u32, ceiling: u32, seed: u32) -> Result<Machine, Refusal>
    requires some { 1 ≤ cpus }
    requires few { cpus ≤ 16 }
{
    let ceiling = Ceiling::new(ceiling).ok_or(Refusal::Memory)?;
    Ok(Machine {
        system: begin(alloc, cpus, ceiling, 0)?.system,
        calls: Tally::new(alloc, id_of(1)?, IDS, u64::MAX)?,
        cpus,
        clock: 0,
        random: Random::of(seed),
        digest: Digest::new(),
    })
}

impl Machine {
    /// The expiration is at most so many nanoseconds from now, and comes again after each interval.
    fn when(&mut self, interval: u32) -> Result<When, Refusal> {
        let start = self.clock.saturating_add(u64::from(interval));
        When::new(
            i64::try_from(start).unwrap_or(i64::MAX),
            i64::from(interval),
        )
    }

    /// Adds a cyclic, and lets the levels of each CPU follow a switch of banks. The answer is the number of its id.
    pub(crate) fn add(&mut self, level: Level, interval: u32) -> Result<u64, Refusal> {
        let when = self.when(interval)?;
        let now = moment(self.clock)?;
        let number = self.system.add(level, when, now)?.number();
        self.digest.add(number);
        for cpu in 0..self.cpus {
            self.interrupt(cpu, Soft::Lock, 1);
            self.interrupt(cpu, Soft::Low, 1);
        }
        Ok(number)
    }

    /// A level of a CPU makes at most so many calls.
    pub(crate) fn interrupt(&mut self, cpu: u32, level: Soft, budget: u32) {
        match self.system.softint(cpu, level, &mut self.calls, budget) {
            Ok(ran) => self
                .digest
                .add(u64::from(ran.calls) * 2 + u64::from(ran.idle)),
            Err(fault) => self.stopped(&fault),
        }
    }

    /// Adds why a soft interrupt stopped.
    fn stopped(&mut self, fault: &SoftFault) {
        self.digest.add(u64::MAX);
        match fault {
            SoftFault::NoCpu => self.digest.add(0),
            SoftFault::Refused(refused) => {
                self.digest.add(refused.id.number());
                self.digest.add(u64::from(refused.calls));
            }
        }
    }

    /// A CPU makes all that is due.
    pub(crate) fn fire(&mut self, cpu: u32) -> Result<(), Refusal> {
        let now = moment(self.clock)?;
        match self.system.fire_one(cpu, now, &mut self.calls) {
            Ok(fired) => {
                self.digest.add(fired.expired);
                self.digest.add(fired.lost);
                self.digest.add(fired.next.nanoseconds());
            }
            Err(refused) => {
                self.digest.add(u64::MAX);
                self.refused(&refused.why);
                self.digest.add(refused.expired);
                self.digest.add(refused.lost);
            }
        }
        Ok(())
    }

    /// Adds why a call was refused, with the cyclic that it names or the report that it gives.
    pub(crate) fn refused(&mut self, why: &Refusal) {
        self.digest.add(u64::from(why.number()));
        match why {
            Refusal::Busy(id) | Refusal::CountSpent(id) | Refusal::HandlerRefused(id) => {
                self.digest.add(id.number());
            }
            Refusal::Left(report) => self.report(report),
            _ => {}
        }
    }

    /// Adds what a call answered.
    pub(crate) fn answered(&mut self, answer: Result<(), Refusal>) {
        match answer {
            Ok(()) => self.digest.add(0),
            Err(why) => self.refused(&why),
        }
    }

    /// Adds what a juggle did.
    fn report(&mut self, report: &JuggleReport) {
        self.digest.add(u64::from(report.moved));
        self.digest.add(u64::from(report.bound));
        self.digest.add(u64::from(report.pending));
        self.digest.add(u64::from(report.refused));
    }

    /// Adds what a juggle answered.
    pub(crate) fn juggled(&mut self, answer: Result<JuggleReport, Refusal>) {
        match answer {
            Ok(report) => {
                self.digest.add(0);
                self.report(&report);
            }
            Err(why) => self.refused(&why),
        }
    }

    /// Adds the receipt of a removal.
    fn receipt(&mut self, receipt: &Receipt) {
        self.digest.add(receipt.id.number());
        self.digest.add_wide(receipt.sent);
        self.digest.add_wide(receipt.lost);
    }

    /// A removal that waits for calls is asked for again.
    fn poll(&mut self, id: CyclicId) {
        match self.system.poll_remove(id) {
            Ok(Some(receipt)) => {
                self.digest.add(0);
                self.receipt(&receipt);
            }
            Ok(None) => self.digest.add(u64::MAX),
            Err(why) => self.refused(&why),
        }
    }

    /// A cyclic is removed, after the calls of its CPU that wait.
    pub(crate) fn remove(&mut self, id: CyclicId) {
        match self.system.begin_remove(id) {
            Ok(SystemRemoval::Done(receipt)) => {
                self.digest.add(0);
                self.receipt(&receipt);
            }
            Ok(SystemRemoval::Kept(calls)) => {
                self.digest.add(u64::MAX);
                self.digest.add(calls);
                self.drain();
                self.poll(id);
            }
            Err(why) => self.refused(&why),
        }
    }

    /// All calls that wait are made.
    pub(crate) fn drain(&mut self) {
        for cpu in 0..self.cpus {
            self.interrupt(cpu, Soft::Lock, u32::MAX);
            self.interrupt(cpu, Soft::Low, u32::MAX);
        }
    }

    /// Adds the counts of a cyclic, where there is such a one.
    pub(crate) fn count(&mut self, id: CyclicId) {
        match self.system.totals(id) {
            Some(totals) => {
                self.digest.add_wide(totals.expired);
                self.digest.add_wide(totals.lost);
                self.digest.add(totals.pending);
            }
            None => self.digest.add(u64::MAX),
        }
        self.digest.add(self.calls.count(id).unwrap_or(u64::MAX));
    }
}
