//! The system: its opening, what is true of it, and the way of an expiration: a cyclic is added, a CPU fires, its soft interrupt
//! makes the call, and the counts are asked.

ghost use Rattle.std.specs.Prelude.{◌≡◌, ◌-◌, ◌<◌, ◌≤◌, [], All, length, IfOk, IfErr};
ghost use Rattle.cyc_types.specs.Limits.{most_cpus};
ghost use Rattle.cyc_types.specs.declared.refusal.Refusal.TheVariants.{Memory};
ghost use Rattle.cyc_cpu.specs.Cpu.{IsFresh};
ghost use Rattle.cyc_cpu.specs.Soft.{raise_tables, Interrupts};
ghost use Rattle.cyc_cpu.specs.Calls.{no_interrupts, Fire, Reserve, SoftInterrupt as CpuSoftInterrupt};
ghost use Rattle.cyc_agreement.specs.Cpus.{new_cpus, on, running_cpus, DoesAt, RunsAt};
ghost use Rattle.cyc_agreement.specs.System.{running_system};
ghost use Rattle.cyc_agreement.specs.Agreement.{Agrees};
ghost use Rattle.cyc_agreement.specs.Counts.{IsFit, AreLawful};

use cyc_agreement::{Cpus, SystemTotals, agreed_totals, enter};
use cyc_core::LevelCore;
use cyc_places::{Placement, Records};
use cyc_soft::{Ran, SoftRefused};
use cyc_timers::{FireRefused, Fired};
use cyc_types::{Calls, CyclicId, Level, Moment, Raise, Refusal, Soft, When};
use std::alloc::Global;
use std::marker::Model;

/// Several CPUs, the cyclics on them, and where each of these is (`cyclic.c` over all its `cyc_cpu_t`).
#[derive(Drop)]
pub struct System<R: Raise> {
    pub(crate) cpus: Cpus<R>,
    pub(crate) records: Records,
    // the number of the id that was given last
    pub(crate) last: u64,
}

/// Why a soft interrupt was refused or stopped.
#[derive(Clone, Copy, Debug, PartialEq, Eq)]
pub enum SoftFault {
    /// There is no such CPU.
    NoCpu,
    /// A handler refused its call, which stays the next one.
    Refused(SoftRefused),
}

impl<R: Raise> Model for System<R> {
    ghost use Rattle.std.specs.Prelude.{◌≤◌};
    ghost use Rattle.cyc_types.specs.Limits.{last_id};
    ghost use Rattle.cyc_agreement.specs.System.{SystemView};

    ghost Value = { SystemView R };

    ghost use Rattle.cyc_agreement.specs.Holding.{Holds};

    ghost view = { λ s. record { cpus = s.cpus; records = s.records.list; last = s.last } };

    ghost invariant = { λ s. Holds (record { cpus = s.cpus; records = s.records.list; last = s.last }) × (s.last ≤ last_id) };
}

impl<R: Raise + Drop> System<R> {
    /// A system with no cyclic, over these ends: for each CPU, of which all are online, that of its lock and that of its low
    /// level. No cyclic expires more than `most` times on a CPU. The first id to be given is `first_id`.
    ///
    /// Takes the memory of the list of CPUs, and of one cyclic on each. Refuses with Memory alone; the ends are then dropped.
    pub fn new(
        alloc: Global,
        ends: Vec<(R, R)>,
        most: u64,
        first_id: CyclicId,
    ) -> Result<System<R>, Refusal>
        requires some { 0 < length ends.items }
        requires few { length ends.items ≤ most_cpus }
        requires fresh { All (λ e. IsFresh (R.view e.0) × IsFresh (R.view e.1)) ends.items }
        ensures ok { IfOk result (λ system. system
            ≡ record { cpus = new_cpus most ends.items; records = []; last = first_id - 1 }) }
        ensures err { IfErr result (λ refusal. refusal ≡ Memory) }
    {
        let records = Records::new(alloc);
        let cpus = Cpus::new(alloc, ends, most)?;
        Ok(System {
            cpus,
            records,
            last: first_id.number() - 1,
        })
    }
}

/// A CPU takes the memory of one more cyclic.
fn reserve_at<R: Raise>(cpus: &mut Cpus<R>, number: u32) -> Result<(), Refusal>
    requires { number < length cpus.old.cpus }
    ensures { DoesAt R.Raise cpus.old (on number (Reserve 1 result)) cpus.new }
{
    cpus.cpu_mut(number).reserve(1)
}

/// A fire that is refused before its first expiration.
fn refused(why: Refusal) -> FireRefused
    ensures { result ≡ record { why = why; expired = 0; lost = 0 } }
{
    FireRefused {
        why,
        expired: 0,
        lost: 0,
    }
}

/// The CPU of this number fires.
fn fire_at<C: Calls, R: Raise>(
    cpus: &mut Cpus<R>,
    number: u32,
    now: Moment,
    calls: &mut C,
) -> Result<Fired, FireRefused>
    requires { number < length cpus.old.cpus }
    ensures { RunsAt C.Calls R.Raise no_interrupts (running_cpus calls.old cpus.old)
        (on number (Fire now result)) (running_cpus calls.new cpus.new) }
{
    cpus.cpu_mut(number).fire(now, calls)
}

impl<R: Raise> System<R> {
    ghost use Rattle.cyc_system.specs.Calls.{Changes, Does, Add, AskTotals, FireOne};

    /// What is true of every system. It does nothing when it runs.
    pub fn law(&self)
        ensures { Agrees self.now }
    {
        self.cpus.law();
    }

    /// What is true of the parts of every system: the ids of its records rise, each record has the counts of 16 CPUs, and each
    /// CPU is lawful. It does nothing when it runs.
    pub fn fit_law(&self)
        ensures fit { IsFit self.now }
        ensures lawful { AreLawful R.view self.now }
    {
        self.cpus.law();
        self.records.law();
        let _count = self.cpus.count();
    }

    /// Adds a cyclic, unbound, on the online CPU that has the fewest, and gives its id (`cyclic_add`; the choice is our own).
    /// Its first expiration is what `when` says at `now`.
    ///
    /// Refuses with BadNow where `now` is never, then with IdsSpent where the last id was given. Then as `reserve` of one on
    /// that CPU: Full, Busy, Expanding, Memory; no other CPU is tried. Takes the memory of one more cyclic there, where its size
    /// grows, and of a record. A refused call spends no id.
    pub fn add(&mut self, level: Level, when: When, now: Moment) -> Result<CyclicId, Refusal>
        ensures { Changes R.Raise self.old (Add level when now result) self.new }
    {
        if now.nanoseconds() == Moment::NEVER.nanoseconds() {
            return Err(Refusal::BadNow);
        }
        let Some(id) = CyclicId::new(self.last + 1) else {
            return Err(Refusal::IdsSpent);
        };
        self.cpus.law();
        let Some(target) = self.cpus.destination(None) else {
            unreachable!()
        };
        reserve_at(&mut self.cpus, target)?;
        self.records.reserve()?;
        let interval = when.interval;
        let first = when.first(now);
        enter(&mut self.cpus, target, id, level, interval, first);
        let placement = Placement::On {
            cpu: target,
            bound: false,
        };
        self.records.push(id, level, placement);
        self.last = id.number();
        Ok(id)
    }

    /// Makes every expiration of one CPU that is due at `now` (`cyclic_fire`).
    ///
    /// Refuses with NoCpu where there is no such CPU, then with Offline, and then as `Hard::fire`: with Suspended, BadNow,
    /// CountSpent or HandlerRefused. Takes no memory.
    pub fn fire_one<C: Calls>(
        &mut self,
        cpu: u32,
        now: Moment,
        calls: &mut C,
    ) -> Result<Fired, FireRefused>
        ensures { Does C.Calls R.Raise no_interrupts (running_system calls.old self.old)
            (FireOne cpu now result) (running_system calls.new self.new) }
    {
        if cpu >= self.cpus.count() {
            return Err(refused(Refusal::NoCpu));
        }
        if !self.cpus.is_online(cpu) {
            return Err(refused(Refusal::Offline));
        }
        fire_at(&mut self.cpus, cpu, now, calls)
    }

    /// The counts of a cyclic over all CPUs, with those of its stays that have ended, and its calls that are outstanding. None
    /// where no cyclic has the id, and once its removal has answered. Takes no memory.
    pub fn totals(&mut self, id: CyclicId) -> Option<SystemTotals>
        ensures { Changes R.Raise self.old (AskTotals id result) self.new }
    {
        agreed_totals(&mut self.cpus, &self.records, id)
    }
}

/// The soft interrupt of one level of the CPU of this number.
fn softint_at<C: Calls>(
    cpus: &mut Cpus<LevelCore>,
    number: u32,
    level: Soft,
    calls: &mut C,
    budget: u32,
) -> Result<Ran, SoftRefused>
    requires { number < length cpus.old.cpus }
    ensures { RunsAt C.Calls raise_tables (Interrupts C.Calls)
        (running_cpus calls.old cpus.old) (on number (CpuSoftInterrupt level budget result)) (running_cpus calls.new cpus.new) }
{
    cpus.cpu_mut(number).softint(level, calls, budget)
}

impl System<LevelCore> {
    ghost use Rattle.cyc_system.specs.Calls.{Does, SoftInterrupt};

    /// The soft interrupt of one level of a CPU, offline or not, where one thread has both sides of its levels
    /// (`cyclic_softint`): at most `budget` handler calls.
    ///
    /// Refuses with NoCpu where there is no such CPU. A call that its handler refuses stays the next one. Takes no memory.
    pub fn softint<C: Calls>(
        &mut self,
        cpu: u32,
        level: Soft,
        calls: &mut C,
        budget: u32,
    ) -> Result<Ran, SoftFault>
        ensures { Does C.Calls raise_tables (Interrupts C.Calls)
            (running_system calls.old self.old) (SoftInterrupt cpu level budget result) (running_system calls.new self.new) }
    {
        if cpu >= self.cpus.count() {
            return Err(SoftFault::NoCpu);
        }
        match softint_at(&mut self.cpus, cpu, level, calls, budget) {
            Ok(ran) => Ok(ran),
            Err(refused) => Err(SoftFault::Refused(refused)),
        }
    }
}
