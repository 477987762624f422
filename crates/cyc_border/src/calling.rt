//! A call of a handler, as the caller takes and finishes it.

ghost use Rattle.std.specs.Prelude.{◌≡◌, Some, None, Err, IfSome, IfNone, IfOk, IfErr};
ghost use Rattle.cyc_cpu.specs.Soft.{end_at, held_at, HasEmptyLists};
ghost use Rattle.cyc_border.specs.Border.{IsAsked, WhyNotAsked, AddsAsked, CallsAdd, FiresPart, FiresCpu, refused_at};
ghost use Rattle.cyc_border.specs.Border.{Takes, Finishes};
ghost use Rattle.cyc_border.specs.Border.{add_numbers, grant, stopped_at, handed_after, call_at, with_call};

use crate::cpu::Cpu;
use crate::granted::Granted;
use crate::numbers::{Denied, level_of};
use cyc_cpu::Hard;
use cyc_soft::{Ran, SoftRefused};
use cyc_timers::{FireRefused, Fired};
use cyc_types::{CyclicId, Level, Moment, Raise, Refusal, Soft, When};

/// What is granted where the caller has called this handler, or none.
fn granted(called: Option<CyclicId>) -> Granted
    ensures { result ≡ grant called }
{
    match called {
        Some(id) => Granted::One(id),
        None => Granted::Nothing,
    }
}

/// What stays handed out behind a fire that was refused, but not in front of a high cyclic: what was handed out before, where it
/// was refused at once. A call, so that LLVM takes it for rare, and a fire that stops in front of a high cyclic goes straight on.
#[cold]
#[inline(never)]
fn stays_out(high: Option<CyclicId>, refused: &FireRefused) -> Option<CyclicId>
    requires { stopped_at (Err refused.now) ≡ None }
    ensures { result ≡ handed_after high (Err refused.now) }
{
    match refused.why {
        Refusal::Suspended | Refusal::BadNow => high,
        _ => None,
    }
}

/// What is handed out behind a fire: the cyclic in front of which it stopped, and after a fire that was refused at once what was
/// handed out before.
fn handed_out(high: Option<CyclicId>, answer: &Result<Fired, FireRefused>) -> Option<CyclicId>
    ensures { result ≡ handed_after high answer.now }
{
    match answer {
        Ok(_) => None,
        Err(refused) => match refused.why {
            Refusal::HandlerRefused(id) => Some(id),
            _ => stays_out(high, refused),
        },
    }
}

/// The call that a soft interrupt stopped in front of.
fn refused_of(answer: &Result<Ran, SoftRefused>) -> Option<CyclicId>
    ensures { result ≡ refused_at answer.now }
{
    match answer {
        Ok(_) => None,
        Err(refused) => Some(refused.id),
    }
}

/// What an add is asked for.
#[derive(Clone, Copy, Debug, PartialEq, Eq)]
pub struct Asked {
    pub id: CyclicId,
    pub level: Level,
    pub when: When,
    pub now: Moment,
}

/// What these numbers ask for.
fn read_asked(id: u64, level: u32, start: i64, interval: i64, now: i64) -> Result<Asked, Denied>
    ensures ok { IfOk result (λ a. IsAsked id level start interval now a) }
    ensures err { IfErr result (λ e. WhyNotAsked id level start interval now e) }
{
    let Some(level) = level_of(level) else {
        return Err(Denied::Misused);
    };
    let Some(id) = CyclicId::new(id) else {
        return Err(Denied::Misused);
    };
    let when = When::new(start, interval)?;
    let now = Moment::new(now)?;
    Ok(Asked {
        id,
        level,
        when,
        now,
    })
}

/// Adds a cyclic as it is asked for, where no cyclic here has its id.
fn add_asked<R: Raise>(cpu: &mut Hard<R>, asked: Asked) -> Result<(), Denied>
    ensures { AddsAsked R.Raise asked result cpu.old cpu.new }
{
    if cpu.has(asked.id) {
        return Err(Denied::Taken);
    }
    cpu.add(asked.id, asked.level, asked.when, asked.now)?;
    Ok(())
}

/// Adds a cyclic of this id, which no other cyclic here has.
pub fn add<R: Raise>(
    cpu: &mut Hard<R>,
    id: u64,
    level: u32,
    start: i64,
    interval: i64,
    now: i64,
) -> Result<(), Denied>
    ensures { CallsAdd R.Raise (add_numbers id level start interval now) result cpu.old cpu.new }
{
    match read_asked(id, level, start, interval, now) {
        Ok(asked) => add_asked(cpu, asked),
        Err(denied) => Err(denied),
    }
}

/// Makes the expirations that are due, up to the next high one, which is then handed out in `high`: the caller calls its handler,
/// and the next fire counts that call.
///
/// Refuses with Suspended while the CPU is suspended, then with BadNow where `now` is never; both leave what is handed out as it
/// was. An expiration of a cyclic that has expired as often as it may is refused with CountSpent, and the high one in front of
/// which it stops with HandlerRefused; those before it were made. Takes no memory.
pub fn fire<R: Raise>(
    cpu: &mut Hard<R>,
    high: &mut Option<CyclicId>,
    now: Moment,
) -> Result<Fired, FireRefused>
    ensures { FiresPart R.Raise now result high.old cpu.old high.new cpu.new }
{
    let mut calls = granted(*high);
    let answer = cpu.fire(now, &mut calls);
    *high = handed_out(*high, &answer);
    answer
}

impl Cpu {
    /// The same of a CPU on one thread.
    pub fn fire(&mut self, now: Moment) -> Result<Fired, FireRefused>
        ensures { FiresCpu now result self.old self.new }
    {
        fire(&mut self.hard, &mut self.high, now)
    }

    /// The call of this level that was taken and is not finished.
    fn call_at(&self, level: Soft) -> Option<CyclicId>
        ensures { result ≡ call_at level self.now }
    {
        match level {
            Soft::Low => self.low,
            Soft::Lock => self.lock,
        }
    }

    fn set_call(&mut self, level: Soft, call: Option<CyclicId>)
        ensures { self.new ≡ with_call level call self.old }
    {
        match level {
            Soft::Low => self.low = call,
            Soft::Lock => self.lock = call,
        }
    }

    /// The cyclic of this level whose handler the caller is to call next.
    pub fn take(&mut self, level: Soft) -> Option<CyclicId>
        ensures did { Takes level result self.old self.new }
        ensures held { IfSome result (λ id. held_at (end_at level self.new.hard) ≡ Some id) }
        ensures idle { IfNone result (HasEmptyLists (end_at level self.new.hard)) }
    {
        let mut nobody = Granted::Nothing;
        let answer = self.hard.softint(level, &mut nobody, 1);
        self.set_call(level, refused_of(&answer));
        self.call_at(level)
    }

    /// Counts the call that was taken, which the caller has made.
    pub fn finish(&mut self, level: Soft) -> Result<(), Denied>
        ensures { Finishes level result self.old self.new }
    {
        let Some(id) = self.call_at(level) else {
            return Err(Denied::Misused);
        };
        let mut calls = Granted::One(id);
        let answer = self.hard.softint(level, &mut calls, 1);
        self.set_call(level, None);
        match answer {
            Ok(ran) => {
                if ran.calls > 0 {
                    Ok(())
                } else {
                    Err(Denied::Misused)
                }
            }
            Err(refused) => Err(Denied::Refused(Refusal::HandlerRefused(refused.id))),
        }
    }
}
