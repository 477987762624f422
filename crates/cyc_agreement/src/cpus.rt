//! The CPUs by number, which of them are online, and the lending of one.

ghost use Rattle.std.specs.Prelude.{◌≡◌, ◌<◌, ◌≤◌, ℕ, List, length, map, slice_set, true, All, Some, IfOk, IfErr};
ghost use Rattle.std.specs.List.{slice_get};
ghost use Rattle.std.specs.Borrow.{Lends, sem};
ghost use Rattle.cyc_types.specs.Limits.{most_cpus};
ghost use Rattle.cyc_types.specs.declared.refusal.Refusal.TheVariants.{Memory};
ghost use Rattle.cyc_cpu.specs.Cpu.{CpuView, IsFresh};
ghost use Rattle.cyc_cpu.specs.Laws.{IsLawful};
ghost use Rattle.cyc_cpu.specs.contracts.hard.Hard.{the_row as hard_row};
ghost use Rattle.cyc_agreement.specs.Cpus.{with_cpu, IsCpu, new_cpu, new_cpus};
ghost use Rattle.cyc_agreement.specs.contracts.cpus.Cpus.{the_row};

use cyc_cpu::Hard;
use cyc_types::{Raise, Refusal};
use std::alloc::Global;
use std::marker::Model;

/// The firing sides of a system's CPUs, at most 16, and which of them are online. CPUs are named by their numbers from 0 on.
#[derive(Drop)]
pub struct Cpus<R: Raise> {
    hards: Vec<Hard<R>>,
    online: Vec<bool>,
}

impl<R: Raise> Model for Cpus<R> {
    ghost use Rattle.std.specs.Prelude.{◌≡◌, ◌≤◌, length};
    ghost use Rattle.cyc_types.specs.Limits.{most_cpus};
    ghost use Rattle.cyc_agreement.specs.Cpus.{CpusView};

    ghost Value = { CpusView R };

    ghost view = { λ c. record { cpus = c.hards.items; online = c.online.items } };

    ghost invariant = { λ c. (length c.online.items ≡ length c.hards.items) × (length c.hards.items ≤ most_cpus) };
}

/// A CPU with no cyclic over each pair of ends.
fn new_hards<R: Raise + Drop>(
    alloc: Global,
    ends: Vec<(R, R)>,
    most: u64,
) -> Result<Vec<Hard<R>>, Refusal>
    requires { All (λ e. IsFresh (R.view e.0) × IsFresh (R.view e.1)) ends.items }
    ensures ok { IfOk result (λ hards. hards.items ≡ map (λ e. new_cpu most e.0 e.1) ends.items) }
    ensures err { IfErr result (λ refusal. refusal ≡ Memory) }
{
    let mut hards = Vec::with_capacity(alloc, ends.len())?;
    for (lock, low) in ends {
        hards.push_reserved(Hard::new(alloc, most, lock, low)?);
    }
    Ok(hards)
}

impl<R: Raise + Drop> Cpus<R> {
    /// CPUs with no cyclic, all online, over these ends: of each CPU that of its lock and that of its low level. No cyclic
    /// expires more than `most` times. Refuses with Memory alone; the ends are then dropped.
    pub fn new(alloc: Global, ends: Vec<(R, R)>, most: u64) -> Result<Cpus<R>, Refusal>
        requires few { length ends.items ≤ most_cpus }
        requires fresh { All (λ e. IsFresh (R.view e.0) × IsFresh (R.view e.1)) ends.items }
        ensures ok { IfOk result (λ cpus. cpus ≡ new_cpus most ends.items) }
        ensures err { IfErr result (λ refusal. refusal ≡ Memory) }
    {
        let online = vec![in alloc; true; ends.len()]?;
        let hards = new_hards(alloc, ends, most)?;
        Ok(Cpus { hards, online })
    }
}

impl<R: Raise> Cpus<R> {
    /// The CPUs that have these firing sides by number, each online as is said.
    pub fn from_parts(hards: Vec<Hard<R>>, online: Vec<bool>) -> Cpus<R>
        requires few { length hards.items ≤ most_cpus }
        requires as_many { length online.items ≡ length hards.items }
        ensures { result ≡ record { cpus = hards.items; online = online.items } }
    {
        Cpus { hards, online }
    }

    /// The firing sides by number, and which are online.
    pub fn into_parts(self) -> (Vec<Hard<R>>, Vec<bool>)
        ensures cpus { result.0.items ≡ self.cpus }
        ensures online { result.1.items ≡ self.online }
    {
        let Cpus { hards, online } = self;
        (hards, online)
    }

    /// How many CPUs there are.
    pub fn count(&self) -> u32
        ensures count { result ≡ length self.now.cpus }
        ensures online { result ≡ length self.now.online }
        ensures few { result ≤ most_cpus }
    {
        self.hards.len() as u32
    }

    /// What is true of each CPU. It does nothing when it runs.
    pub fn law(&self)
        ensures { (n : ℕ) (cpu : CpuView R) → IsCpu n cpu self.now → IsLawful R.view cpu }
    {
        for hard in &self.hards {
            hard.law();
        }
    }

    /// The CPU of this number.
    pub fn cpu(&self, number: u32) -> &Hard<R>
        requires { number < length self.now.cpus }
        ensures { IsCpu number result.now self.now }
    {
        &self.hards[number as usize]
    }

    /// The CPU of this number, for a call that changes it.
    pub fn cpu_mut(&mut self, number: u32) -> &mut Hard<R>
        requires { number < length self.old.cpus }
        ensures* writes_back { sem 𝓛 (Lends (the_row R.row R.Raise) (hard_row R.row R.Raise) self.entry result
            (with_cpu self.old number)) }
        ensures cpu { IsCpu number result.now self.old }
    {
        &mut self.hards[number as usize]
    }

    /// Whether this CPU is online.
    pub fn is_online(&self, number: u32) -> bool
        requires { number < length self.now.cpus }
        ensures { slice_get self.now.online number ≡ Some result }
    {
        self.online[number as usize]
    }

    /// This CPU goes online or offline. None of its cyclics is touched.
    pub fn set_online(&mut self, number: u32, online: bool)
        requires { number < length self.old.cpus }
        ensures { self.new ≡ record self.old { online = slice_set self.old.online number online } }
    {
        self.online[number as usize] = online;
    }
}
