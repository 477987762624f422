//! What the threads of a run are given.

ghost use Rattle.std.specs.Prelude.{◌≡◌, ℕ, ◌+◌, [], ◌∷◌, ◌++◌, map, IfOk, IfErr, OnOk};
ghost use Rattle.cyc_types.specs.declared.refusal.Refusal.TheVariants.{Memory};
ghost use Rattle.cyc_thread_rings.specs.Preparing.{HasThreadRoom};
ghost use Rattle.cyc_thread_rings.specs.Working.{sides_of};

use crate::attaching::Attached;
use crate::levels::Levels;
use crate::working::Drainer;
use crossbeam_utils::sync::Parker;
use cyc_ring::{DrainEnd, RaiseEnd};
use cyc_soft::SoftSide;
use cyc_types::Refusal;
use cyc_workers::{Lead, Wakers};
use std::alloc::{AllocError, Global};
use std::sync::Arc;

/// What the threads of a run are given, by the numbers of the CPUs.
#[derive(Drop)]
pub struct Prepared<'a, C> {
    /// The firing ends of each CPU, that of its lock level first.
    pub ends: Vec<(RaiseEnd<'a>, RaiseEnd<'a>)>,
    /// What leads each CPU.
    pub leads: Vec<Lead<C>>,
    /// The draining workers of each CPU.
    pub drainers: Vec<Levels<Drainer<DrainEnd<'a>, C>>>,
    /// What wakes them, for the end of the run.
    pub wakers: Vec<Arc<Wakers, Global>>,
}

/// What the threads of a run are given, over any ends. Where memory is refused, the drainers go before the leads.
#[derive(Drop)]
struct Lists<E, D, C> {
    wakers: Vec<Arc<Wakers, Global>>,
    drainers: Vec<Levels<Drainer<D, C>>>,
    leads: Vec<Lead<C>>,
    ends: Vec<E>,
}

/// Two beds, and what wakes those who sleep there, twice.
fn beds(
    alloc: Global,
) -> Result<(Levels<Parker>, Arc<Wakers, Global>, Arc<Wakers, Global>), AllocError> {
    let lock = Parker::new(alloc)?;
    let low = Parker::new(alloc)?;
    let wakers = Wakers {
        lock: lock.unparker().clone()?,
        low: low.unparker().clone()?,
    };
    let wakers = Arc::new(alloc, wakers)?;
    let same = Arc::try_clone(&wakers)?;
    Ok((Levels { lock, low }, wakers, same))
}

/// The draining workers of a CPU over its soft sides, each with its bed.
fn drainers_of<D, C>(beds: Levels<Parker>, soft: Levels<SoftSide<D, C>>) -> Levels<Drainer<D, C>>
    ensures { sides_of result ≡ soft }
{
    Levels {
        lock: Drainer {
            parker: beds.lock,
            side: soft.lock,
        },
        low: Drainer {
            parker: beds.low,
            side: soft.low,
        },
    }
}

/// Room for what the threads of so many CPUs are given. Its memory may be refused.
fn room<E: Drop, D: Drop, C: Drop>(alloc: Global, cpus: usize) -> Result<Lists<E, D, C>, AllocError>
    ensures none { IfOk result (λ l. (l.ends.items ≡ []) × ((l.leads.items ≡ []) × (l.drainers.items ≡ []))) }
    ensures room { IfOk result (HasThreadRoom cpus) }
{
    let wakers = Vec::with_capacity(alloc, cpus)?;
    let leads = Vec::with_capacity(alloc, cpus)?;
    let drainers = Vec::with_capacity(alloc, cpus)?;
    let ends = Vec::with_capacity(alloc, cpus)?;
    Ok(Lists {
        wakers,
        drainers,
        leads,
        ends,
    })
}

/// What the threads of one CPU more are given. Its memory may be refused; then the ends go first, then the firing handler.
fn add<E: Drop, D: Drop, C: Drop>(
    alloc: Global,
    lists: &mut Lists<E, D, C>,
    soft: Levels<SoftSide<D, C>>,
    high: C,
    ends: E,
) -> Result<(), Refusal>
    requires { HasThreadRoom 1 lists.old }
    ensures ends { OnOk result (lists.new.ends.items ≡ lists.old.ends.items ++ ends ∷ []) }
    ensures leads { OnOk result (map (λ l. l.calls) lists.new.leads.items
        ≡ map (λ l. l.calls) lists.old.leads.items ++ high ∷ []) }
    ensures drainers { OnOk result (map sides_of lists.new.drainers.items
        ≡ map sides_of lists.old.drainers.items ++ soft ∷ []) }
    ensures room { OnOk result ((n : ℕ) → HasThreadRoom (n + 1) lists.old → HasThreadRoom n lists.new) }
    ensures refused { IfErr result (λ e. e ≡ Memory) }
{
    let (parkers, own, wakers) = beds(alloc)?;
    lists.ends.push_reserved(ends);
    lists.leads.push_reserved(Lead {
        calls: high,
        wakers: own,
    });
    lists.drainers.push_reserved(drainers_of(parkers, soft));
    lists.wakers.push_reserved(wakers);
    Ok(())
}

/// What the threads of a run are given, over these ends. Its memory may be refused.
pub fn prepare<'a, C: Drop>(
    alloc: Global,
    all: Vec<Attached<'a, C>>,
) -> Result<Prepared<'a, C>, Refusal>
    ensures ends { IfOk result (λ p. p.ends.items ≡ map (λ a. a.ends) all.entry.items) }
    ensures leads { IfOk result (λ p. map (λ l. l.calls) p.leads.items ≡ map (λ a. a.high) all.entry.items) }
    ensures drainers { IfOk result (λ p. map sides_of p.drainers.items ≡ map (λ a. a.soft) all.entry.items) }
    ensures refused { IfErr result (λ e. e ≡ Memory) }
{
    let mut lists = room(alloc, all.len())?;
    for attached in all {
        let Attached { ends, high, soft } = attached;
        add(alloc, &mut lists, soft, high, ends)?;
    }
    Ok(Prepared {
        ends: lists.ends,
        leads: lists.leads,
        drainers: lists.drainers,
        wakers: lists.wakers,
    })
}
