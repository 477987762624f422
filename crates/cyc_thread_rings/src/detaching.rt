//! What the CPUs of a run leave: the seats of their rings, and their handlers.

ghost use Rattle.std.specs.Prelude.{◌≡◌, map, length, IfOk};
ghost use Rattle.cyc_thread_rings.specs.Rings.{firing_seats, seats_on, soft_seats, soft_seats_on};

use crate::attaching::{Attached, detach};
use crate::levels::{Levels, Seated};
use crate::taking::take_next;
use cyc_cpu::Hard;
use cyc_ring::{DrainEnd, RaiseEnd};
use cyc_soft::SoftSide;
use cyc_workers::Lead;
use std::alloc::{AllocError, Global};

/// What one CPU leaves: the seats of its two rings, and its handlers.
fn leave<'a, C: Drop>(
    hard: Hard<RaiseEnd<'a>>,
    lead: Lead<C>,
    soft: Levels<SoftSide<DrainEnd<'a>, C>>,
) -> Seated<C>
    ensures firing { firing_seats result ≡ seats_on hard.entry }
    ensures high { result.calls.high ≡ lead.calls }
    ensures soft { soft_seats result ≡ soft_seats_on soft.entry }
{
    let ends = hard.into_ends();
    detach(Attached {
        ends,
        high: lead.calls,
        soft,
    })
}

/// What each CPU leaves, by their numbers. Its memory may be refused.
pub fn leave_all<'a, C: Drop>(
    alloc: Global,
    hards: Vec<Hard<RaiseEnd<'a>>>,
    leads: Vec<Lead<C>>,
    soft: Vec<Levels<SoftSide<DrainEnd<'a>, C>>>,
) -> Result<Vec<Seated<C>>, AllocError>
    requires leads { length leads.items ≡ length hards.items }
    requires soft { length soft.items ≡ length hards.items }
    ensures firing { IfOk result (λ v. map firing_seats v.items ≡ map seats_on hards.entry.items) }
    ensures high { IfOk result (λ v. map (λ s. s.calls.high) v.items ≡ map (λ l. l.calls) leads.items) }
    ensures soft { IfOk result (λ v. map soft_seats v.items ≡ map soft_seats_on soft.entry.items) }
{
    let mut all = Vec::with_capacity(alloc, hards.len())?;
    let mut rest_leads = leads.into_iter();
    let mut rest_soft = soft.into_iter();
    for hard in hards {
        let lead = take_next(&mut rest_leads);
        let own = take_next(&mut rest_soft);
        all.push_reserved(leave(hard, lead, own));
    }
    Ok(all)
}
