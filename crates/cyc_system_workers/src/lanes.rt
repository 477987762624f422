//! The CPUs of a system on their way into threads, and back.

ghost use Rattle.std.specs.Prelude.{◌≡◌, map, length, IfOk};

use cyc_cpu::Hard;
use cyc_timers::{FireRefused, Fired};
use cyc_types::Raise;
use cyc_workers::Lead;
use std::alloc::{AllocError, Global};

/// A CPU on its way into a thread.
#[derive(Drop)]
pub struct Lane<R: Raise, C> {
    pub hard: Hard<R>,
    pub lead: Lead<C>,
    pub online: bool,
}

/// A CPU that comes out of a thread, with what its fire answered: None where it was not online.
#[derive(Drop)]
pub struct LaneAfter<R: Raise, C> {
    pub hard: Hard<R>,
    pub lead: Lead<C>,
    pub answer: Option<Result<Fired, FireRefused>>,
}

/// The CPUs with what leads them, each beside its own, by their numbers.
pub(crate) fn gather<R: Raise + Drop, C: Drop>(
    alloc: Global,
    hards: Vec<Hard<R>>,
    leads: Vec<Lead<C>>,
    online: &[bool],
) -> Result<Vec<Lane<R, C>>, AllocError>
    requires leads { length leads.items ≡ length hards.items }
    requires online { length online.now ≡ length hards.items }
    ensures hards { IfOk result (λ v. map (λ l. l.hard) v.items ≡ hards.items) }
    ensures leads { IfOk result (λ v. map (λ l. l.lead) v.items ≡ leads.items) }
    ensures online { IfOk result (λ v. map (λ l. l.online) v.items ≡ online.now) }
{
    let mut lanes = Vec::with_capacity(alloc, online.len())?;
    let mut rest = leads.into_iter();
    for hard in hards {
        let Some(lead) = rest.next() else {
            unreachable!()
        };
        let up = online[lanes.len()];
        lanes.push_reserved(Lane {
            hard,
            lead,
            online: up,
        });
    }
    Ok(lanes)
}

/// The CPUs, what leads them and the answers, apart, by the numbers.
pub(crate) fn scatter<R: Raise + Drop, C: Drop>(
    alloc: Global,
    lanes: Vec<LaneAfter<R, C>>,
) -> Result<
    (
        Vec<Hard<R>>,
        Vec<Lead<C>>,
        Vec<Option<Result<Fired, FireRefused>>>,
    ),
    AllocError,
>
    ensures hards { IfOk result (λ r. r.0.items ≡ map (λ l. l.hard) lanes.items) }
    ensures leads { IfOk result (λ r. r.1.items ≡ map (λ l. l.lead) lanes.items) }
    ensures answers { IfOk result (λ r. r.2.items ≡ map (λ l. l.answer) lanes.items) }
{
    let mut hards = Vec::with_capacity(alloc, lanes.len())?;
    let mut leads = Vec::with_capacity(alloc, lanes.len())?;
    let mut answers = Vec::with_capacity(alloc, lanes.len())?;
    for lane in lanes {
        let LaneAfter { hard, lead, answer } = lane;
        hards.push_reserved(hard);
        leads.push_reserved(lead);
        answers.push_reserved(answer);
    }
    Ok((hards, leads, answers))
}
