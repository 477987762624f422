//! The seats of a system's rings go under ends, and come out again.

ghost use Rattle.std.specs.Prelude.{◌≡◌, map, IfOk};
ghost use Rattle.cyc_types.specs.Pairs.{EachTwo};
ghost use Rattle.cyc_thread_rings.specs.Rings.{AreSeated, IsAttached};

use crate::levels::{Levels, Seated};
use cyc_ring::{DrainEnd, RaiseEnd, Ring};
use cyc_soft::SoftSide;
use cyc_types::Calls;
use cyc_workers::{Handlers, Seats};
use std::alloc::{AllocError, Global};

/// The ends of a CPU's two rings, that of its lock level first, and its handlers beside them.
#[derive(Drop)]
pub struct Attached<'a, C> {
    pub ends: (RaiseEnd<'a>, RaiseEnd<'a>),
    pub high: C,
    pub soft: Levels<SoftSide<DrainEnd<'a>, C>>,
}

/// The seats of one CPU under ends of its rings.
fn attach_one<'a, C>(rings: &'a Levels<Ring>, seated: Seated<C>) -> Attached<'a, C>
    requires { AreSeated rings.now seated.seats }
    ensures { IsAttached seated result }
{
    let Seated { seats, calls } = seated;
    let Levels { lock, low } = seats;
    Attached {
        ends: (
            RaiseEnd::new(&rings.lock, lock.raise),
            RaiseEnd::new(&rings.low, low.raise),
        ),
        high: calls.high,
        soft: Levels {
            lock: SoftSide {
                drain: DrainEnd::new(&rings.lock, lock.drain),
                calls: calls.lock,
            },
            low: SoftSide {
                drain: DrainEnd::new(&rings.low, low.drain),
                calls: calls.low,
            },
        },
    }
}

/// The seats of each CPU under ends of its rings. Its memory may be refused.
pub fn attach<'a, C: Drop>(
    alloc: Global,
    rings: &'a [Levels<Ring>],
    all: Vec<Seated<C>>,
) -> Result<Vec<Attached<'a, C>>, AllocError>
    requires { EachTwo AreSeated rings.now (map (λ s. s.seats) all.items) }
    ensures { IfOk result (λ v. EachTwo IsAttached all.items v.items) }
{
    let mut attached = Vec::with_capacity(alloc, all.len())?;
    for seated in all {
        let position = attached.len();
        if position >= rings.len() {
            unreachable!()
        }
        attached.push_reserved(attach_one(&rings[position], seated));
    }
    Ok(attached)
}

/// The seats of one CPU, as they are now.
pub fn detach<'a, C>(attached: Attached<'a, C>) -> Seated<C>
    ensures { IsAttached result attached.entry }
{
    let Attached { ends, high, soft } = attached;
    let (lock_end, low_end) = ends;
    let Levels { lock, low } = soft;
    Seated {
        seats: Levels {
            lock: Seats {
                raise: lock_end.into_seat(),
                drain: lock.drain.into_seat(),
            },
            low: Seats {
                raise: low_end.into_seat(),
                drain: low.drain.into_seat(),
            },
        },
        calls: Handlers {
            high,
            lock: lock.calls,
            low: low.calls,
        },
    }
}
