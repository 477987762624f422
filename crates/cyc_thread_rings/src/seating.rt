//! The seats of the CPUs beside their handlers.

ghost use Rattle.std.specs.Prelude.{◌≡◌, map, length, IfOk};

use crate::levels::{Levels, Seated};
use crate::taking::take_next;
use cyc_workers::{Handlers, Seats};
use std::alloc::{AllocError, Global};

/// The seats of each CPU beside its handlers. Its memory may be refused.
pub fn seat_all<C: Drop>(
    alloc: Global,
    seats: Vec<Levels<Seats>>,
    calls: Vec<Handlers<C>>,
) -> Result<Vec<Seated<C>>, AllocError>
    requires { length calls.items ≡ length seats.items }
    ensures seats { IfOk result (λ v. map (λ s. s.seats) v.items ≡ seats.items) }
    ensures calls { IfOk result (λ v. map (λ s. s.calls) v.items ≡ calls.items) }
{
    let mut all = Vec::with_capacity(alloc, seats.len())?;
    let mut rest = calls.into_iter();
    for own in seats {
        all.push_reserved(Seated {
            seats: own,
            calls: take_next(&mut rest),
        });
    }
    Ok(all)
}

/// The seats and the handlers of the CPUs, apart. Its memory may be refused.
pub fn unseat_all<C: Drop>(
    alloc: Global,
    all: Vec<Seated<C>>,
) -> Result<(Vec<Levels<Seats>>, Vec<Handlers<C>>), AllocError>
    ensures seats { IfOk result (λ r. r.0.items ≡ map (λ s. s.seats) all.items) }
    ensures calls { IfOk result (λ r. r.1.items ≡ map (λ s. s.calls) all.items) }
{
    let mut all_seats = Vec::with_capacity(alloc, all.len())?;
    let mut all_calls = Vec::with_capacity(alloc, all.len())?;
    for seated in all {
        let Seated { seats, calls } = seated;
        all_seats.push_reserved(seats);
        all_calls.push_reserved(calls);
    }
    Ok((all_seats, all_calls))
}
