//! All rings of a system are closed.

ghost use Rattle.std.specs.Prelude.{◌≡◌, flat_map, IfOk};
ghost use Rattle.cyc_types.specs.Pairs.{EachTwo};
ghost use Rattle.cyc_thread_rings.specs.Laid.{two};
ghost use Rattle.cyc_thread_rings.specs.Rings.{IsSeated, AreSeated, IsClosed, AreClosed};

use crate::levels::Levels;
use crate::taking::take_next;
use cyc_ring::{Closed, Ring};
use cyc_workers::Seats;
use std::alloc::{AllocError, Global};

/// Closes one ring.
fn close_ring(ring: Ring, seats: Seats) -> Closed
    requires { IsSeated ring seats }
    ensures { IsClosed seats result }
{
    ring.close(seats.raise, seats.drain)
}

/// Closes the rings of each CPU with their own seats: what they say, by the numbers of the CPUs. Its memory may be refused.
pub fn close_rings(
    alloc: Global,
    rings: Vec<Levels<Ring>>,
    seats: Vec<Levels<Seats>>,
) -> Result<Vec<Levels<Closed>>, AllocError>
    requires { EachTwo AreSeated rings.items seats.items }
    ensures { IfOk result (λ v. EachTwo AreClosed seats.items v.items) }
{
    let mut closed = Vec::with_capacity(alloc, seats.len())?;
    let mut rest = rings.into_iter();
    for own in seats {
        let of_cpu = take_next(&mut rest);
        closed.push_reserved(Levels {
            lock: close_ring(of_cpu.lock, own.lock),
            low: close_ring(of_cpu.low, own.low),
        });
    }
    Ok(closed)
}

/// What the rings say in one list: CPU after CPU, lock and low. Its memory may be refused.
pub fn in_pairs<T: Drop>(alloc: Global, all: Vec<Levels<T>>) -> Result<Vec<T>, AllocError>
    ensures { IfOk result (λ v. v.items ≡ flat_map two all.items) }
{
    let mut list = Vec::new(alloc);
    for of_cpu in all {
        let Levels { lock, low } = of_cpu;
        list.push(lock)?;
        list.push(low)?;
    }
    Ok(list)
}
