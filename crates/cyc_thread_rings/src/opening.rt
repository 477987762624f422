//! All rings of a system are opened.

ghost use Rattle.std.specs.Prelude.{◌≡◌, length, All, IfOk, IfErr};
ghost use Rattle.cyc_types.specs.declared.refusal.Refusal.TheVariants.{Memory};
ghost use Rattle.cyc_types.specs.Pairs.{EachTwo};
ghost use Rattle.cyc_thread_rings.specs.Rings.{IsSeated, AreSeated, IsNew, AreNew, BeginsAt, BeginAt};

use crate::levels::Levels;
use cyc_ring::Ring;
use cyc_types::{Ceiling, Refusal};
use cyc_workers::Seats;
use std::alloc::Global;

/// The rings of a system by the numbers of its CPUs, and their seats.
#[derive(Drop)]
pub struct Opened {
    pub rings: Vec<Levels<Ring>>,
    pub seats: Vec<Levels<Seats>>,
}

/// Opens the ring of one soft level.
fn open_ring(alloc: Global, ceiling: Ceiling, start: u32) -> Result<(Ring, Seats), Refusal>
    ensures seated { IfOk result (λ r. IsSeated r.0 r.1) }
    ensures new { IfOk result (λ r. IsNew ceiling r.1) }
    ensures start { IfOk result (λ r. BeginsAt start r.1) }
    ensures refused { IfErr result (λ e. e ≡ Memory) }
{
    let (ring, raise, drain) = Ring::open(alloc, ceiling, start)?;
    Ok((ring, Seats { raise, drain }))
}

/// Opens the two rings of a CPU.
fn open_both(
    alloc: Global,
    ceiling: Ceiling,
    start: u32,
) -> Result<(Levels<Ring>, Levels<Seats>), Refusal>
    ensures seated { IfOk result (λ r. AreSeated r.0 r.1) }
    ensures new { IfOk result (λ r. AreNew ceiling r.1) }
    ensures start { IfOk result (λ r. BeginAt start r.1) }
    ensures refused { IfErr result (λ e. e ≡ Memory) }
{
    let (lock_ring, lock) = open_ring(alloc, ceiling, start)?;
    let (low_ring, low) = open_ring(alloc, ceiling, start)?;
    let rings = Levels {
        lock: lock_ring,
        low: low_ring,
    };
    Ok((rings, Levels { lock, low }))
}

/// Opens two rings for each of so many CPUs. `ceiling` is the greatest pend, and the buffer indexes begin at `start`. Takes all
/// the memory that they will use, and refuses with Memory alone.
pub fn open_rings(
    alloc: Global,
    cpus: usize,
    ceiling: Ceiling,
    start: u32,
) -> Result<Opened, Refusal>
    ensures len { IfOk result (λ o. length o.seats.items ≡ cpus) }
    ensures seated { IfOk result (λ o. EachTwo AreSeated o.rings.items o.seats.items) }
    ensures new { IfOk result (λ o. All (AreNew ceiling) o.seats.items) }
    ensures start { IfOk result (λ o. All (BeginAt start) o.seats.items) }
    ensures refused { IfErr result (λ e. e ≡ Memory) }
{
    let mut rings = Vec::with_capacity(alloc, cpus)?;
    let mut seats = Vec::with_capacity(alloc, cpus)?;
    for _ in 0..cpus {
        let (own_rings, own_seats) = open_both(alloc, ceiling, start)?;
        rings.push_reserved(own_rings);
        seats.push_reserved(own_seats);
    }
    Ok(Opened { rings, seats })
}
