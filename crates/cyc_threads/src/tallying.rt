//! Handlers for a run in threads that count its calls.

ghost use Rattle.std.specs.Prelude.{◌≡◌, ◌*◌, ◌^◌, ◌-◌, All, length, IfOk};
ghost use Rattle.cyc_types.specs.Tally.{tally_made};

use cyc_script::Script;
use cyc_types::{CyclicId, Tally};
use std::alloc::{AllocError, Global};

/// Handlers for [`run`](crate::run), three for each CPU: each counts the calls of all cyclics of the script, from none, and
/// refuses none below 2^64 - 1 of them. Their memory may be refused.
pub fn tallies(alloc: Global, script: &Script) -> Result<Vec<Tally>, AllocError>
    ensures many { IfOk result (λ calls. length calls.items ≡ 3 * script.now.cpus) }
    ensures new { IfOk result (λ calls. All (λ t. t ≡ tally_made 1 (length script.now.names.items) (2 ^ 64 - 1)) calls.items) }
{
    let Some(first) = CyclicId::new(1) else {
        unreachable!()
    };
    let mut calls = Vec::new(alloc);
    for _ in 0..3 * script.cpus {
        calls.push(Tally::new(alloc, first, script.names.len(), u64::MAX)?)?;
    }
    Ok(calls)
}
