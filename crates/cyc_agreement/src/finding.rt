//! Where a removal is open.

ghost use Rattle.std.specs.Prelude.{◌≡◌, ◌<◌, length};
ghost use Rattle.std.specs.List.{list_any};
ghost use Rattle.cyc_agreement.specs.Cpus.{OfCpu};
ghost use Rattle.cyc_agreement.specs.System.{is_leaving_here};

use crate::cpus::Cpus;
use cyc_types::{CyclicId, Raise};

/// Whether the removal of this id is open on the CPU.
pub fn is_leaving_at<R: Raise>(cpus: &Cpus<R>, number: u32, id: CyclicId) -> bool
    requires { number < length cpus.now.cpus }
    ensures { OfCpu number (λ cpu. result ≡ is_leaving_here id cpu) cpus.now }
{
    match cpus.cpu(number).removal() {
        Some(removed) => removed.number() == id.number(),
        None => false,
    }
}

/// Whether the removal of this id is open on some CPU.
pub fn is_leaving<R: Raise>(cpus: &Cpus<R>, id: CyclicId) -> bool
    ensures { result ≡ list_any (is_leaving_here id) cpus.now.cpus }
{
    for number in 0..cpus.count() {
        if is_leaving_at(cpus, number, id) {
            return true;
        }
    }
    false
}
