//! The handlers of a system, one list of all or those of each CPU.

ghost use Rattle.std.specs.Prelude.{◌≡◌, ◌*◌, flat_map, length, IfOk};
ghost use Rattle.cyc_thread_rings.specs.Laid.{three};

use crate::taking::take_next;
use cyc_workers::Handlers;
use std::alloc::{AllocError, Global};

/// The handlers of each CPU, where the list has those of CPU after CPU: firing, lock, low. Its memory may be refused.
pub fn by_cpu<C: Drop>(
    alloc: Global,
    cpus: usize,
    calls: Vec<C>,
) -> Result<Vec<Handlers<C>>, AllocError>
    requires { length calls.items ≡ 3 * cpus }
    ensures laid { IfOk result (λ v. flat_map three v.items ≡ calls.items) }
    ensures len { IfOk result (λ v. length v.items ≡ cpus) }
{
    let mut all = Vec::with_capacity(alloc, cpus)?;
    let mut rest = calls.into_iter();
    for _ in 0..cpus {
        let high = take_next(&mut rest);
        let lock = take_next(&mut rest);
        let low = take_next(&mut rest);
        all.push_reserved(Handlers { high, lock, low });
    }
    Ok(all)
}

/// The list of all handlers: CPU after CPU, firing, lock, low. Its memory may be refused.
pub fn in_one<C: Drop>(alloc: Global, handlers: Vec<Handlers<C>>) -> Result<Vec<C>, AllocError>
    ensures { IfOk result (λ v. v.items ≡ flat_map three handlers.items) }
{
    let mut all = Vec::new(alloc);
    for of_cpu in handlers {
        let Handlers { high, lock, low } = of_cpu;
        all.push(high)?;
        all.push(lock)?;
        all.push(low)?;
    }
    Ok(all)
}
