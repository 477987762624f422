//! What the thread that leads a run has between two steps.

ghost use Rattle.std.specs.Prelude.{◌≡◌, replicate, IfOk};
ghost use Rattle.cyc_words.specs.declared.named.Named.TheVariants as named;
ghost use Rattle.cyc_system_laws.specs.Sound.{IsSound};

use cyc_system::System;
use cyc_system_workers::SystemSide;
use cyc_types::{Moment, Raise};
use cyc_words::Names;
use std::alloc::{AllocError, Global};

/// What the thread that leads a run has between two steps: the firing side of the system, the clock, and what each name has.
#[derive(Drop)]
pub struct Progress<R: Raise, C> {
    pub side: SystemSide<R, C>,
    pub clock: Moment,
    pub names: Names,
}

/// Before the first step of a script with so many names: the clock stands at 0, and no name has anything. Its memory may be
/// refused; the firing side is then dropped.
pub fn begin<R: Raise + Drop, C: Drop>(
    alloc: Global,
    side: SystemSide<R, C>,
    names: usize,
) -> Result<Progress<R, C>, AllocError>
    ensures side { IfOk result (λ p. p.side ≡ side) }
    ensures clock { IfOk result (λ p. p.clock ≡ 0) }
    ensures names { IfOk result (λ p. p.names ≡ replicate names named.Nothing) }
{
    let names = Names::new(alloc, names)?;
    Ok(Progress {
        side,
        clock: Moment::ZERO,
        names,
    })
}

/// What is true of every system. It does nothing when it runs.
pub(crate) fn sound<R: Raise>(system: &System<R>)
    ensures { IsSound R.view system.now }
{
    system.law();
    system.fit_law();
}
