//! Which of several refusals ends a run.

ghost use Rattle.std.specs.Prelude.{◌≡◌, ◌++◌};
ghost use Rattle.cyc_thread_rings.specs.Refusing.{of_fire, of_level, refusals_from, first_in};

use crate::levels::Levels;
use cyc_soft::SoftRefused;
use cyc_types::Refusal;
use cyc_workers::Drained;

/// A fire that was refused.
#[derive(Clone, Copy, Drop)]
pub struct Fire {
    pub cpu: usize,
    pub why: Refusal,
}

/// The refusal of a fire of this CPU.
fn fire_refusal(cpu: usize, fire: &Option<Fire>) -> Option<Refusal>
    ensures { result ≡ first_in (of_fire cpu fire.now) }
{
    match fire {
        Some(refused) => {
            if refused.cpu == cpu {
                Some(refused.why)
            } else {
                None
            }
        }
        None => None,
    }
}

/// The refusal of a soft level.
fn level_refusal(refused: Option<SoftRefused>) -> Option<Refusal>
    ensures { result ≡ first_in (of_level refused) }
{
    match refused {
        Some(refused) => Some(Refusal::HandlerRefused(refused.id)),
        None => None,
    }
}

/// The refusal of a CPU's workers that counts first.
fn cpu_refusal<D, C>(
    cpu: usize,
    fire: &Option<Fire>,
    drained: &Levels<Drained<D, C>>,
) -> Option<Refusal>
    ensures { result ≡ first_in (of_fire cpu fire.now
        ++ (of_level drained.now.lock.refused ++ of_level drained.now.low.refused)) }
{
    if let Some(why) = fire_refusal(cpu, fire) {
        return Some(why);
    }
    if let Some(why) = level_refusal(drained.lock.refused) {
        return Some(why);
    }
    level_refusal(drained.low.refused)
}

/// Of several workers that refused, the refusal of the one of the smallest CPU, and on it firing before lock before low (our own
/// rule).
pub fn first_refusal<D, C>(
    fire: &Option<Fire>,
    drained: &[Levels<Drained<D, C>>],
) -> Option<Refusal>
    ensures { result ≡ first_in (refusals_from 0 fire.now drained.now) }
{
    for cpu in 0..drained.len() {
        if let Some(why) = cpu_refusal(cpu, fire, &drained[cpu]) {
            return Some(why);
        }
    }
    None
}
