//! The machine that runs a script: a clock, a system of CPUs, and the tally that counts the handlers' calls.

ghost use Rattle.std.specs.Prelude.{◌≡◌, ◌-◌, ◌+◌, ◌<◌, slice_set};
ghost use Rattle.cyc_replay.specs.Machine.{id_of_named, name_at};

use cyc_core::LevelCore;
use cyc_system::System;
use cyc_types::{CyclicId, Moment, Tally};
use cyc_words::{Named, Names};

/// The machine between two steps.
#[derive(Drop)]
pub struct Machine {
    pub clock: Moment,
    pub system: System<LevelCore>,
    /// The calls of each id's handler.
    pub tally: Tally,
    /// What each name has.
    pub names: Names,
    /// The number of the name that each id was given to: that of the id 1 stands first.
    pub named: Vec<usize>,
}

/// The id that a name has, or had until its removal answered. None where no add of it was accepted.
pub fn id_in(named: Named) -> Option<CyclicId>
    ensures { result ≡ id_of_named named }
{
    match named {
        Named::Nothing => None,
        Named::Cyclic(id) => Some(id),
        Named::Leaving(id) => Some(id),
        Named::Removed(receipt) => Some(receipt.id),
    }
}

/// The number of the name that an id was given to.
pub fn name_of(named: &[usize], id: CyclicId) -> usize
    ensures { result ≡ name_at named.now id }
{
    let position = id.number() - 1;
    if position < named.len() as u64 {
        named[position as usize]
    } else {
        0
    }
}

/// The id was given to this name.
pub fn set_name(named: &mut Vec<usize>, id: CyclicId, name: usize)
    ensures { named.new.items ≡ slice_set named.old.items (id - 1) name }
{
    let position = id.number() - 1;
    if position < named.len() as u64 {
        named[position as usize] = name;
    }
}
