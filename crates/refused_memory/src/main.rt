//! `refused_memory CALL`: makes one call that may ask for memory, and says what came of it. It is run with each request for
//! memory refused in turn (`tests/memory.sh`): the call answers Memory, has changed nothing that can be seen, and made again
//! it answers as it does with ample memory.
#![tactic(auto)]

mod cpus;
mod levels;
mod moves;
mod running;
mod scripts;
mod seen;
mod systems;

use crate::moves::Move;
use crate::seen::Seen;
use anyhow::{Result, bail};
use std::env;
use std::sync::Wait;
use std::thread::Threads;

/// What came of the call of this name. None where there is no such call.
fn made<R: AllocGlobal + Threads + Wait + Sync>(rt: &R, call: &str) -> Option<Seen> {
    let alloc = rt.alloc();
    match call {
        "Tally::new" => Some(levels::tally(alloc)),
        "LevelCore::new" => Some(levels::level(alloc)),
        "Ring::open" => Some(levels::ring(alloc)),
        "ExpiryHeap::new" => Some(levels::heap(alloc)),
        "ExpiryHeap::reserve" => Some(levels::heap_reserve(alloc)),
        "Hard::new" => Some(cpus::cpu(alloc)),
        "Hard::reserve" => Some(cpus::reserve(alloc)),
        "Hard::add" => Some(cpus::add(alloc)),
        "System::new" => Some(systems::new(alloc)),
        "System::add" => Some(systems::add(alloc)),
        "System::bind" => Some(systems::bind(alloc)),
        "System::add_omni" => Some(systems::add_omni(alloc)),
        "System::online" => Some(systems::online(alloc)),
        "command_of" => Some(scripts::command(alloc)),
        "read_input" => Some(scripts::input(alloc)),
        "read_script" => Some(scripts::reading(alloc)),
        "read_script::ceiling_behind" => Some(scripts::reading_of(alloc, scripts::CEILING_BEHIND)),
        "read_script::cpus_behind" => Some(scripts::reading_of(alloc, scripts::CPUS_BEHIND)),
        "read_script::null_last" => Some(scripts::reading_of(alloc, scripts::NULL_LAST)),
        "replay" => Some(scripts::replaying(alloc)),
        "run" => Some(running::running(rt, alloc)),
        "System::juggle_of_two" => Some(moves::juggle_of_two(alloc)),
        "System::juggle" => Some(moves::leaving(alloc, Move::Juggle)),
        "System::offline" => Some(moves::leaving(alloc, Move::Offline)),
        _ => None,
    }
}

fn main(rt: HostRuntime) -> Result<()> {
    let Some(call) = env::args(&rt)?.nth(1) else {
        bail!("which call?");
    };
    let Some(seen) = made(&rt, call.as_str()) else {
        bail!("there is no such call");
    };
    println!(rt; "{seen}")?;
    Ok(())
}
