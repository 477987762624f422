//! The firing side of a system in threads.

use cyc_system::System;
use cyc_types::Raise;
use cyc_workers::Lead;

/// The firing side of a system in threads: the system, and by the numbers of its CPUs what leads each of them.
#[derive(Drop)]
pub struct SystemSide<R: Raise, C> {
    pub system: System<R>,
    pub leads: Vec<Lead<C>>,
}
