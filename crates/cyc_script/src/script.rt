//! A script that was read.

ghost use Rattle.std.specs.Prelude.{◌≤◌, length, map, string_bytes};
ghost use Rattle.cyc_types.specs.Limits.{most_cpus};
ghost use Rattle.cyc_script.specs.Names.{AreNames};
ghost use Rattle.cyc_script.specs.WellFormed.{IsWellFormed};

use crate::step::Step;
use cyc_types::Ceiling;

/// A script that was read: what to run, with each name resolved to its number (our own format). What holds of every
/// script that is read is a fact of the type, so it holds of one that is made by hand too.
#[derive(Debug, Drop)]
pub struct Script {
    /// The CPUs, 1 to 16.
    pub cpus: u32,
    /// The greatest pend of a cyclic.
    pub ceiling: Ceiling,
    /// The names, in the order in which the steps introduce them. Each has 1 to 32 bytes, no two are equal.
    pub names: Vec<String>,
    /// The steps, at most 65,536. A name is introduced before it is used, and the moments of `Advance` don't fall.
    pub steps: Vec<Step>,
    pub ghost cpus_in_range: { (1 ≤ cpus) × (cpus ≤ most_cpus) },
    pub ghost names_distinct: { AreNames (map string_bytes names.items) },
    pub ghost well_formed: { IsWellFormed steps.items (length names.items) },
}
