//! The steps of a script.

use crate::name::Name;
use cyc_types::{Level, Moment, Soft};

/// Adds a cyclic (`cyclic_add`).
#[derive(Clone, Copy, Debug, PartialEq, Eq)]
pub struct Add {
    /// The name that the step introduces.
    pub name: Name,
    /// The level of its handler.
    pub level: Level,
    /// The start in nanoseconds; the step is refused where it is negative.
    pub start: i64,
    /// The interval in nanoseconds; the step is refused where it is below 1.
    pub interval: i64,
}

/// Adds an omnipresent cyclic, one component on each online CPU (`cyclic_add_omni`).
#[derive(Clone, Copy, Debug, PartialEq, Eq)]
pub struct Omni {
    /// The name that the step introduces.
    pub name: Name,
    /// The level of its handler.
    pub level: Level,
    /// The start of CPU 0's component in nanoseconds; the step is refused where it is negative.
    pub start: i64,
    /// The interval in nanoseconds; the step is refused where it is below 1.
    pub interval: i64,
    /// By how much each CPU's component starts after the one before it.
    pub skew: Moment,
}

/// Binds a cyclic to a CPU (`cyclic_bind`).
#[derive(Clone, Copy, Debug, PartialEq, Eq)]
pub struct Bind {
    /// The cyclic's name.
    pub name: Name,
    /// The number of the CPU.
    pub cpu: u32,
}

/// Sets the next expiration of a cyclic (`cyclic_reprogram`).
#[derive(Clone, Copy, Debug, PartialEq, Eq)]
pub struct Reprogram {
    /// The cyclic's name.
    pub name: Name,
    /// The moment in nanoseconds; the step is refused where it is negative.
    pub moment: i64,
    /// The CPU whose component is meant, where the cyclic is omnipresent.
    pub cpu: Option<u32>,
}

/// Runs the soft interrupt of one level on one CPU (`cyclic_softint`).
#[derive(Clone, Copy, Debug, PartialEq, Eq)]
pub struct Softint {
    /// The number of the CPU.
    pub cpu: u32,
    /// The level.
    pub level: Soft,
    /// The most calls that it makes.
    pub budget: u32,
}

/// One step of a script.
#[derive(Clone, Copy, Debug, PartialEq, Eq)]
pub enum Step {
    /// Adds a cyclic.
    Add(Add),
    /// Adds an omnipresent cyclic.
    Omni(Omni),
    /// Binds a cyclic to a CPU.
    Bind(Bind),
    /// Takes a cyclic's binding away.
    Unbind(Name),
    /// Sets the next expiration of a cyclic.
    Reprogram(Reprogram),
    /// Begins the removal of a cyclic (`cyclic_remove`).
    Remove(Name),
    /// Sets the clock to this moment in nanoseconds, below never, and fires every online CPU (`cyclic_fire`). While the system is
    /// suspended it sets the clock alone, and is refused.
    Advance(u64),
    /// Runs a soft interrupt.
    Softint(Softint),
    /// Moves the cyclics of this CPU to others (`cyclic_juggle`).
    Juggle(u32),
    /// Takes this CPU offline (`cyclic_offline`).
    Offline(u32),
    /// Brings this CPU online (`cyclic_online`).
    Online(u32),
    /// Suspends the system: no fire is made until it is resumed (`cyclic_suspend`).
    Suspend,
    /// Resumes the system (`cyclic_resume`).
    Resume,
}
