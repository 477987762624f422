//! What the drivers of the benchmark call: loops of calls over a level, a ring, the heap, a timer wheel, a CPU and a system.
#![tactic(auto)]

pub mod cpu;
pub mod heap;
pub mod level;
pub mod queue;
pub mod ring;
pub mod system;
