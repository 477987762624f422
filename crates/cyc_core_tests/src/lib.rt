//! Tests of what no clause of `cyc_types`, `cyc_heap`, `cyc_core` and `cyc_soft` says: worked moments and rows, the texts of
//! refusals, that each call can succeed, that the indexes of the heap are those which the array heap gave, and what a soft
//! interrupt runs at, stops at and goes on with.
#![tactic(auto)]

#[cfg(test)]
mod array;
#[cfg(test)]
mod beside;
#[cfg(test)]
mod events;
#[cfg(test)]
mod handlers;
#[cfg(test)]
mod heap_runs;
#[cfg(test)]
mod level;
#[cfg(test)]
mod moments;
#[cfg(test)]
mod rows;
#[cfg(test)]
mod runs;
#[cfg(test)]
mod sides;
#[cfg(test)]
mod tally;
#[cfg(test)]
mod texts;
#[cfg(test)]
mod values;
