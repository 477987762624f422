//! Tests of what no clause of `cyc_cpu` says: worked rows of one CPU, that each call can succeed, one CPU over two rings, its
//! removals, and a cyclic that moves between CPUs over different ends.
#![tactic(auto)]

#[cfg(test)]
mod ends_moving;
#[cfg(test)]
mod firing;
#[cfg(test)]
mod help;
#[cfg(test)]
mod moving;
#[cfg(test)]
mod over_a_ring;
#[cfg(test)]
mod removed;
#[cfg(test)]
mod removing;
#[cfg(test)]
mod ring_removing;
#[cfg(test)]
mod rings;
#[cfg(test)]
mod room;
#[cfg(test)]
mod softs;
#[cfg(test)]
mod steps;
#[cfg(test)]
mod suspended;
