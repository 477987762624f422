//! Tests of what no clause of `cyc_system` says: worked rows of several CPUs, that each call can succeed, and a cyclic that moves
//! between two CPUs over rings; and each caller of `uses` once, with an answer that is no refusal.
#![tactic(auto)]

#[cfg(test)]
mod ends;
#[cfg(test)]
mod everywhere;
#[cfg(test)]
mod help;
#[cfg(test)]
mod levels;
#[cfg(test)]
mod moves;
#[cfg(test)]
mod ring;
#[cfg(test)]
mod rings;
#[cfg(test)]
mod rows;
#[cfg(test)]
mod steps;
#[cfg(test)]
mod system;
#[cfg(test)]
mod tick;
