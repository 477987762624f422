//! Tests of what no clause of `cyc_ring` says: worked rings call by call, that each call can succeed, ends that stop and go on
//! in another thread, and two threads on one ring. The program `soak_ring` has the long runs.
#![tactic(auto)]

#[cfg(test)]
mod banks;
#[cfg(test)]
mod elsewhere;
#[cfg(test)]
mod handlers;
#[cfg(test)]
mod handover;
#[cfg(test)]
mod help;
#[cfg(test)]
mod play;
#[cfg(test)]
mod rows;
#[cfg(test)]
mod threads;
