//! Tests of what no clause of `cyc_input`, `cyc_text` and `cyc_script` says: what a turn of reading is, which reads and writes
//! fail, that one which is interrupted for ever is given up, that a script is read where memory is ample, and that the definition
//! refuses what it is meant to refuse.
#![tactic(auto)]

#[cfg(test)]
mod inputs;
#[cfg(test)]
mod limits;
#[cfg(test)]
mod refusals;
#[cfg(test)]
mod scripts;
#[cfg(test)]
mod values;
#[cfg(test)]
mod writers;
