//! What a program in C may ask of a proved CPU, over any handle that owns one: the calls with their arguments as numbers.
//!
//! No proved code calls C: a handler is called by the caller, between a call that names its cyclic and one that counts the call.
//! cyclic_c gives each of these calls to C.
#![tactic(auto)]

pub mod asking;
pub mod calling;
pub mod cpu;
pub mod granted;
pub mod held;
pub mod numbers;
pub mod opening;
pub mod pair;
pub mod parts;
pub mod soft_side;
