//! The expirations of one CPU's cyclics, few in a heap and more in a tournament: the least expiration is at hand, and each is
//! found by its cyclic's index.
#![tactic(auto)]

mod between;
mod changes;
mod entry;
mod few;
mod games;
mod heap;

pub use heap::ExpiryHeap;
