//! The law of why the steps of a script are refused in threads. The functions here do nothing when they run. Their clauses are
//! the laws, so that they are proved.
#![tactic(auto)]

mod reasons;

pub use reasons::reasons_law;
