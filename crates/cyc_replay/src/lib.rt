//! The replay of a script over a system of 1 to 16 CPUs.
//!
//! Its machine is a system over plain levels, a clock, what each name has, and a tally that counts the handlers' calls. The
//! definitions here say when the definition's machine (`cyc_model`) shows it, and what it is that a word of a script was taken;
//! the laws of `cyc_system_model` say what the calls of the system are in that definition. Each word but `advance` and `softint`
//! makes its call in `cyc_words`. The contract of a step says that its line, and the machine after it, are those of the
//! definition.
//!
//! `run_script` is `begin`, `put_steps` and `put_reports`, one after another: the contract of each names the machine, so what
//! stands of the text, and what stands of the machine's levels, is said of one and the same run. It gives back the machine that
//! the run left. `replay` lets that go, and its contract is of the text and the sink alone.
//!
//! What holds of every run of a script, and so of that to which `run_script` ties its machine, are laws of `cyc_model`. Their
//! runs are over any indexes of the cyclics, and so over those that it names:
//!
//! - each event is enabled when it happens, and each level lawful and conserved all along: `events_are_enabled`
//! - of each name the report's expirations are its calls, its losses and its pending calls, and the calls are those of its
//!   handler: `reports_add_up`
//! - the line of a removal gives all calls that were ever made of the cyclic: `removals_tell_calls`
//! - no call follows the answer of a removal: `nothing_follows_removal`
//! - from a suspend to the next resume nothing expires: `nothing_expires_suspended`
//! - a step that moves cyclics loses no cyclic, no call and no count: `moves_lose_nothing`
//! - the text is the same whatever indexes the cyclics get: `text_tells_no_index`
#![tactic(auto)]

mod advancing;
mod beginning;
mod interrupting;
mod laws;
mod lines;
mod machine;
mod report;
mod script;
mod words;

pub use beginning::begin;
pub use laws::runs_are_sound;
pub use report::put_reports;
pub use script::{put_steps, replay, run_script};
