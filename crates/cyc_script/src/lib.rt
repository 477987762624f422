//! Scripts of the cyclic subsystem, read from JSON.
#![tactic(auto)]

mod cause;
mod context;
mod name;
mod names;
mod number;
mod object;
mod parameters;
mod part;
mod pass;
mod reader;
mod script;
mod step;
mod stop;
mod tokens;
mod words;

pub use name::Name;
pub use reader::read_script;
pub use script::Script;
pub use step::{Add, Bind, Omni, Reprogram, Softint, Step};
