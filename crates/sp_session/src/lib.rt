//! A unit of a list of modules, which the list's program runs over an input that comes in pieces: each call tells what the unit's
//! meaning of the bytes so far has and it had not told.
#![tactic(auto)]

mod ending;
mod laws;
mod session;
mod starter;
mod telling;

pub use laws::{example_runs, units_are_decided, units_are_settled, units_are_steady};
pub use session::Session;
pub use sp_meaning::Stand;
