//! Reading of types, statements and expressions from tokens: the longest run that begins a text, and the refusal of what
//! is none.
#![tactic(auto)]

mod laws;
mod numbered;
mod read;
mod refusals;
mod terminals;

pub use laws::{derivation_is_one, longest_run_is_one, no_production_has_other_words};
pub use read::read_from;
pub use refusals::unexpected;
pub use terminals::terminal_of;
