//! The grammar of the language as a table that a predictive parser follows: its terminals, its productions and its actions.
#![tactic(auto)]

mod actions;
mod language;
mod laws;
mod tables;
mod terminals;

pub use actions::{Action, action_name, action_of};
pub use language::{Language, Start, parse_kinds};
pub use laws::{grammar_is_unambiguous, numbers_are_apart, table_reads_the_grammar};
pub use tables::{ROWS, SPANS, SYMBOLS};
pub use terminals::Terminal;
