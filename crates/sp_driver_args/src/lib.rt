//! The command line of `spicy-driver`: `[-p UNIT] [-i N] [-L DIRS] [--report] [--trace] [--max-turns N] [--max-input N] FILES`.
#![tactic(auto)]

mod numbers;
mod options;
mod words;

pub use words::{Wanted, words_wanted};
