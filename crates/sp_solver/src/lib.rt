//! Answers to questions that hang on each other, in any order and through cycles: types of aliases, values of constants.
#![tactic(auto)]

mod attempt;
mod laws;
mod search;

pub use attempt::{Attempt, Questions};
pub use laws::{no_round_answers, settled_is_one};
pub use search::answers;
