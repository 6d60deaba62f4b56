//! Answers of declarations that depend on one another by name: each waits for the first of those that it names that has no
//! answer.
#![tactic(auto)]

mod dependent;
mod laws;
mod search;

pub use dependent::Dependent;
pub use laws::none_is_endless;
pub use search::answers_of;
