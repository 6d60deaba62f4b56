//! The trees of texts, built at the actions that their derivations pass.
#![tactic(auto)]

mod builder;
mod finding;
mod laws;
mod rules;
mod stack;
mod steps;
mod tokens;

pub use builder::Builder;
pub use laws::{every_phrase_is_built, tree_is_one};
