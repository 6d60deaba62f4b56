//! The rules over a list of modules that were read: their numbers, the groups in which they are asked, and the least of
//! those that are broken.
#![tactic(auto)]

mod fault;
mod laws;
mod rule;

pub use fault::{Fault, note, note_at, note_if};
pub use laws::{least_of_checked, least_of_groups, least_of_noted};
pub use rule::{Rule, RuleGroup};
