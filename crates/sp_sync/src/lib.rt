//! Search: the least place of a view at which a token of a set begins.
#![tactic(auto)]

mod attempt;
mod found;
mod laws;
mod outcome;
mod search;

pub use found::Found;
pub use laws::{one_place, steady_place, told_more};
pub use search::Search;
