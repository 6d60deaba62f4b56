//! The lines of a run: the JSON of an event, and the report on the bytes of a flow. Events are written token by token, one alone (`line`)
//! or many into one buffer (`Lines`).
#![tactic(auto)]

mod buffer;
mod events;
mod lines;
mod order;
mod trees;
mod values;
mod walk;

pub use buffer::Lines;
pub use lines::{line, report};
