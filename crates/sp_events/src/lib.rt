//! The events that a run tells, and the values in them.
#![tactic(auto)]

mod copies;
mod event;
mod parting;
mod tree;
mod trees;

pub use event::{Event, Events, Path, What};
pub use tree::{Node, Tree};
pub use trees::Trees;
