//! The code of statements and bodies, appended to a program as it grows.
#![tactic(auto)]

mod bodies;
mod loops;
mod nodes;
mod plain;
mod values;
mod ways;

pub use bodies::{Frame, body, routine};
pub use nodes::stmt;
pub use ways::Ways;
