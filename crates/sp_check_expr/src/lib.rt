//! The rules of bodies over a list of modules whose names are resolved.
#![tactic(auto)]

mod bodies;

pub use bodies::{Bodies, check_bodies};
