//! The compiler: the program of a typed list.
#![tactic(auto)]

mod bodies;
mod functions;
mod hooks;
mod programs;
mod starters;
mod units;
mod values;

pub use programs::lower;
