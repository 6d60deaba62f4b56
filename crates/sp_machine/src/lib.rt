//! The machine: it runs compiled code, step by step as the plain machine does.
#![tactic(auto)]

mod calls;
mod flow;
mod in_place;
mod inside;
mod library;
mod machine;
mod makes;
mod methods;
mod places;
mod reading;
mod rows;
mod steps;
mod tables;
mod telling;
mod units;
mod values;

pub use machine::{Machine, Mode, Stop};
