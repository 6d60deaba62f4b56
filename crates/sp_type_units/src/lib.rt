//! A unit of the typed list: its members, variables, sinks and parts, with all names looked up and all expressions typed.
#![tactic(auto)]

mod calls;
mod fields;
mod items;
mod known;
mod members;
mod named;
mod tell;
mod unit;

pub use calls::UnitCalls;
pub use known::UnitRows;
