//! What the code of units looks up: the bodies of the hooks that each unit has, and the byte orders of modules.
#![tactic(auto)]

mod keys;
mod orders;
mod rows;
mod tables;

pub use tables::UnitTables;
