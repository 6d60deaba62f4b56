//! The driver: loads a list of modules, runs a unit of it over an input in pieces, and writes the lines that it tells.
#![tactic(auto)]

mod compile;
mod driver;
mod exits;
mod laws;
mod loaded_lists;
mod loading;
mod options;
mod pieces;
mod run;
mod texts;

pub use driver::spicy_driver;
pub use laws::answer_is_one;
