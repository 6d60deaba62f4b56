//! The canonical text of a module.
#![tactic(auto)]

mod layouts;
mod own;
mod parentheses;
mod print;
mod tables;
mod writer;

pub use print::print_module;
