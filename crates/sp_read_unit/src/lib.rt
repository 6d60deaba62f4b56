//! Reading of a module from the tokens of its text.
#![tactic(auto)]

mod laws;
mod module;

pub use laws::module_is_one;
pub use module::read_module;
