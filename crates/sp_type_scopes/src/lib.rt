//! What stands round the expressions of functions, units and hooks: parameters, `self` and `$$`, over what stands round them.
#![tactic(auto)]

mod current;
mod itself;
mod numbers;
mod parameters;

pub use current::WithCurrent;
pub use itself::WithSelf;
pub use parameters::{Parameters, WithParameters, parameters_in};
