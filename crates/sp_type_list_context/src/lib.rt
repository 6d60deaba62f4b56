//! What stands round the expressions of the modules and the units of a list.
#![tactic(auto)]

mod modules;
mod units;

pub use modules::in_modules;
pub use units::{
    all_parameters, declared, homes, in_units, parameter_tables, seeing_parameters, unit_types,
};
