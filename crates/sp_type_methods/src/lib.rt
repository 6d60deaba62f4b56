//! The methods of values by their types: which there are, what they take and give, and what stands for arguments that are left out.
#![tactic(auto)]

mod methods;

pub use methods::{fill_method, method_of, method_takes, sink_method_takes, unit_method_takes};
