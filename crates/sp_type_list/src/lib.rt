//! The typed list of a list of modules, where its names, constants, labels and members are answered.
#![tactic(auto)]

mod typed;

pub use typed::typed_list;
