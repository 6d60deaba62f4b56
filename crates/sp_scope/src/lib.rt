//! Names and types over a list of modules: what each name means and what type each part has, or the least rule on names that is
//! broken.
#![tactic(auto)]

mod kept_values;
mod resolving;
mod scopes;

pub use resolving::{resolve, type_list};
pub use scopes::Scopes;
