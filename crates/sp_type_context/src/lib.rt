//! What stands round an expression, and by definition the typed expression that a tree is there.
#![tactic(auto)]

mod calls;
mod context;
mod names;
mod nodes;
mod places;

pub use calls::Callee;
pub use context::{Callable, Context, Member};
pub use names::{path_of, single_name};
pub use nodes::leaf_at;
pub use places::{Place, parameter_place, standing, suits};
