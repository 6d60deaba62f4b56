//! The types of expressions: the typed expression that a tree is in what stands round it.
#![tactic(auto)]

mod calls;
mod nodes;
mod rows;
mod typing;

pub use nodes::to_target;
pub use rows::to_maybe;
pub use typing::{typed, typed_all};
