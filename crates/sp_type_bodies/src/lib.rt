//! The typed statement that a tree is, and the typed body that a block is, with the types of all its slots.
#![tactic(auto)]

mod others;
mod stmts;

pub use stmts::{typed_body, typed_stmt};
