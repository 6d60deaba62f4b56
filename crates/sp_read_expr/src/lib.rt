//! Types, statements and expressions from the tokens of a text.
#![tactic(auto)]

mod read;

pub use read::{read_expr, read_stmt, read_tree, read_type};
