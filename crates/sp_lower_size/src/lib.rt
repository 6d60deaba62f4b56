//! How many instructions expressions, places and statements have, so that a jump past them can be written before their code.
#![tactic(auto)]

mod changes;
mod forms;
mod nodes;
mod plain;
mod stmts;

pub use nodes::{expr_size, exprs_size};
pub use plain::values_size;
pub use stmts::{branches_size, cases_size, stmt_size, stmts_size};
