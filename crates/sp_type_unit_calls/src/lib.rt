//! Whether a unit calls one of the methods of units: in its variables, its parts or its hooks.
#![tactic(auto)]

mod exprs;
mod hooks;
mod parts;
mod stmts;

pub use hooks::HookCalls;
pub use parts::{parts_call, variables_call};
