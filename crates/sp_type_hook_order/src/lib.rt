//! The order in which hooks run: all of a list, and those of one field or of one hook of a unit.
#![tactic(auto)]

mod keys;
mod order;
mod table;

pub use keys::HookKey;
pub use order::run_order;
pub use table::HookTable;
