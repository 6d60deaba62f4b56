//! The hooks of the typed list: what `$$` is in each, and what they are.
#![tactic(auto)]

mod contexts;
mod field;
mod hooks;
mod marks;
mod ranks;
mod row;
mod table;

pub use field::FieldType;
pub use hooks::{hook_of, typed_hooks};
pub use ranks::ranks_of;
pub use table::FieldTypes;
