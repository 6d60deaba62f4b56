//! Locals, slots and plain statements of a body: what is seen, and in which slots values are kept.
#![tactic(auto)]

mod body;
mod context;
mod locals;
mod owners;
mod scope;
mod simple;
mod values;

pub use body::Body;
pub use context::WithLocals;
pub use locals::Locals;
pub use owners::{keep_owner, keep_owners, owner};
pub use scope::Scope;
pub use simple::{
    add_in, assign_in, bare_at, delete_in, element_type, local_in, loop_head, return_in, text_in,
    valued_in, written_of, written_type,
};
pub use values::{value_in, values_in};
