//! What is asked of the names of a list of modules: the types of its type declarations, through all aliases, and the rules on
//! names.
#![tactic(auto)]

mod aliases;
mod faults;
mod laws;
mod mentions;

pub use aliases::resolve_types;
pub use faults::note_faults;
pub use laws::none_is_endless;
