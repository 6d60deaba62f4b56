//! What the compiler doesn't build yet: the first construct of a list of modules that is written and isn't built.
#![tactic(auto)]

mod constructs;
mod fields;
mod first;
mod hooks;
mod kinds;
mod laws;
mod next;
mod trees;
mod whole;

pub use laws::first_of_unbuilt;
pub use whole::{Texts, unbuilt};
