//! Programs as they grow: kinds by their numbers, constants, and instructions with the shapes before them.
#![tactic(auto)]

mod emission;
mod emitter;
mod here;
mod kinds;
mod operands;
mod stacks;
mod types;
mod walk;

pub use emission::Emission;
pub use emitter::Emitter;
pub use kinds::{KindTable, number};
pub use types::range_count;
pub use walk::{Task, behind, push_parts};
