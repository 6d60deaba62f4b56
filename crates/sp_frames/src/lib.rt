//! What the machine keeps of a run: operands, open frames, and instances of units.
#![tactic(auto)]

mod frame;
mod instance;
mod operands;
mod spare;
mod stack;

pub use frame::{Callee, Frame};
pub use instance::Instance;
pub use operands::Operands;
pub use spare::Spare;
pub use stack::Stack;
