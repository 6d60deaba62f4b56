//! What is typed of a list of modules under what is answered of it, which rules it breaks, and what a check of it refuses. Its answers
//! are one.
#![tactic(auto)]

mod fault;
mod laws;

pub use fault::CheckFault;
pub use laws::answers_are_one;
