//! The compiler's command: it reads the named files and what they import, checks them, and names the first fault.
#![tactic(auto)]

mod command;
mod exits;
mod files;
mod laws;
mod words;

pub use command::spicyc;
pub use laws::answer_is_one;
