//! Functions and hooks: what their heads say, what their bodies see, and what these are.
#![tactic(auto)]

mod events;
mod functions;
mod hooks;
mod ranks;
mod site;

pub use events::fits;
pub use functions::{function_of, no_function};
pub use hooks::{hook_behind, hook_on};
pub use ranks::Ranks;
pub use site::Site;
