//! The code of units of integers, appended to a program as it grows.
#![tactic(auto)]

mod fields;
mod hooks;
mod integers;
mod members;
mod orders;
mod parts;
mod slots;
mod starters;
mod units;
mod variables;

pub use integers::integer_field;
pub use orders::last_order;
pub use slots::zero_slots;
pub use starters::starter;
pub use units::{ending, failing, unit};
