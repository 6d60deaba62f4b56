//! Checking: a list of modules in which no rule is broken, or the least rule that is.
#![tactic(auto)]

mod checked;
mod checking;
mod limits;

pub use checked::Checked;
pub use checking::check;
