//! The bytes of an input that are still needed: one vector with a base. What is cut off at the
//! front stays in the vector until it is more than half of it, so that each byte is moved down a
//! bounded number of times in all.
#![tactic(auto)]

mod view;
mod window;

pub use view::View;
pub use window::Window;
