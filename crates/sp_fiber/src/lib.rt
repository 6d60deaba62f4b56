//! One run of compiled code over an input that comes in pieces: what each call tells is what the plain machine
//! tells over all bytes so far, and only the bytes that it may still look at are kept.
#![tactic(auto)]

mod fiber;
mod low;
mod phase;
mod running;
mod stand;

pub use fiber::Fiber;
pub use phase::Phase;
pub use stand::Stand;
