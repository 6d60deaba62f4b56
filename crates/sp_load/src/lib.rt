//! Loading: the named files and what they import, read and checked.
#![tactic(auto)]

mod laws;
mod loaded;
mod loading;
mod sources;

pub use laws::load_is_one;
pub use loaded::Loaded;
pub use loading::load;
pub use sources::{Source, refusal_of};
