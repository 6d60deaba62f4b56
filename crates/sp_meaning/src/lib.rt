//! What a unit means: the events, the stand and the retention points of its reading of some bytes.
#![tactic(auto)]

mod stand;

pub use stand::{Stand, copy_of};
