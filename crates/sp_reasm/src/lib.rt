//! A sink puts data that come out of order together: its meaning, what holds of it, and the calls.
#![tactic(auto)]

mod fill;
mod laws;
mod note_list;
mod notes;
mod overlay;
mod pending;
mod piece;
mod piece_list;
mod sink;

pub use laws::{
    delivered_once, head_has_no_owner, head_never_falls, nothing_below_the_head, owner_is_kept,
    runs_are_maximal, skips_no_hole,
};
pub use note_list::Notes;
pub use notes::{Note, ReasmFault};
pub use sink::Reasm;
