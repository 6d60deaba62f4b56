//! The rules of names and of bodies over a whole typed list.
#![tactic(auto)]

mod attributes;
mod bodies;
mod declared;
mod functions;
mod hooks;
mod inside;
mod laws;
mod names;
mod part_names;
mod parts;
mod readings;
mod slots;
mod stmt_names;
mod told;
mod units;

pub use bodies::note_bodies;
pub use laws::least_of_broken;
pub use names::note_names;
