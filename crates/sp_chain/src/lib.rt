//! Many doubly linked lists in one arena, linked by index.
#![tactic(auto)]

mod links;
mod lists;
mod nodes;

pub use lists::{Chains, ListId, Slot};
