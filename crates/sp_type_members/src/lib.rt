//! The types of what is stored in the members of units, which hang on each other, and which names of a unit come twice.
#![tactic(auto)]

mod answers;
mod endless;
mod fields;
mod laws;
mod members;
mod opens;
mod rows;
mod tables;

pub use answers::stored_types;
pub use endless::endless_place;
pub use fields::source_try;
pub use laws::{none_is_passed_over, tries_are_fair};
pub use members::WithMembers;
pub use rows::MemberRows;
