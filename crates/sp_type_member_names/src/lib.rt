//! What a unit knows of its fields, and which of its names come twice.
#![tactic(auto)]

mod naming;
mod near;
mod places;
mod seen;
mod stored;
mod unit;
mod walk;

pub use naming::Naming;
pub use places::Places;
pub use unit::UnitNames;
pub use walk::taken_places;
