//! The values of constant expressions.
#![tactic(auto)]

mod constants;
mod labels;
mod lack;
mod leaves;
mod measured;
mod operations;
mod outcome;
mod places;
mod rows;
mod values;

pub use constants::Constants;
pub use labels::{constant_value, first_label, label_of, label_value, next_label};
pub use measured::{MOST_LEVELS, MOST_PARTS, Measured};
pub use outcome::Outcome;
pub use places::index_of;
pub use values::value_of;
