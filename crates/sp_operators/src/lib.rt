//! The operators of the language on values of a run.
#![tactic(auto)]

mod casts;
mod contains;
mod fault;
mod integers;
mod one_value;
mod operands;
mod plain_type;
mod sizes;
mod two_values;

pub use casts::cast;
pub use fault::ValueFault;
pub use one_value::unary;
pub use operands::{has_size, is_cast, takes, takes_one};
pub use plain_type::PlainType;
pub use sizes::size;
pub use two_values::{add, binary};
