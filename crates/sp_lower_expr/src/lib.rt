//! The code of expressions, appended to a program as it grows.
#![tactic(auto)]

mod around;
mod changes;
mod leaves;
mod nodes;
mod one;
mod operands;
mod places;
mod rows;
mod two;
mod values;

pub use around::{Around, Places, sum};
pub use changes::{key, put, update};
pub use nodes::{expr, exprs, load, store};
pub use operands::{push_type, push_value};
pub use places::{slot_local, stands_on};
pub use rows::{Row, first_and_rest, row_of};
pub use two::as_bool;
pub use values::zero_value;
