//! The types and values of the constants of a list of modules, and the numbers of its labels, in any order.
#![tactic(auto)]

mod answer;
mod known;
mod laws;
mod library;
mod needs;
mod row;
mod system;
mod tell;
mod typed_enums;
mod typed_rows;
mod valued;
mod worth;

pub use answer::Answer;
pub use known::Known;
pub use laws::numbers_are_places;
pub use row::ValueRow;
pub use system::answers;
pub use valued::Valued;
