//! Types of the checked language: their parts are shared, so that a copy costs nothing, and bounded, so that whatever walks
//! over one stays short.
#![tactic(auto)]

mod compare;
mod integers;
mod laws;
mod types;
mod words;

pub use integers::int_word;
pub use laws::same_is_equal;
pub use types::{Level, MOST_WRITTEN, Type};
pub use words::{Maker, Word, wider};
