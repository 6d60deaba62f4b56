//! What the tokens that carry something are worth: names, numbers, texts, bytes and regular expressions.
#![tactic(auto)]

mod decoding;
mod values;

pub use values::{bytes_value, name_text, number_value, regex_text, string_value, token_bytes};
