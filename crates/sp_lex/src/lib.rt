//! The tokens of a module's text.
#![tactic(auto)]

mod elements;
mod faults;
mod kinds;
mod laws;
mod lexer;
mod literals;
mod nesting;
mod numbers;
mod runs;
mod scanner;
mod signs;
mod tables;
mod tokens;

pub use faults::between;
pub use kinds::{Absent, TokenKind};
pub use laws::{
    faultless_texts_have_tokens, kinds_are_listed_once, names_are_not_reserved,
    numbers_are_longest, only_blanks_stand_between, words_are_longest,
};
pub use lexer::lex;
pub use literals::byte_at;
pub use numbers::number_of;
pub use tokens::{ReadFault, Token, Tokens};
