//! The vocabulary of the language: the words, punctuation, operators and methods of which tokens, the grammar, trees and values
//! speak, each once.
#![tactic(auto)]

mod keywords;
mod methods;
mod operators;
mod punctuation;
mod words;

pub use keywords::Keyword;
pub use methods::Method;
pub use operators::{AssignOp, BinaryOp, UnaryOp};
pub use punctuation::Punctuation;
pub use words::{AttributeName, HookName, IntWord, Property};
