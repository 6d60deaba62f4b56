//! Regular expressions of bytes: their syntax, read from a text.
#![tactic(auto)]

mod bounds;
mod bytes;
mod class;
mod escape;
mod level;
mod reader;
mod shape;
mod text;
mod tree;

pub use bytes::ByteRange;
pub use shape::Shape;
pub use text::{RegexFault, parse};
pub use tree::{Count, Regex};
