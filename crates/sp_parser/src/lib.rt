//! A predictive parser over a table of productions, proved for every table whose certificate passes the test.
#![tactic(auto)]

mod engine;
mod entry;
mod outcome;
mod sink;
mod symbol;
mod table;
mod tokens;

pub use engine::{Grammar, parse};
pub use entry::parse_from;
pub use outcome::Outcome;
pub use sink::Sink;
pub use symbol::{ActionAt, CLOSE, END, GREATER, SECOND, SHIFT, Symbol};
pub use table::{Row, Span, choose_in};
pub use tokens::Kinds;
