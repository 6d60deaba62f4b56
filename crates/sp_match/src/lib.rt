//! Tokens against their languages: which member of a token set the bytes so far match.
#![tactic(auto)]

mod bits;
mod byte_classes;
mod classes;
mod compile;
mod empties;
mod index;
mod laws;
mod machine;
mod matcher;
mod rounds;
mod run;
mod sets;
mod spot;
mod table;
mod token_set;
mod verdict;
mod word_jumps;

pub use laws::{one_verdict, steady_verdict};
pub use matcher::Matcher;
pub use sp_regex::{ByteRange, Count, Regex, RegexFault, Shape, parse};
pub use token_set::{POSITIONS, SetFault, TokenSet};
pub use verdict::Verdict;
