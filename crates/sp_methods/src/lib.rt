//! The methods of the language's library: what each makes of its operands, and of which kinds these are. Which there are, and how
//! many operands each takes, `sp_words` says.
#![tactic(auto)]

mod laws;

pub use laws::{law_of_characters, law_of_kinds, law_of_parts};
