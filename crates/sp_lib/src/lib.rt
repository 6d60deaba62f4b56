//! The methods of the language's library, a call for each. Arguments that a module leaves out are written out by the caller: the
//! base is 10, the charset UTF-8, and the strategy puts U+FFFD in place of a byte with which no character begins.
#![tactic(auto)]

mod fault;
mod groups;
mod letters;
mod members;
mod numerals;
mod orders;
mod separated;
mod slices;
mod texts;

pub use groups::{Decoded, base64_group};
pub use letters::{lower, upper};
pub use members::{back, front, get, pop_back, push_back};
pub use numerals::{to_int, to_uint};
pub use orders::{to_int_order, to_uint_order};
pub use separated::{split, split1};
pub use slices::{starts_with, sub};
pub use texts::{decode, encode};
