//! Values of a run: cheap to copy, since a copy shares what it holds, and changed in place where nothing is shared.
#![tactic(auto)]

mod bitfields;
mod change;
mod integers;
mod keyed;
mod keyed_pieces;
mod keys;
mod laws;
mod level;
mod list;
mod make;
mod maps;
mod order;
mod parts;
mod pieces;
mod read;
mod swap;
mod value;

pub use bitfields::read_bits;
pub use integers::{read_int, read_unsigned, signed_number};
pub use laws::{law_of_equality, law_of_keys, law_of_order};
pub use level::Level;
pub use list::{Values, copy_all};
pub use order::{compare, kind};
pub use parts::Parts;
pub use pieces::{Cursor, next_in};
pub use value::Value;
