//! A made input for the driver: many records, each a length byte and so many bytes, in pieces from any place.
#![tactic(auto)]

mod line;
mod pieces;

pub use line::gen_line;
pub use pieces::gen_piece;
