//! The operators on integers of run-time values, as functions on whole numbers with the range of the result's type.
#![tactic(auto)]

mod bit_ranges;
mod cast;
mod operators;
mod signed;
mod unsigned;
mod width;

pub use bit_ranges::bits;
pub use cast::{signed_to_signed, signed_to_unsigned, unsigned_to_signed, unsigned_to_unsigned};
pub use operators::{Arithmetic, BitOperator, Shift};
pub use signed::{negate_signed, signed_arithmetic};
pub use unsigned::{bitwise, complement, shift, unsigned_arithmetic};
pub use width::Width;
