//! What operators take and give, what type literals take, and which rows and tuples of expressions are whole and of what type.
#![tactic(auto)]

mod literals;
mod operators;
mod wholes;

pub use literals::{
    is_negative, is_over, is_past, literal_word, number_of, past_signed, seen, taken,
};
pub use operators::{
    OperatorSort, can_cast, first_type, has_size, is_boolean, is_bytes, is_enum, is_integer,
    is_signed, is_text, is_unsigned, is_valueless, key_of, second_type, sort_of, stands_alone,
    unary_type,
};
pub use wholes::{made_of_one, made_of_two, map_type, row_type, tuple_type};
