// What is answered of what is declared with a value.
use sp_type_constants::Measured;
use sp_types::Type;

/// The type and the value of a constant, or of a label.
#[derive(Drop)]
pub struct Answer {
    pub ty: Type,
    pub value: Measured,
}
