// Which operators on two integers there are.

/// An operator on two integers of one signedness.
#[derive(Clone, Copy, PartialEq, Eq)]
pub enum Arithmetic {
    /// `+`
    Add,
    /// `-`
    Subtract,
    /// `*`
    Multiply,
    /// `/`, toward zero
    Divide,
    /// `%`, with the dividend's sign
    Remainder,
}

/// An operator on the bits of two unsigned integers.
#[derive(Clone, Copy, PartialEq, Eq)]
pub enum BitOperator {
    /// `&`
    And,
    /// `|`
    Or,
    /// `^`
    Xor,
}

/// Which way the bits of an unsigned integer move.
#[derive(Clone, Copy, PartialEq, Eq)]
pub enum Shift {
    /// `<<`, toward the most significant bit
    Left,
    /// `>>`, toward the least significant bit
    Right,
}
