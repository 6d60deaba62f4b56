// Where an expression or a reading stands.

/// What a rule asks of the place of an expression or a reading.
#[derive(Clone, Copy)]
pub struct Here {
    /// The number of its module in the list.
    pub owner: u32,
    /// Whether `self` is a unit with `%filter`.
    pub filter: bool,
    /// Whether it is in the body of `%init`.
    pub init: bool,
}
