// What the statements of a body may do.
use sp_types::Type;

/// What a body is to its statements.
#[derive(Drop)]
pub struct Body {
    /// The type of what its function gives, if it gives something.
    pub result: Option<Type>,
    /// Whether it is the body of a foreach hook, which `stop` ends.
    pub in_foreach: bool,
    /// Whether it is a body of a unit that sees the unit, so that `confirm` and `reject` are meant.
    pub sees_unit: bool,
}
