// What is declared with a value.
use sp_ast::{ExprKind, Ref};
use sp_types::Type;

/// What is declared with a value: a constant, or a label of an enum of the list. A module and an enum are told by their numbers.
#[derive(Drop)]
pub enum Valued<'a> {
    /// The type that is written, if there is one, and the value.
    Constant {
        owner: u32,
        written: Option<Type>,
        value: Ref<'a, ExprKind>,
    },
    /// A label with a number.
    Numbered {
        kind: u32,
        owner: u32,
        number: Ref<'a, ExprKind>,
    },
    /// The first label of an enum, without a number.
    First(u32),
    /// A label of an enum behind another, without a number.
    Next(u32),
}
