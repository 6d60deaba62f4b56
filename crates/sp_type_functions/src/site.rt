// Where a hook stands.
use sp_base::Span;
use sp_typed_units::HookOf;
use sp_types::Type;

/// Where a hook stands, and what it is of.
#[derive(Drop)]
pub struct Site {
    /// The module in which it is written.
    pub module: u32,
    /// The token behind `on`, or the brace of a hook behind a field.
    pub span: Span,
    pub of: HookOf,
    /// Whether the field that it is of has brackets of its own.
    pub container: bool,
    /// The type of `$$`, where it is of a field or of elements.
    pub current: Type,
}
