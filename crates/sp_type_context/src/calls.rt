// What calls are.

/// What stands before arguments.
#[derive(Clone, Copy)]
pub enum Callee {
    Function(u32),
    Enum(u32),
    /// What can't be called.
    Other,
}
