// The symbols of a grammar, and what a parse leaves.

/// The terminal of `>`.
pub const GREATER: u8 = 120;
/// The terminal of `>>`, which is taken whole as itself, or in two halves as two closing brackets.
pub const SHIFT: u8 = 121;
/// The second half of a `>>` whose first half was taken as a closing bracket. No token of a text has this kind.
pub const SECOND: u8 = 122;
/// What closes a list of types: a `>`, or a half of a `>>`. It stands in productions alone.
pub const CLOSE: u8 = 123;
/// The end of the tokens.
pub const END: u8 = 124;

/// A member of the right side of a production.
#[derive(Clone, Copy)]
pub enum Symbol {
    /// A token of a kind that this expects.
    Terminal(u8),
    /// A part of the grammar that has productions of its own.
    Nonterminal(u8),
    /// Takes no token: an action, by its number.
    Action(u8),
}

/// An action that was passed, and how many tokens stood before it.
#[derive(Clone, Copy)]
pub struct ActionAt {
    pub action: u8,
    pub at: u32,
}

/// What became of a step with the next token.
#[derive(Clone, Copy)]
pub(crate) enum Step {
    /// The token was taken.
    Whole,
    /// The first half of it was taken.
    Half,
    /// No text goes on with it.
    Refused,
    /// No symbol is left.
    Emptied,
}
