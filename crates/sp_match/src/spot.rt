// The automaton of a token set: its spots, each with those that the next byte leads to.

/// A spot of the automaton.
#[derive(Drop)]
pub enum Spot {
    /// Reads a byte of `bytes`, and then is at the spot `next`.
    Byte { bytes: Vec<bool>, next: usize },
    /// Is at each of these spots: where a repetition begins anew or ends, or where several parts may begin.
    Jump(Vec<usize>),
    /// A member has ended: its number, and whether it is a literal.
    Goal { token: u32, literal: bool },
    /// Leads nowhere.
    Nothing,
}
