// The answer of a parse.

/// What tokens are: all of them for `parse`, and the longest viable prefix of those from a place on for `parse_from`.
#[derive(Clone, Copy, PartialEq, Eq)]
pub enum Outcome {
    /// A phrase of the grammar, of whose one derivation a sink took the actions: the place after it.
    Phrase(usize),
    /// No text: the place of the first token with which no text goes on, or the end.
    Refused(usize),
}
