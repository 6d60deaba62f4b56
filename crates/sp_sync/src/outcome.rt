// What the bytes from one place on tell of it.

/// What the bytes from one place on tell of it.
#[derive(Clone, Copy, PartialEq, Eq)]
pub enum Outcome {
    /// Some of them, from the front, are a token.
    Begins,
    /// More bytes may make a token of them.
    Waits,
    /// No token begins with them.
    Fails,
}
