// How far a fiber is.

/// How far a fiber is between two calls.
#[derive(Clone, Copy, Debug, PartialEq, Eq)]
pub enum Phase {
    /// It has run nothing.
    Fresh,
    /// It waits for more of its input.
    Waiting,
    /// All is over, and its input is held open.
    Over,
    /// Its input has ended, and all is over.
    Ended,
    /// There was no memory for it.
    Broken,
}
