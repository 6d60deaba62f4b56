// The options of a run.

/// What the words say of how a unit runs.
#[derive(Clone, Copy)]
pub struct RunOptions {
    /// The size of pieces in bytes.
    pub increment: u64,
    /// How many bytes of the input may be taken.
    pub most: u64,
    /// Whether hooks are told, and what is written to sinks and forwarded.
    pub trace: bool,
}
