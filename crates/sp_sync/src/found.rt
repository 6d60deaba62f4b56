// What a search tells.

/// What a search tells.
#[derive(Clone, Copy, PartialEq, Eq)]
pub enum Found {
    /// The least place at which a token begins.
    At(u64),
    /// A byte, or the end of the view, must still be told.
    Need,
    /// The view has ended, and no token begins in it.
    Nowhere,
}
