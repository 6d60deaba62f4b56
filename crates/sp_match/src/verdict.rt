// What the bytes so far tell of a token set.

/// What the bytes so far tell of a token set.
#[derive(Clone, Copy, PartialEq, Eq)]
pub enum Verdict {
    /// More bytes may make a longer match.
    Need,
    /// The longest match: the number of its member, from 0, and how many bytes it takes.
    Match { token: u32, length: u64 },
    /// No member has bytes from the front.
    None,
}
