// Where a break and a continue lead.

/// The addresses to which a break and a continue lead.
#[derive(Clone, Copy)]
pub struct Ways {
    /// Where a break leads.
    pub leave: u32,
    /// Where a continue leads.
    pub again: u32,
}
