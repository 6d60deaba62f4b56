// What the hooks of a unit call.

/// Which methods of units the hooks of a unit call.
#[derive(Clone, Copy)]
pub struct UnitCalls {
    pub input: bool,
    pub connect_filter: bool,
}
