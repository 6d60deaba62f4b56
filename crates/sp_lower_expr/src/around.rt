// What stands round an expression.
ghost use Rattle.std.specs.Prelude.{◌≡◌, ◌+◌, IfOk};

use sp_base::NoMemory;
use sp_typed_units::{Bitfield, Typed};

/// Where a body keeps what it sees.
#[derive(Clone, Copy)]
pub struct Places {
    /// How many parameters the body has of its own, which are its first locals. Parameters behind these are the unit's.
    pub own: u32,
    /// The local that has `$$`.
    pub current: u32,
    /// The local that has the offset of the field at hand, where there is one.
    pub offset: Option<u32>,
    /// The local that has the first slot.
    pub first: u32,
}

/// The typed list, and where the body at hand keeps what it sees.
#[derive(Clone, Copy)]
pub struct Around<'a> {
    pub list: &'a Typed,
    pub places: Places,
}

/// A sum as a number. There is no memory for more than a number can tell.
pub fn sum(a: u32, b: u32) -> Result<u32, NoMemory>
    ensures { IfOk result (λ n. n ≡ a + b) }
{
    match a.checked_add(b) {
        Some(n) => Ok(n),
        None => Err(NoMemory),
    }
}

impl Around<'_> {
    /// The bitfields of the list.
    pub fn bitfields(&self) -> &[Bitfield]
        ensures { result.now ≡ self.now.list.now.bitfields }
    {
        self.list.bitfields.as_slice()
    }
}
