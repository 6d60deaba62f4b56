// Bytes with their ASCII letters in one case.
ghost use Rattle.std.specs.Prelude.{◌≡◌, IfOk};
ghost use Rattle.sp_methods.specs.Conversions.{lower, upper};

use sp_base::{ByteList, NoMemory};
use std::alloc::Global;

/// The bytes with each ASCII capital as its small letter, and every other byte as it is.
pub fn lower(alloc: Global, x: &[u8]) -> Result<ByteList, NoMemory>
    ensures { IfOk result (λ list. list ≡ lower x.now) }
{
    Ok(ByteList::from_vec(x.to_ascii_lowercase(alloc)?))
}

/// The bytes with each ASCII small letter as its capital, and every other byte as it is.
pub fn upper(alloc: Global, x: &[u8]) -> Result<ByteList, NoMemory>
    ensures { IfOk result (λ list. list ≡ upper x.now) }
{
    Ok(ByteList::from_vec(x.to_ascii_uppercase(alloc)?))
}
