// Slices of bytes.
ghost use Rattle.std.specs.Prelude.{◌≡◌};
ghost use Rattle.sp_operators.specs.Parts.{begins_with};
ghost use Rattle.sp_methods.specs.Answers.{Tells};
ghost use Rattle.sp_methods.specs.Conversions.{sub};

use crate::fault::made;
use sp_base::{ByteList, PKind};
use sp_operators::ValueFault;
use std::alloc::Global;

/// The bytes from place `a` up to place `b`, counted from 0. Error: `Index` where `a` is behind `b`, or `b` behind the last byte.
pub fn sub(alloc: Global, x: &[u8], a: u64, b: u64) -> Result<ByteList, ValueFault>
    ensures { Tells (λ list. list) (sub x.now a b) result }
{
    if a <= b && b <= x.len() as u64 {
        made(ByteList::from_slice(alloc, &x[a as usize..b as usize]))
    } else {
        Err(ValueFault::Run(PKind::Index))
    }
}

/// Whether `y` is the front of `x`. It takes no memory.
pub fn starts_with(x: &[u8], y: &[u8]) -> bool
    ensures { result ≡ begins_with x.now y.now }
{
    x.starts_with(y)
}
