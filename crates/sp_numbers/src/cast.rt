// Casts between integer types.
ghost use Rattle.std.specs.Prelude.{◌≡◌, ◌^◌, ◌<◌, pos, IfOk, IsTrue};
ghost use Rattle.sp_base.specs.declared.kinds.PKind.TheVariants.{CastRange};
ghost use Rattle.sp_numbers.specs.Numbers.{width_bits, fits_signed, unsigned_or, signed_or};

use crate::width::{Width, in_signed, in_unsigned};
use sp_base::PKind;

/// The number as an unsigned integer of the width. Error: `CastRange` where it is none.
pub fn unsigned_to_unsigned(value: u64, to: Width) -> Result<u64, PKind>
    ensures value { result ≡ unsigned_or CastRange to (pos value) }
    ensures in_width { IfOk result (λ number. number < 2 ^ width_bits to) }
{
    in_unsigned(PKind::CastRange, to, value)
}

/// The number as an unsigned integer of the width. Error: `CastRange` where it is none.
pub fn signed_to_unsigned(value: i64, to: Width) -> Result<u64, PKind>
    ensures value { result ≡ unsigned_or CastRange to value }
    ensures in_width { IfOk result (λ number. number < 2 ^ width_bits to) }
{
    if value < 0 {
        Err(PKind::CastRange)
    } else {
        in_unsigned(PKind::CastRange, to, value as u64)
    }
}

/// The number as a signed integer of the width. Error: `CastRange` where it is none.
pub fn unsigned_to_signed(value: u64, to: Width) -> Result<i64, PKind>
    ensures value { result ≡ signed_or CastRange to (pos value) }
    ensures in_width { IfOk result (λ number. IsTrue (fits_signed to number)) }
{
    if value <= 0x7fff_ffff_ffff_ffff {
        in_signed(PKind::CastRange, to, value as i64)
    } else {
        Err(PKind::CastRange)
    }
}

/// The number as a signed integer of the width. Error: `CastRange` where it is none.
pub fn signed_to_signed(value: i64, to: Width) -> Result<i64, PKind>
    ensures value { result ≡ signed_or CastRange to value }
    ensures in_width { IfOk result (λ number. IsTrue (fits_signed to number)) }
{
    in_signed(PKind::CastRange, to, value)
}
