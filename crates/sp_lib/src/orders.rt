// Integers from their bytes in a byte order.
ghost use Rattle.std.specs.Prelude.{◌≡◌, ◌&&◌};
ghost use Rattle.sp_methods.specs.Conversions.{is_order, is_integer_size, to_uint_order, to_int_order};

use sp_base::PKind;
use sp_value::{read_unsigned, signed_number};

/// Whether a byte order has the number, and an integer of 64 bits so many bytes.
fn can_convert(order: u64, size: usize) -> bool
    ensures { result ≡ (is_order order && is_integer_size size) }
{
    order < 3 && 0 < size && size <= 8
}

/// The unsigned integer of 1 to 8 bytes, in little-endian order (0), big-endian order (1) or network order (2), which is
/// big-endian. It takes no memory. Error: `BadConversion` for no bytes, more than 8, or another order.
pub fn to_uint_order(x: &[u8], order: u64) -> Result<u64, PKind>
    ensures { result ≡ to_uint_order x.now order }
{
    if can_convert(order, x.len()) {
        Ok(read_unsigned(x, order == 0))
    } else {
        Err(PKind::BadConversion)
    }
}

/// The same in two's complement over just these bytes: the one byte 255 is -1.
pub fn to_int_order(x: &[u8], order: u64) -> Result<i64, PKind>
    ensures { result ≡ to_int_order x.now order }
{
    if can_convert(order, x.len()) {
        Ok(signed_number(x.len(), read_unsigned(x, order == 0)))
    } else {
        Err(PKind::BadConversion)
    }
}
