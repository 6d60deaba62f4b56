// Bitfields from the integer that was read.
ghost use Rattle.std.specs.Prelude.{◌≡◌, ◌≤◌, ◌<◌, IfOk, map};
ghost use Rattle.std.specs.List.{All};
ghost use Rattle.sp_numbers.specs.Numbers.{bit_range};
ghost use Rattle.sp_value.specs.Val.{bits};

use crate::value::Value;
use sp_base::NoMemory;
use std::alloc::Global;

/// The numbers that ranges of bits hold.
fn range_numbers(
    alloc: Global,
    x: u64,
    width: u8,
    ranges: &[(u8, u8)],
    msb0: bool,
) -> Result<Vec<u64>, NoMemory>
    requires width { width ≤ 64 }
    requires ranges { All (λ r. (r.0 ≤ r.1) × (r.1 < width)) ranges.now }
    ensures { IfOk result (λ numbers. numbers.items ≡ map (λ r. bit_range x width r.0 r.1 msb0)
        ranges.now) }
{
    let mut numbers = Vec::with_capacity(alloc, ranges.len())?;
    for (from, to) in ranges {
        numbers.push(sp_numbers::bits(x, width, *from, *to, msb0))?;
    }
    Ok(numbers)
}

/// The bitfield with the number `kind` that was read as the integer `x` of so many bits. Each of its named ranges has a
/// first and a last bit. Bit 0 is the least significant one, or with `msb0` the most significant one. The value holds
/// what the ranges hold, so that it doesn't matter in which order its bits were read, nor what other bits there are.
pub fn read_bits(
    alloc: Global,
    kind: u32,
    x: u64,
    width: u8,
    ranges: &[(u8, u8)],
    msb0: bool,
) -> Result<Value, NoMemory>
    requires width { width ≤ 64 }
    requires ranges { All (λ r. (r.0 ≤ r.1) × (r.1 < width)) ranges.now }
    ensures { IfOk result (λ value. value ≡ bits kind
        (map (λ r. bit_range x width r.0 r.1 msb0) ranges.now)) }
{
    let numbers = range_numbers(alloc, x, width, ranges, msb0)?;
    Value::bits(kind, numbers)
}
