// Bit ranges of a bitfield.
ghost use Rattle.std.specs.Prelude.{◌≡◌, ◌+◌, ◌-◌, ◌^◌, ◌<◌, ◌≤◌};
ghost use Rattle.sp_numbers.specs.Numbers.{bit_range};

/// The bits from one to the other, both included, of a bitfield that has so many bits. Bit 0 is the least
/// significant one, or with `msb0` the most significant one of the width.
pub fn bits(x: u64, width: u8, from: u8, to: u8, msb0: bool) -> u64
    requires in_order { from ≤ to }
    requires within { to < width }
    requires of_a_number { width ≤ 64 }
    ensures value { result ≡ bit_range x width from to msb0 }
    ensures in_width { result < 2 ^ (to - from + 1) }
{
    let lowest = if msb0 { width - 1 - to } else { from };
    let count = to - from + 1;
    let moved = x >> lowest;
    if count == 64 {
        moved
    } else {
        moved % (1 << count)
    }
}
