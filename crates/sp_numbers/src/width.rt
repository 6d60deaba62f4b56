// The widths of integers, and the ranges of numbers that they have.
ghost use Rattle.std.specs.Prelude.{◌≡◌, ◌-◌, ◌^◌, ◌<◌, pos, IfOk, IsTrue};
ghost use Rattle.sp_numbers.specs.Numbers.{width_bits, fits_signed, unsigned_or, signed_or};

use sp_base::PKind;

/// How many bits an integer has.
#[derive(Clone, Copy, PartialEq, Eq)]
pub enum Width {
    /// 8 bits
    W8,
    /// 16 bits
    W16,
    /// 32 bits
    W32,
    /// 64 bits
    W64,
}

impl Width {
    /// How many bits an integer of this width has.
    pub fn bits(self) -> u32
        ensures { result ≡ width_bits self }
    {
        match self {
            Width::W8 => 8,
            Width::W16 => 16,
            Width::W32 => 32,
            Width::W64 => 64,
        }
    }

    /// The greatest unsigned integer of this width.
    pub fn greatest(self) -> u64
        ensures { result ≡ 2 ^ width_bits self - 1 }
    {
        match self {
            Width::W8 => 0xff,
            Width::W16 => 0xffff,
            Width::W32 => 0xffff_ffff,
            Width::W64 => 0xffff_ffff_ffff_ffff,
        }
    }

    /// The greatest signed integer of this width.
    pub fn greatest_signed(self) -> i64
        ensures { result ≡ pos (2 ^ (width_bits self - 1) - 1) }
    {
        match self {
            Width::W8 => 0x7f,
            Width::W16 => 0x7fff,
            Width::W32 => 0x7fff_ffff,
            Width::W64 => 0x7fff_ffff_ffff_ffff,
        }
    }
}

/// The number where it is an unsigned integer of the width, else the error.
pub(crate) fn in_unsigned(error: PKind, width: Width, value: u64) -> Result<u64, PKind>
    ensures value { result ≡ unsigned_or error width (pos value) }
    ensures in_width { IfOk result (λ number. number < 2 ^ width_bits width) }
{
    if value <= width.greatest() {
        Ok(value)
    } else {
        Err(error)
    }
}

/// The number where it is a signed integer of the width, else the error.
pub(crate) fn in_signed(error: PKind, width: Width, value: i64) -> Result<i64, PKind>
    ensures value { result ≡ signed_or error width value }
    ensures in_width { IfOk result (λ number. IsTrue (fits_signed width number)) }
{
    let greatest = width.greatest_signed();
    if value <= greatest && -greatest - 1 <= value {
        Ok(value)
    } else {
        Err(error)
    }
}
