// Which types a cast can name.
use sp_numbers::Width;

/// A plain type without the types of its members.
#[derive(Clone, Copy, PartialEq, Eq)]
pub enum PlainType {
    Void,
    Bool,
    /// `uint8` to `uint64`
    Uint(Width),
    /// `int8` to `int64`
    Int(Width),
    Bytes,
    Str,
    /// an enum, by the number of its type
    Enum(u32),
    /// a bitfield, by the number of its type
    Bits(u32),
    Tuple,
    Vector,
    Set,
    Map,
}
