// Types without parts, and what makes types of types.
ghost use Rattle.std.specs.Prelude.{◌≡◌, ◌==◌};
ghost use Rattle.sp_types.specs.Types.{holds, is_key_word, is_known_word, is_plain_word, maker_number, same_word, told_number, wider, width_number, word_number};

use sp_numbers::Width;

/// A type without parts. A number is that of a declaration of the list of modules.
#[derive(Clone, Copy)]
pub enum Word {
    /// The type of what breaks a rule.
    Unknown,
    Bool,
    Uint(Width),
    Int(Width),
    Bytes,
    String,
    Void,
    /// A constant regular expression.
    Regex,
    Sink,
    /// A place of the input.
    Iterator,
    /// `new U`, the argument of a `connect`.
    New,
    /// `filter::Base64Decode`, the argument of a `connect_filter`.
    Decoder,
    Enum(u32),
    Bitfield(u32),
    Unit(u32),
}

/// What makes types of types.
#[derive(Clone, Copy)]
pub enum Maker {
    Tuple,
    Vector,
    Set,
    Map,
}

fn width_number(width: Width) -> u32
    ensures { result ≡ width_number width }
{
    match width {
        Width::W8 => 0,
        Width::W16 => 1,
        Width::W32 => 2,
        Width::W64 => 3,
    }
}

impl Maker {
    fn number(self) -> u8
        ensures { result ≡ maker_number self }
    {
        match self {
            Maker::Tuple => 0,
            Maker::Vector => 1,
            Maker::Set => 2,
            Maker::Map => 3,
        }
    }

    pub(crate) fn is(self, other: Maker) -> bool
        ensures { result ≡ (maker_number self == maker_number other) }
    {
        self.number() == other.number()
    }
}

impl Word {
    fn number(self) -> u8
        ensures { result ≡ word_number self }
    {
        match self {
            Word::Unknown => 0,
            Word::Bool => 1,
            Word::Uint(_) => 2,
            Word::Int(_) => 3,
            Word::Bytes => 4,
            Word::String => 5,
            Word::Void => 6,
            Word::Regex => 7,
            Word::Sink => 8,
            Word::Iterator => 9,
            Word::New => 10,
            Word::Decoder => 11,
            Word::Enum(_) => 12,
            Word::Bitfield(_) => 13,
            Word::Unit(_) => 14,
        }
    }

    fn told(self) -> u32
        ensures { result ≡ told_number self }
    {
        match self {
            Word::Uint(width) | Word::Int(width) => width_number(width),
            Word::Enum(n) | Word::Bitfield(n) | Word::Unit(n) => n,
            _ => 0,
        }
    }

    /// Whether both are the same type.
    pub fn same(self, other: Word) -> bool
        ensures { result ≡ same_word self other }
    {
        self.number() == other.number() && self.told() == other.told()
    }

    /// Whether it is a type, and not that of what breaks a rule.
    pub fn is_known(self) -> bool
        ensures { result ≡ is_known_word self }
    {
        !matches!(self, Word::Unknown)
    }

    /// Whether its values can be compared, kept in variables and told.
    pub fn is_plain(self) -> bool
        ensures { result ≡ is_plain_word self }
    {
        match self {
            Word::Unknown
            | Word::Bool
            | Word::Uint(_)
            | Word::Int(_)
            | Word::Bytes
            | Word::String
            | Word::Enum(_)
            | Word::Bitfield(_) => true,
            _ => false,
        }
    }

    /// Whether its values can be keys of sets and maps.
    pub fn is_key(self) -> bool
        ensures { result ≡ is_key_word self }
    {
        match self {
            Word::Unknown
            | Word::Bool
            | Word::Uint(_)
            | Word::Int(_)
            | Word::Bytes
            | Word::String
            | Word::Enum(_) => true,
            _ => false,
        }
    }

    /// Whether it is an integer type that holds all values of the other.
    pub fn holds(self, other: Word) -> bool
        ensures { result ≡ holds self other }
    {
        match (self, other) {
            (Word::Uint(a), Word::Uint(b)) | (Word::Int(a), Word::Int(b)) => {
                a.bits() >= b.bits()
            }
            _ => false,
        }
    }
}

/// The wider of two integer types of one signedness; `Unknown` of other types.
pub fn wider(a: Word, b: Word) -> Word
    ensures { result ≡ wider a b }
{
    match (a, b) {
        (Word::Uint(v), Word::Uint(w)) | (Word::Int(v), Word::Int(w)) => {
            if v.bits() < w.bits() { b } else { a }
        }
        _ => Word::Unknown,
    }
}
