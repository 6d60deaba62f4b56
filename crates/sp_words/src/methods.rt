// The methods of the library, and how many operands each takes.
ghost use Rattle.std.specs.Prelude.{◌≡◌};
ghost use Rattle.sp_words.specs.Methods.{arity, changes};

/// A method of the language's library. Arguments that a module leaves out are written out before it comes to this: the base is
/// 10, the charset UTF-8, and the strategy puts U+FFFD in place of a byte with which no character begins.
#[derive(Clone, Copy, PartialEq, Eq)]
pub enum Method {
    /// of bytes, `to_uint(base)`
    ToUint,
    /// of bytes, `to_int(base)`
    ToInt,
    /// of bytes, `to_uint(order)`
    ToUintOrder,
    /// of bytes, `to_int(order)`
    ToIntOrder,
    /// of bytes, `sub(a, b)`
    Sub,
    /// of bytes, `starts_with(x)`
    StartsWith,
    /// of bytes, `split(d)`
    Split,
    /// of bytes, `split1(d)`
    Split1,
    /// of bytes, `lower()`
    Lower,
    /// of bytes, `upper()`
    Upper,
    /// of bytes, `decode(charset, strategy)`
    Decode,
    /// of a text, `encode()`
    Encode,
    /// of a vector, `push_back(x)`
    PushBack,
    /// of a vector, `pop_back()`
    PopBack,
    /// of a vector, `front()`
    Front,
    /// of a vector, `back()`
    Back,
    /// of a map, `get(k)`
    Get,
    /// of a map, `get(k, d)`
    GetOr,
}

impl Method {
    /// How many operands it takes, its receiver among them.
    pub fn arity(self) -> usize
        ensures { result ≡ arity self }
    {
        match self {
            Method::Lower | Method::Upper | Method::Encode => 1,
            Method::PopBack | Method::Front | Method::Back => 1,
            Method::Sub | Method::Decode | Method::GetOr => 3,
            _ => 2,
        }
    }

    /// Whether it changes its receiver.
    pub fn changes(self) -> bool
        ensures { result ≡ changes self }
    {
        match self {
            Method::PushBack | Method::PopBack => true,
            _ => false,
        }
    }
}
