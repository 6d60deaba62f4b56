// The words of integer types, and the names of attributes, properties and hooks.
ghost use Rattle.std.specs.Prelude.{◌≡◌};
ghost use Rattle.sp_words.specs.Words.{width, is_signed, integer_text, attribute_text, property_text, hook_text};

/// An integer type.
#[derive(Clone, Copy, PartialEq, Eq)]
pub enum IntWord {
    /// `uint8`
    Uint8,
    /// `uint16`
    Uint16,
    /// `uint32`
    Uint32,
    /// `uint64`
    Uint64,
    /// `int8`
    Int8,
    /// `int16`
    Int16,
    /// `int32`
    Int32,
    /// `int64`
    Int64,
}

impl IntWord {
    /// How it is written.
    pub fn text(self) -> &'static str
        ensures { result.now ≡ integer_text self }
    {
        INTEGER_TEXTS[self as usize]
    }

    /// The number of its bits.
    pub fn width(self) -> u8
        ensures { result ≡ width self }
    {
        match self {
            IntWord::Uint8 | IntWord::Int8 => 8,
            IntWord::Uint16 | IntWord::Int16 => 16,
            IntWord::Uint32 | IntWord::Int32 => 32,
            IntWord::Uint64 | IntWord::Int64 => 64,
        }
    }

    /// Whether it has negative numbers.
    pub fn signed(self) -> bool
        ensures { result ≡ is_signed self }
    {
        match self {
            IntWord::Uint8 | IntWord::Uint16 | IntWord::Uint32 | IntWord::Uint64 => false,
            IntWord::Int8 | IntWord::Int16 | IntWord::Int32 | IntWord::Int64 => true,
        }
    }
}

/// How the words of integer types are written, in their order.
const INTEGER_TEXTS: [&str; 8] = [
    "uint8", "uint16", "uint32", "uint64", "int8", "int16", "int32", "int64",
];

/// An attribute of a field or an element.
#[derive(Clone, Copy, PartialEq, Eq)]
pub enum AttributeName {
    /// `&size`
    Size,
    /// `&max-size`
    MaxSize,
    /// `&eod`
    Eod,
    /// `&until`
    Until,
    /// `&until-including`
    UntilIncluding,
    /// `&while`
    While,
    /// `&convert`
    Convert,
    /// `&requires`
    Requires,
    /// `&default`
    Default,
    /// `&byte-order`
    ByteOrder,
    /// `&bit-order`
    BitOrder,
    /// `&parse-from`
    ParseFrom,
    /// `&parse-at`
    ParseAt,
    /// `&try`
    Try,
    /// `&synchronize`
    Synchronize,
}

impl AttributeName {
    /// How it is written.
    pub fn text(self) -> &'static str
        ensures { result.now ≡ attribute_text self }
    {
        ATTRIBUTE_TEXTS[self as usize]
    }
}

/// How the names of attributes are written, in their order.
const ATTRIBUTE_TEXTS: [&str; 15] = [
    "&size",
    "&max-size",
    "&eod",
    "&until",
    "&until-including",
    "&while",
    "&convert",
    "&requires",
    "&default",
    "&byte-order",
    "&bit-order",
    "&parse-from",
    "&parse-at",
    "&try",
    "&synchronize",
];

/// The name of a property, with its `%`.
#[derive(Clone, Copy, PartialEq, Eq)]
pub enum Property {
    /// `%byte-order`
    ByteOrder,
    /// `%spicy-version`
    SpicyVersion,
    /// `%filter`
    Filter,
    /// `%mime-type`
    MimeType,
    /// `%description`
    Description,
}

impl Property {
    /// How it is written.
    pub fn text(self) -> &'static str
        ensures { result.now ≡ property_text self }
    {
        PROPERTY_TEXTS[self as usize]
    }
}

/// How the names of properties are written, in their order.
const PROPERTY_TEXTS: [&str; 5] = [
    "%byte-order",
    "%spicy-version",
    "%filter",
    "%mime-type",
    "%description",
];

/// The name of a hook of a unit or a sink.
#[derive(Clone, Copy, PartialEq, Eq)]
pub enum HookName {
    /// `%init`
    Init,
    /// `%done`
    Done,
    /// `%error`
    Error,
    /// `%finally`
    Finally,
    /// `%synced`
    Synced,
    /// `%confirmed`
    Confirmed,
    /// `%rejected`
    Rejected,
    /// `%gap`
    Gap,
    /// `%skipped`
    Skipped,
    /// `%overlap`
    Overlap,
    /// `%undelivered`
    Undelivered,
}

impl HookName {
    /// How it is written.
    pub fn text(self) -> &'static str
        ensures { result.now ≡ hook_text self }
    {
        HOOK_TEXTS[self as usize]
    }
}

/// How the names of hooks are written, in their order.
const HOOK_TEXTS: [&str; 11] = [
    "%init",
    "%done",
    "%error",
    "%finally",
    "%synced",
    "%confirmed",
    "%rejected",
    "%gap",
    "%skipped",
    "%overlap",
    "%undelivered",
];
