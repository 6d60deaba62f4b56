// The kinds of tokens, each with its text where all of its tokens have one text.
ghost use Rattle.std.specs.Prelude.{◌≡◌};
ghost use Rattle.sp_lex.specs.Spellings.{absent_text, spelling};

use sp_words::{AttributeName, HookName, IntWord, Keyword, Property, Punctuation};

/// A word of the language that this profile leaves out: a reserved word, an attribute, a property or a hook.
#[derive(Clone, Copy, PartialEq, Eq)]
pub enum Absent {
    /// `global`
    Global,
    /// `struct`
    Struct,
    /// `optional`
    Optional,
    /// `result`
    Result,
    /// `real`
    Real,
    /// `time`
    Time,
    /// `interval`
    Interval,
    /// `addr`
    Addr,
    /// `port`
    Port,
    /// `network`
    Network,
    /// `iterator`
    Iterator,
    /// `stream`
    Stream,
    /// `skip`
    Skip,
    /// `try`
    Try,
    /// `catch`
    Catch,
    /// `unset`
    Unset,
    /// `&chunked`
    ChunkedAttribute,
    /// `%port`
    PortProperty,
    /// `%context`
    ContextProperty,
    /// `%synchronize-at`
    SynchronizeAtProperty,
    /// `%synchronize-after`
    SynchronizeAfterProperty,
    /// `%cxx-include`
    CxxIncludeProperty,
    /// `%sync_advance`
    SyncAdvanceHook,
}

impl Absent {
    /// How it is written.
    pub fn text(self) -> &'static str
        ensures { result.now ≡ absent_text self }
    {
        ABSENT_TEXTS[self as usize]
    }
}

/// How the words out of profile are written, in their order.
const ABSENT_TEXTS: [&str; 23] = [
    "global",
    "struct",
    "optional",
    "result",
    "real",
    "time",
    "interval",
    "addr",
    "port",
    "network",
    "iterator",
    "stream",
    "skip",
    "try",
    "catch",
    "unset",
    "&chunked",
    "%port",
    "%context",
    "%synchronize-at",
    "%synchronize-after",
    "%cxx-include",
    "%sync_advance",
];

/// The kind of a token. What a name, a number, a literal or a regular expression holds is in its slice of the text.
#[derive(Clone, Copy, PartialEq, Eq)]
pub enum TokenKind {
    /// A name that is no reserved word.
    Id,
    /// A number, decimal or hexadecimal.
    Number,
    /// A text in quotes.
    String,
    /// Bytes in quotes behind a `b`.
    Bytes,
    /// A regular expression between slashes.
    Regex,
    Keyword(Keyword),
    /// The word of an integer type.
    Integer(IntWord),
    Punctuation(Punctuation),
    /// The name of an attribute, with its `&`.
    Attribute(AttributeName),
    /// `&priority`, which stands in hooks.
    Priority,
    Property(Property),
    /// The name of a hook, with its `%`.
    Hook(HookName),
    Absent(Absent),
}

impl TokenKind {
    /// How every token of this kind is written; empty where tokens of this kind differ.
    pub fn text(self) -> &'static str
        ensures { result.now ≡ spelling self }
    {
        match self {
            TokenKind::Id
            | TokenKind::Number
            | TokenKind::String
            | TokenKind::Bytes
            | TokenKind::Regex => "",
            TokenKind::Keyword(keyword) => keyword.text(),
            TokenKind::Integer(word) => word.text(),
            TokenKind::Punctuation(punctuation) => punctuation.text(),
            TokenKind::Attribute(attribute) => attribute.text(),
            TokenKind::Priority => "&priority",
            TokenKind::Property(property) => property.text(),
            TokenKind::Hook(hook) => hook.text(),
            TokenKind::Absent(absent) => absent.text(),
        }
    }
}
