// The kinds of tokens that the grammar tells apart, which a script writes from tools/grammar.txt.
ghost use Rattle.std.specs.Prelude.{◌≡◌, ◌<◌};
ghost use Rattle.sp_grammar.specs.Terminals.{terminal_number};
ghost use Rattle.sp_parser.specs.Grammar.{SECOND};

use sp_words::{Keyword, Property, Punctuation};

/// A kind of token.
#[derive(Clone, Copy)]
pub enum Terminal {
    /// A reserved word.
    Keyword(Keyword),
    /// A name.
    Id,
    /// Punctuation, a bracket or an operator.
    Punctuation(Punctuation),
    /// A property.
    Property(Property),
    /// A string literal.
    String,
    /// The name of a hook, as `%init`.
    Hook,
    /// `&priority`
    Priority,
    /// The word of an integer type.
    IntWord,
    /// A number.
    Number,
    /// An attribute other than `&priority`.
    Attribute,
    /// A bytes literal.
    Bytes,
    /// A regular expression.
    Regex,
    /// `skip`, a word out of profile that names a member.
    Skip,
}

impl Terminal {
    /// Its number in the table.
    #[tactic(auto, using(crate::specs::TerminalKinds::is_kind))]
    pub fn number(self) -> u8
        ensures number { result ≡ terminal_number self }
        ensures kind { result < SECOND }
    {
        match self {
            Terminal::Keyword(keyword) => KEYWORDS[keyword as usize],
            Terminal::Punctuation(sign) => SIGNS[sign as usize],
            Terminal::Property(property) => PROPERTIES[property as usize],
            Terminal::Id => 1,
            Terminal::String => 7,
            Terminal::Hook => 16,
            Terminal::Priority => 19,
            Terminal::IntWord => 22,
            Terminal::Number => 36,
            Terminal::Attribute => 49,
            Terminal::Bytes => 51,
            Terminal::Regex => 52,
            Terminal::Skip => 93,
        }
    }
}

/// The numbers of the kinds of reserved words, in the order of their enum.
#[rattlefmt::skip]
static KEYWORDS: [u8; 47] = [
    0, 3, 8, 9, 10, 11, 14, 21, 37, 32, 35, 27, 29, 31, 30, 23,
    24, 25, 26, 42, 43, 44, 69, 70, 50, 53, 55, 56, 57, 18, 54, 58,
    59, 60, 64, 66, 65, 67, 68, 61, 62, 63, 99, 98, 94, 96, 97,
];

/// The numbers of the kinds of punctuation, in the order of their enum.
#[rattlefmt::skip]
static SIGNS: [u8; 40] = [
    15, 17, 2, 20, 91, 92, 73, 12, 13, 47, 48, 33, 34, 46, 38, 95,
    5, 71, 72, 77, 78, 28, 79, 120, 80, 84, 121, 85, 86, 45, 87, 88,
    83, 81, 82, 90, 89, 75, 74, 76,
];

/// The numbers of the kinds of properties, in the order of their enum.
#[rattlefmt::skip]
static PROPERTIES: [u8; 5] = [
    4, 6, 39, 40, 41,
];
