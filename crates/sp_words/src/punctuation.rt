// Punctuation, brackets and operators as they are written.
ghost use Rattle.std.specs.Prelude.{◌≡◌};
ghost use Rattle.sp_words.specs.Punctuation.{punctuation_text};

/// Punctuation, a bracket or an operator.
#[derive(Clone, Copy, PartialEq, Eq)]
pub enum Punctuation {
    /// `::`
    ColonColon,
    /// `:`
    Colon,
    /// `;`
    Semicolon,
    /// `,`
    Comma,
    /// `.`
    Dot,
    /// `?.`
    QuestionDot,
    /// `?`
    Question,
    /// `(`
    LeftParen,
    /// `)`
    RightParen,
    /// `[`
    LeftBracket,
    /// `]`
    RightBracket,
    /// `{`
    LeftBrace,
    /// `}`
    RightBrace,
    /// `->`
    Arrow,
    /// `..`
    DotDot,
    /// `$$`
    DollarDollar,
    /// `=`
    Equal,
    /// `+=`
    PlusEqual,
    /// `-=`
    MinusEqual,
    /// `==`
    EqualEqual,
    /// `!=`
    NotEqual,
    /// `<`
    Less,
    /// `<=`
    LessEqual,
    /// `>`
    Greater,
    /// `>=`
    GreaterEqual,
    /// `<<`
    ShiftLeft,
    /// `>>`
    ShiftRight,
    /// `+`
    Plus,
    /// `-`
    Minus,
    /// `*`
    Star,
    /// `/`
    Slash,
    /// `%`
    Percent,
    /// `&`
    Ampersand,
    /// `|`
    Bar,
    /// `^`
    Caret,
    /// `~`
    Tilde,
    /// `!`
    Bang,
    /// `&&`
    AndAnd,
    /// `||`
    OrOr,
    /// `!in`
    NotIn,
}

impl Punctuation {
    /// How it is written.
    pub fn text(self) -> &'static str
        ensures { result.now ≡ punctuation_text self }
    {
        PUNCTUATION_TEXTS[self as usize]
    }
}

/// How punctuation is written, in its order.
const PUNCTUATION_TEXTS: [&str; 40] = [
    "::", ":", ";", ",", ".", "?.", "?", "(", ")", "[", "]", "{", "}", "->", "..", "$$", "=", "+=",
    "-=", "==", "!=", "<", "<=", ">", ">=", "<<", ">>", "+", "-", "*", "/", "%", "&", "|", "^",
    "~", "!", "&&", "||", "!in",
];
