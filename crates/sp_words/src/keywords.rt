// The reserved words.
ghost use Rattle.std.specs.Prelude.{◌≡◌};
ghost use Rattle.sp_words.specs.Keywords.{keyword_text};

/// A reserved word, unless it is that of an integer type.
#[derive(Clone, Copy, PartialEq, Eq)]
pub enum Keyword {
    /// `module`
    Module,
    /// `import`
    Import,
    /// `public`
    Public,
    /// `type`
    Type,
    /// `const`
    Const,
    /// `function`
    Function,
    /// `on`
    On,
    /// `inout`
    Inout,
    /// `unit`
    Unit,
    /// `enum`
    Enum,
    /// `bitfield`
    Bitfield,
    /// `tuple`
    Tuple,
    /// `vector`
    Vector,
    /// `map`
    Map,
    /// `set`
    Set,
    /// `bool`
    Bool,
    /// `bytes`
    Bytes,
    /// `string`
    String,
    /// `void`
    Void,
    /// `var`
    Var,
    /// `sink`
    Sink,
    /// `switch`
    Switch,
    /// `case`
    Case,
    /// `default`
    Default,
    /// `if`
    If,
    /// `else`
    Else,
    /// `while`
    While,
    /// `for`
    For,
    /// `in`
    In,
    /// `foreach`
    Foreach,
    /// `local`
    Local,
    /// `return`
    Return,
    /// `break`
    Break,
    /// `continue`
    Continue,
    /// `print`
    Print,
    /// `assert`
    Assert,
    /// `throw`
    Throw,
    /// `add`
    Add,
    /// `delete`
    Delete,
    /// `stop`
    Stop,
    /// `confirm`
    Confirm,
    /// `reject`
    Reject,
    /// `new`
    New,
    /// `cast`
    Cast,
    /// `self`
    Itself,
    /// `True`
    True,
    /// `False`
    False,
}

impl Keyword {
    /// How it is written.
    pub fn text(self) -> &'static str
        ensures { result.now ≡ keyword_text self }
    {
        KEYWORD_TEXTS[self as usize]
    }
}

/// How the reserved words are written, in their order.
const KEYWORD_TEXTS: [&str; 47] = [
    "module", "import", "public", "type", "const", "function", "on", "inout", "unit", "enum",
    "bitfield", "tuple", "vector", "map", "set", "bool", "bytes", "string", "void", "var", "sink",
    "switch", "case", "default", "if", "else", "while", "for", "in", "foreach", "local", "return",
    "break", "continue", "print", "assert", "throw", "add", "delete", "stop", "confirm", "reject",
    "new", "cast", "self", "True", "False",
];
