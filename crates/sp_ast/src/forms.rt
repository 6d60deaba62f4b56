// The alternatives of the grammar of which trees are, with what their own tokens tell: a text, a number, an operator, a
// word.
use sp_base::{ByteList, Text};
use sp_words::{AssignOp, AttributeName, BinaryOp, HookName, IntWord, UnaryOp};

/// What a tree is of. The parts that are listed are those of its tree, in the order of the text.
#[derive(Drop)]
pub enum Form {
    /// A name.
    Name(Text),
    /// A string literal where no expression stands, its escapes decoded.
    String(Text),
    /// A number where no expression stands.
    Number(u64),
    /// The name of a hook, `%init` and the like.
    HookName(HookName),
    /// Names joined by `::`, one or more.
    Path,
    /// An expression.
    Expr(ExprForm),
    /// `k: v` in a map: the key and the value.
    Pair,
    /// A type.
    Type(TypeForm),
    /// `A`, `B = 2` in an enumeration: the name, and the number if there is one.
    Label,
    /// `a: 0;`, `a: 0..3;` in a bitfield: the name, the first bit, and the last if there is one.
    Bits,
    /// `x: T`, with whether `inout` stands before it: the name and the type.
    Parameter { inout: bool },
    /// A statement.
    Stmt(StmtForm),
    /// Statements in braces.
    Block,
    /// A condition of an `if`, and what is done where it is the first that holds.
    Branch,
    /// `case a, b: s`: the values in a row, and the statement.
    Case,
    /// An item of a unit.
    Item(ItemForm),
    /// What a hook in a unit hangs on.
    Target(TargetForm),
    /// A part of a unit that takes input.
    Part(PartForm),
    /// An arm of a switch in a unit: the guard and the body.
    Arm,
    /// When an arm is taken.
    Guard(GuardForm),
    /// What an arm reads.
    Body(BodyForm),
    /// What a field or an element reads.
    Base(BaseForm),
    /// `[n]`, `[]` behind a base: the number, if there is one.
    Count,
    /// An attribute: its value, if there is one.
    Attribute(AttributeName),
    /// A hook: the parameters in a row, and the body.
    Hook,
    /// What a hook does, with whether `foreach` stands before it: the priority, if there is one, and the block.
    HookBody { each: bool },
    /// `unit (..) { .. }`: the parameters in a row, and the items in a row.
    Unit,
    /// A field: the name, if there is one, the base, the counts in a row, the attributes in a row, the condition and the
    /// sink, if there are any, and the hooks in a row.
    Field,
    /// A declaration.
    Decl(DeclForm),
    /// A module: its name, and its declarations in a row.
    Module,
}

/// What an expression can be.
#[derive(Drop)]
pub enum ExprForm {
    /// `a`, `M::a`: the path.
    Path,
    /// `self`
    Itself,
    /// `$$`
    Current,
    /// `True`
    True,
    /// `False`
    False,
    /// A number.
    Number(u64),
    /// A text in quotes, its escapes decoded.
    String(Text),
    /// Bytes in quotes behind a `b`, their escapes decoded.
    Bytes(ByteList),
    /// What stands between the slashes of a regular expression, as it is written.
    Regex(Text),
    /// `(a, b)`: the members, two or more.
    Tuple,
    /// `[a, b]`: the elements, one or more.
    Vector,
    /// `set(a, b)`: the elements, one or more.
    Set,
    /// `map(k: v)`: the pairs, one or more.
    Map,
    /// `vector<T>()`: the type.
    EmptyVector,
    /// `set<T>()`: the type.
    EmptySet,
    /// `map<K, V>()`: the types.
    EmptyMap,
    /// `uint8(1)`: the number.
    TypedNumber(IntWord),
    /// `cast<T>(e)`: the type and the operand.
    Cast,
    /// `new U`, `new U(a)`: the path, and the arguments in a row.
    New,
    /// `|e|`: the operand.
    Size,
    /// `c ? a : b`: the condition and the two expressions.
    Choice,
    /// `e.name`: the object and the name.
    Member,
    /// `e?.name`: the object and the name.
    SetMember,
    /// `e[i]`: the object and the index.
    Index,
    /// `f(a, b)`: the callee, and the arguments in a row.
    Call,
    /// `! e`, `- e`, `~ e`: the operand.
    Unary(UnaryOp),
    /// `a + b` and the like: the two operands.
    Binary(BinaryOp),
}

/// What a type can be.
#[derive(Clone, Copy, PartialEq, Eq)]
pub enum TypeForm {
    /// `T`, `M::T`: the path.
    Path,
    /// `bool`
    Bool,
    /// `bytes`
    Bytes,
    /// `string`
    String,
    /// `void`
    Void,
    /// `uint8` and the like.
    Int(IntWord),
    /// `tuple<A, B>`: the members, one or more.
    Tuple,
    /// `vector<T>`: the type.
    Vector,
    /// `set<T>`: the type.
    Set,
    /// `map<K, V>`: the types.
    Map,
    /// `enum { A, B = 2 }`: the labels, one or more.
    Enum,
    /// `bitfield(8) { a: 0..3; }`: the width, and the ranges in a row.
    Bitfield,
    /// A unit.
    Unit,
}

/// What a statement can be.
#[derive(Clone, Copy, PartialEq, Eq)]
pub enum StmtForm {
    /// A block.
    Block,
    /// `local x: T = e;`: the name, and the type and the value, if there are any.
    Local,
    /// `if (c) s else if (d) t else u`: the branches in a row, and what is done where none is taken, if it is there.
    If,
    /// `while (c) s`: the condition and the statement.
    While,
    /// `for (x in e) s`: the name, the sequence and the statement.
    For,
    /// `switch (e) { case a: s default: t }`: the subject, the cases in a row, and the default, if there is one.
    Switch,
    /// `return;`, `return e;`: the value, if there is one.
    Return,
    /// `break;`
    Break,
    /// `continue;`
    Continue,
    /// `stop;`
    Stop,
    /// `confirm;`
    Confirm,
    /// `reject;`
    Reject,
    /// `print a, b;`: the values, one or more.
    Print,
    /// `throw e;`: the value.
    Throw,
    /// `assert e : "text";`: the condition, and the text, if there is one.
    Assert,
    /// `add e;`: the target.
    Add,
    /// `delete e;`: the target.
    Delete,
    /// `e;`: the expression.
    Expr,
    /// `a = b;`, `a += b;`, `a -= b;`: the target and the value.
    Assign(AssignOp),
}

/// What an item of a unit can be.
#[derive(Clone, Copy, PartialEq, Eq)]
pub enum ItemForm {
    /// `%filter;`
    Filter,
    /// `%byte-order = path;`: the path.
    ByteOrder,
    /// `%mime-type = "text";`: the text.
    MimeType,
    /// `%description = "text";`: the text.
    Description,
    /// `var x: T = e;`: the name, the type, and the value, if there is one.
    Variable,
    /// `sink s;`: the name.
    Sink,
    /// `on field { .. }`, `on %init { .. }`: the target and the hook.
    On,
    /// A part.
    Part,
}

/// What a hook in a unit can hang on.
#[derive(Drop)]
pub enum TargetForm {
    /// A field, variable or sink by its name.
    Name(Text),
    /// A hook of the unit itself, as `%init`.
    Hook(HookName),
}

/// What a part of a unit can be.
#[derive(Clone, Copy, PartialEq, Eq)]
pub enum PartForm {
    /// A field.
    Field,
    /// `switch (e) { .. }`: the expression, unless look-ahead chooses, and the arms in a row.
    Switch,
}

/// When an arm can be taken.
#[derive(Clone, Copy, PartialEq, Eq)]
pub enum GuardForm {
    /// `*`: where no other arm is.
    Otherwise,
    /// At one of these values, one or more.
    Values,
    /// Where the input goes on with a token of this arm. It stands on the arm's `->`.
    LookAhead,
}

/// What an arm can read.
#[derive(Clone, Copy, PartialEq, Eq)]
pub enum BodyForm {
    /// `;`
    Nothing,
    /// One part.
    One,
    /// Parts in braces.
    Many,
}

/// What a field or an element can read.
#[derive(Drop)]
pub enum BaseForm {
    /// A type.
    Type,
    /// `U(a, b)`: the path, and the arguments in a row.
    Unit,
    /// `( base [n] attributes )`: the base, the counts in a row, and the attributes in a row.
    Group,
    /// `b"text"`, its escapes decoded.
    Bytes(ByteList),
    /// What stands between the slashes of a regular expression, as it is written.
    Regex(Text),
    /// `uint8(1)`: the number.
    Number(IntWord),
}

/// What a declaration can be, with whether `public` stands before it.
#[derive(Clone, Copy, PartialEq, Eq)]
pub enum DeclForm {
    /// `import M;`: the name.
    Import,
    /// `%byte-order = path;`: the path.
    ByteOrder,
    /// `%spicy-version = "text";`: the text.
    Version,
    /// `on U::field { .. }`, `on M::U::%init { .. }`: the path, the name of the hook, if there is one, and the hook.
    On,
    /// `type T = ..;`: the name and the type.
    Type { public: bool },
    /// `const C: T = e;`: the name, the type, if there is one, and the value.
    Const { public: bool },
    /// `function f(x: T): U { .. }`: the name, the parameters in a row, the type, if there is one, and the block.
    Function { public: bool },
}
