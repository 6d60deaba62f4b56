// The kinds of refusals and errors, each with the word that programs print.
ghost use Rattle.std.specs.Prelude.{◌≡◌};
ghost use Rattle.sp_base.specs.Kinds.{module_kind_name, module_kind_number, run_kind_name, batch_kind_name};

use std::fmt;

/// Why a module is refused.
#[derive(Clone, Copy, PartialEq, Eq)]
pub enum MKind {
    /// The text is not UTF-8, or holds a byte 0.
    NotText,
    /// No token begins here, or a literal is not ended or has a bad escape.
    BadToken,
    /// No text of the grammar goes on with this token, or the end comes too early.
    Unexpected,
    /// The text has more than 1,048,576 bytes.
    TooLarge,
    /// A named file is not there, or an import's file is not there or holds another module.
    ModuleNotFound,
    /// Two named files hold modules of one name, or a file's module has a reserved name.
    ModuleTwice,
    /// A name is declared twice.
    NameTwice,
    /// A name, member or method names nothing visible.
    UnknownName,
    /// An operand, condition, value or type has a wrong type.
    TypeMismatch,
    /// A value does not go to its target, or the target cannot be changed.
    NotAssignable,
    /// An attribute is not allowed here, or its value is missing or not wanted.
    BadAttribute,
    /// Bytes without a bound.
    MissingBound,
    /// An attribute stands twice, or another excludes it.
    AttributeClash,
    /// A bit range or the width of a bitfield is wrong.
    BadBitRange,
    /// A literal does not fit its type.
    LiteralRange,
    /// No constant expression where one is wanted, or one whose value is an error.
    NotConstant,
    /// The text of a regular expression is not one.
    BadRegex,
    /// A token has the empty word.
    EmptyToken,
    /// A look-ahead arm or element does not begin with tokens, or can be empty.
    NoLookAhead,
    /// Two alternatives of a look-ahead share an equal token.
    LookAheadClash,
    /// A hook of no unit or field, or with wrong parameters.
    UnknownHook,
    /// `self`, `$$`, `confirm` or `reject` where none is meant.
    SelfOutside,
    /// A function with a result may end without `return`.
    MissingReturn,
    /// `break` or `continue` in no loop, or `stop` in no foreach body.
    OutsideLoop,
    /// A call has a wrong number or wrong types of arguments.
    WrongArguments,
    /// A filter stands where none can.
    FilterPlace,
    /// `&synchronize` on what does not begin with tokens.
    SyncNoToken,
    /// The body of a sink hook uses what it must not see.
    HookSeesState,
    /// A limit on numbers of things is passed.
    TooMany,
    /// A word of the language that this profile leaves out.
    OutOfProfile,
    /// The nesting is too deep.
    TooDeep,
    /// There is no such parser.
    NoParser,
}

impl MKind {
    /// The number behind the letter `M`.
    pub fn number(self) -> u8
        ensures { result ≡ module_kind_number self }
    {
        self as u8 + 1
    }

    /// The word of this kind, as programs print it.
    pub fn name(self) -> &'static str
        ensures { result.now ≡ module_kind_name self }
    {
        MODULE_WORDS[self as usize]
    }
}

impl fmt::Debug for MKind {
    fn fmt<W: fmt::Write>(&self, f: &mut fmt::Formatter<W>) -> fmt::Result {
        f.write_str(self.name())
    }
}

/// Why a parse fails.
#[derive(Clone, Copy, PartialEq, Eq)]
pub enum PKind {
    /// A byte is needed past the end of an ended view.
    Short,
    /// A literal is not there.
    NoMatch,
    /// No alternative of a switch is chosen.
    NoAlternative,
    /// `&requires` is false.
    Requires,
    /// A field ended before its `&size` view.
    SizeLeft,
    /// A field took more than its `&max-size`.
    SizeOver,
    /// A size or count is negative or too large.
    BadSize,
    /// A number is out of its type's range.
    Overflow,
    /// A division by 0.
    DivZero,
    /// A shift by the width or more.
    BadShift,
    /// An index or range is outside, or a vector is empty.
    Index,
    /// A map has no such key.
    MissingKey,
    /// An unset field without a default is read.
    Unset,
    /// A cast does not fit.
    CastRange,
    /// An assertion is false.
    Assert,
    /// A `throw`.
    Throw,
    /// `backtrack` without an open `&try` field.
    NoTry,
    /// `reject` outside trial mode.
    Rejected,
    /// The count of turns passes its limit.
    Turns,
    /// Too many units and functions are open.
    Depth,
    /// An initial sequence number comes too late.
    LateInitial,
    /// Too many fibers are nested.
    FiberDepth,
    /// A target lies before the start of its unit or view.
    InputBefore,
    /// Bytes are not such a text.
    BadConversion,
    /// A sink is used after its unit has ended.
    SinkClosed,
    /// A gap in the input is reached.
    Gap,
    /// A filter forwards after it ended the data.
    ForwardAfterEnd,
    /// Bytes are no Base64.
    BadBase64,
}

impl PKind {
    /// The word of this kind, as programs print it.
    pub fn name(self) -> &'static str
        ensures { result.now ≡ run_kind_name self }
    {
        RUN_WORDS[self as usize]
    }
}

impl fmt::Debug for PKind {
    fn fmt<W: fmt::Write>(&self, f: &mut fmt::Formatter<W>) -> fmt::Result {
        f.write_str(self.name())
    }
}

/// Why a batch is refused.
#[derive(Clone, Copy, PartialEq, Eq)]
pub enum BKind {
    /// The first line is not the header of a batch.
    BadHeader,
    /// A line is no record, or the line's end after data is missing.
    BadRecord,
    /// No flow or connection of that name is open.
    UnknownFlow,
    /// A name is open already.
    FlowTwice,
    /// There is no such parser.
    UnknownParser,
    /// The text ends inside a record.
    CutShort,
}

impl BKind {
    /// The word of this kind, as programs print it.
    pub fn name(self) -> &'static str
        ensures { result.now ≡ batch_kind_name self }
    {
        BATCH_WORDS[self as usize]
    }
}

impl fmt::Debug for BKind {
    fn fmt<W: fmt::Write>(&self, f: &mut fmt::Formatter<W>) -> fmt::Result {
        f.write_str(self.name())
    }
}

/// The words of the kinds of refusals, in their order.
const MODULE_WORDS: [&str; 32] = [
    "NotText",
    "BadToken",
    "Unexpected",
    "TooLarge",
    "ModuleNotFound",
    "ModuleTwice",
    "NameTwice",
    "UnknownName",
    "TypeMismatch",
    "NotAssignable",
    "BadAttribute",
    "MissingBound",
    "AttributeClash",
    "BadBitRange",
    "LiteralRange",
    "NotConstant",
    "BadRegex",
    "EmptyToken",
    "NoLookAhead",
    "LookAheadClash",
    "UnknownHook",
    "SelfOutside",
    "MissingReturn",
    "OutsideLoop",
    "WrongArguments",
    "FilterPlace",
    "SyncNoToken",
    "HookSeesState",
    "TooMany",
    "OutOfProfile",
    "TooDeep",
    "NoParser",
];

/// The words of the kinds of errors of a parse, in their order.
const RUN_WORDS: [&str; 28] = [
    "Short",
    "NoMatch",
    "NoAlternative",
    "Requires",
    "SizeLeft",
    "SizeOver",
    "BadSize",
    "Overflow",
    "DivZero",
    "BadShift",
    "Index",
    "MissingKey",
    "Unset",
    "CastRange",
    "Assert",
    "Throw",
    "NoTry",
    "Rejected",
    "Turns",
    "Depth",
    "LateInitial",
    "FiberDepth",
    "InputBefore",
    "BadConversion",
    "SinkClosed",
    "Gap",
    "ForwardAfterEnd",
    "BadBase64",
];

/// The words of the kinds of refusals of a batch, in their order.
const BATCH_WORDS: [&str; 6] = [
    "BadHeader",
    "BadRecord",
    "UnknownFlow",
    "FlowTwice",
    "UnknownParser",
    "CutShort",
];
