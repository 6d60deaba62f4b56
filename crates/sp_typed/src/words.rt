// What a node of an expression is, apart from its parts, its type and its place.
use sp_base::{ByteList, Span, Text};
use sp_types::Word;
use sp_words::{BinaryOp, Method};

/// A type as it is written: the slice of the text, and what is wrong with it.
#[derive(Clone, Copy)]
pub struct Written {
    pub span: Span,
    /// The first name in it that names nothing.
    pub unnamed: Option<Span>,
    /// The first type in it that can't stand where it does.
    pub misplaced: Option<Span>,
}

/// Whether a word such as `self` or `break` stands where it means something.
#[derive(Clone, Copy)]
pub enum Standing {
    Meant,
    Unmeant,
    /// It is meant, but it stands in the body of a sink hook, which can't see it.
    Hidden,
}

/// What has no parts.
#[derive(Drop)]
pub enum LeafOp {
    True,
    False,
    /// A number without a type of its own. It takes the type of its place, which is that of the node.
    Number(u64),
    /// `uint8(1)`
    TypedNumber(u64),
    Text(Text),
    Bytes(ByteList),
    /// What stands between the slashes, as it is written.
    Regex(Text),
    /// `vector<T>()`, `set<T>()`, `map<K, V>()`: what is written between the angle brackets.
    Empty(Written),
    /// `self`
    Itself(Standing),
    /// `$$`
    Current(Standing),
    /// A local or a loop variable, by its slot in its body.
    Local(u32),
    /// A parameter, by its number from 0 among those of its function or unit. In a hook its own come first, and those of its unit
    /// behind them.
    Parameter(u32, Standing),
    /// A constant of the list.
    Constant(u32),
    /// An enum of the list, and the number from 0 of the label among its labels.
    Label(u32, u32),
    /// No value: a path of which this identifier names nothing.
    Nothing(Span),
    /// No value: the name of a function of the list.
    Function(u32),
    /// No value: the name of a type, which is this word, or `Void` where it is made of types.
    TypeName(Word),
    /// No value: `filter::Base64Decode`
    Decoder,
    /// No value: the name of a module.
    Module,
    /// No value: the name of a member, behind a dot.
    Name,
}

/// What has one part. A member of a unit has its number from 0 among the unit's members.
#[derive(Clone, Copy)]
pub enum OneOp {
    /// `-`
    Negate,
    /// `!`
    Not,
    /// `~`
    Complement,
    /// `|e|`
    Size,
    /// `cast<T>(e)`: what is written between the angle brackets.
    Cast(Written),
    /// The value, which goes to a target of this wider type.
    Widen,
    /// A field of a unit, by its member's number.
    Field(u32),
    /// A variable of a unit, by its member's number.
    Variable(u32),
    /// A sink of a unit, by its member's number.
    SinkOf(u32),
    /// A range of a bitfield, by its number from 0.
    Bit(u32),
    /// `e?.f`: whether a field is set, by its member's number.
    IsSet(u32),
    /// No value: a member of this name, which the part doesn't have.
    NoMember(Span),
}

/// What has two parts.
#[derive(Clone, Copy)]
pub enum TwoOp {
    /// An operator between two operands.
    Binary(BinaryOp),
    /// An element of a vector, the value of a key of a map, or a key of a set.
    Index,
    /// A member of a tuple, by its number from 0. The second part is the constant index, as it is written.
    Item(u32),
}

/// What a `connect` starts.
#[derive(Clone, Copy)]
pub enum NewOf {
    /// A unit of the list.
    Unit(u32),
    /// The decoder of the library.
    Decoder,
}

/// A method of a unit.
#[derive(Clone, Copy)]
pub enum UnitMethod {
    /// `offset()`
    Offset,
    /// `input()`
    Input,
    /// `set_input(i)`
    SetInput,
    /// `backtrack()`
    Backtrack,
    /// `connect_filter(new F)`
    ConnectFilter,
    /// `forward(bytes)`
    Forward,
    /// `forward_eod()`
    ForwardEod,
}

/// A method of a sink.
#[derive(Clone, Copy)]
pub enum SinkMethod {
    /// `connect(new U)`
    Connect,
    /// `write(data)`
    Write,
    /// `write(data, seq)`
    WriteAt,
    /// `gap(seq, len)`
    Gap,
    /// `skip(seq)`
    Skip,
    /// `close()`
    Close,
    /// `set_initial_sequence_number(n)`
    SetInitial,
}

/// What has any number of parts.
#[derive(Clone, Copy)]
pub enum ManyOp {
    /// `(a, b)`
    Tuple,
    /// `[a, b]`
    Vector,
    /// `set(a, b)`
    Set,
    /// `map(k: v)`: keys and values in turn.
    Map,
    /// A call of a function of the list, with its arguments.
    Call(u32),
    /// `E(n)`, the value of an enum of the list.
    Convert(u32),
    /// `new U(a)`, with its arguments, and the slice of the text where the path stands.
    New(NewOf, Span),
    /// A method of the library. The receiver is the first part, and arguments that were left out are written out. Where the
    /// method changes its receiver, and what this is a member of is neither `self` nor a local, that is kept in this slot.
    Method(Method, Option<u32>),
    /// A method of a unit, and the slice of the text where its name stands. The receiver is the first part.
    OfUnit(UnitMethod, Span),
    /// A method of a sink. The receiver is the first part.
    OfSink(SinkMethod),
    /// No value: arguments behind what can't be called, which is the first part.
    NoCall,
}
