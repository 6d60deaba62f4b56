// Declarations of the typed list. A number of a declaration is that in its row of the list, from 0.
use crate::items::Part;
use crate::rare::Rare;
use crate::rows::Row;
use sp_base::{Span, Text};
use sp_typed::{Expr, Stmt, Written};
use sp_types::Type;
use sp_value::Value;
use sp_words::HookName;

/// A parameter of a function, a unit or a hook.
#[derive(Drop)]
pub struct Parameter {
    pub name: Text,
    pub span: Span,
    pub written: Written,
    pub ty: Type,
    pub inout: bool,
}

/// What a member of a unit is.
#[derive(Clone, Copy)]
pub enum MemberKind {
    Field,
    Variable,
    Sink,
}

/// A member of a unit. Fields of one name are one member.
#[derive(Drop)]
pub struct Member {
    pub name: Text,
    pub kind: MemberKind,
    pub ty: Type,
}

/// A variable of a unit.
#[derive(Drop)]
pub struct Variable {
    pub member: u32,
    pub span: Span,
    pub written: Written,
    /// Whether the unit has the name already.
    pub taken: bool,
    pub value: Option<Expr>,
}

/// A sink of a unit.
#[derive(Clone, Copy)]
pub struct Sink {
    pub member: u32,
    pub span: Span,
    /// Whether the unit has the name already.
    pub taken: bool,
}

/// A byte order that a module or a unit has as a property. The last one counts.
#[derive(Drop)]
pub struct OrderProperty {
    pub module: u32,
    /// What is written behind its `=`.
    pub value: Expr,
    /// The number of the order that this is, where it is constant.
    pub number: Option<u64>,
}

/// A unit.
#[derive(Drop)]
pub struct Unit {
    /// Its name behind that of its module, as `M::U`.
    pub path: Text,
    pub module: u32,
    pub span: Span,
    pub public: bool,
    pub parameters: Row<Parameter>,
    pub members: Row<Member>,
    pub variables: Row<Variable>,
    /// In the order of the text.
    pub sinks: Row<Sink>,
    pub parts: Row<Part>,
    /// Its own byte orders, in the order of the text.
    pub orders: Row<OrderProperty>,
    /// Whether it has `%filter`.
    pub filter: bool,
    /// Whether it calls `input`.
    pub uses_input: bool,
    /// Whether it calls `connect_filter`.
    pub connects_filter: bool,
}

/// What a hook is of.
#[derive(Clone, Copy)]
pub enum HookOf {
    /// No unit or field has its name.
    Nothing,
    /// A unit, by number, and its hook of this name.
    Unit(u32, HookName),
    /// A member of a unit.
    Field(u32, u32),
    /// The elements of a member of a unit.
    Elements(u32, u32),
    /// An anonymous field of a unit.
    Anonymous(u32),
    /// The elements of an anonymous field of a unit.
    AnonymousElements(u32),
}

/// A body of a hook.
#[derive(Drop)]
pub struct Hook {
    pub module: u32,
    /// The token behind `on`, or the brace of a hook behind a field.
    pub span: Span,
    pub of: HookOf,
    /// Whether its parameters are those of its hook, and its field is a container where it is of elements.
    pub fits: bool,
    pub parameters: Row<Parameter>,
    pub priority: Rare<Expr>,
    /// The number that its priority is, where it is constant; 0 without one.
    pub rank: Option<i64>,
    /// The types of its locals, by their slots.
    pub slots: Row<Type>,
    pub body: Stmt,
}

/// A function.
#[derive(Drop)]
pub struct Function {
    /// Its name behind that of its module.
    pub path: Text,
    pub module: u32,
    pub span: Span,
    pub parameters: Row<Parameter>,
    /// The type of its result, which is void where it has none.
    pub result: Type,
    pub written: Option<Written>,
    /// The types of its locals, by their slots.
    pub slots: Row<Type>,
    pub body: Stmt,
}

/// What a constant is.
#[derive(Drop)]
pub enum ConstantValue {
    Value(Value),
    /// What stands between the slashes of a regular expression.
    Regex(Text),
    /// It has no value: it is made of itself, is not constant, or its value is an error.
    NotConstant,
    /// Nothing is known of it, since a part of it breaks another rule.
    Unknown,
}

/// A constant.
#[derive(Drop)]
pub struct Constant {
    pub module: u32,
    pub span: Span,
    pub ty: Type,
    pub written: Option<Written>,
    /// What is written behind its `=`.
    pub expr: Expr,
    pub value: ConstantValue,
}

/// What the number of a label is.
#[derive(Clone, Copy)]
pub enum LabelNumber {
    Number(u64),
    /// It has no number: it is made of itself, is not constant, or its value is an error.
    NotConstant,
    /// It would be the one behind the greatest there is.
    Past,
    /// Nothing is known of it, since what it is made of breaks another rule.
    Unknown,
}

/// A label of an enum.
#[derive(Drop)]
pub struct Label {
    pub name: Text,
    pub span: Span,
    /// What is written behind its `=`.
    pub expr: Option<Expr>,
    pub number: LabelNumber,
}

/// An enum. One of the library has no place, and its labels have none.
#[derive(Drop)]
pub struct Enum {
    /// Its name behind that of its module.
    pub path: Text,
    pub module: u32,
    pub span: Span,
    pub labels: Row<Label>,
}

/// A range of bits, both ends included.
#[derive(Drop)]
pub struct BitRange {
    pub name: Text,
    pub span: Span,
    pub from: u64,
    pub from_span: Span,
    pub to: u64,
    pub to_span: Span,
}

/// A bitfield.
#[derive(Drop)]
pub struct Bitfield {
    pub module: u32,
    pub width: u64,
    pub width_span: Span,
    pub ranges: Row<BitRange>,
}

/// A type declaration that is neither a unit nor an enum.
#[derive(Drop)]
pub struct Alias {
    pub module: u32,
    pub written: Written,
    /// Whether it is made of itself.
    pub endless: bool,
}

/// What a `&convert` makes of a value, where it is made of itself by what fields store.
#[derive(Clone, Copy)]
pub struct EndlessConversion {
    pub module: u32,
    pub span: Span,
}

/// The typed list of a list of modules.
#[derive(Drop)]
pub struct Typed {
    pub units: Row<Unit>,
    pub functions: Row<Function>,
    pub hooks: Row<Hook>,
    pub constants: Row<Constant>,
    /// By their numbers: those of the library stand first.
    pub enums: Row<Enum>,
    pub bitfields: Row<Bitfield>,
    pub aliases: Row<Alias>,
    /// In the order of the text.
    pub conversions: Row<EndlessConversion>,
    /// The byte orders of modules.
    pub orders: Row<OrderProperty>,
}
