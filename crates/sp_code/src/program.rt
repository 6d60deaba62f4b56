// Compiled programs.
use crate::instr::Instr;
use sp_base::Text;
use sp_value::Values;

/// What a body in the table of bodies is.
#[derive(Drop)]
pub enum BodyOf {
    Function,
    /// A body of a hook: the hook's name, how many of the values that it takes its event tells, and
    /// whether it is one of a foreach hook, which tells if its container goes on.
    Hook { name: Text, told: u32, each: bool },
}

/// A function or a body of a hook.
#[derive(Drop)]
pub struct BodyCode {
    /// The address at which it begins.
    pub start: u32,
    /// How many values it takes. They are its first locals.
    pub takes: u32,
    /// The first values of its other locals.
    pub fresh: Values,
    pub of: BodyOf,
}

/// A unit.
#[derive(Drop)]
pub struct UnitCode {
    /// The address at which it begins.
    pub start: u32,
    /// That of what runs behind its parts.
    pub ending: u32,
    /// That of what runs where its parts fail.
    pub failing: u32,
    /// Whether the bytes from its start on are kept while it is open.
    pub keeps: bool,
    /// How many values it takes. They are its parameters.
    pub takes: u32,
    /// The first values of the locals of its own code.
    pub fresh: Values,
    /// The names of its members.
    pub members: Vec<Text>,
    /// The numbers in the table of kinds of its parameters, its members and its locals.
    pub kinds: UnitKinds,
}

/// Kinds of a unit, by their numbers in the table of kinds.
#[derive(Drop)]
pub struct UnitKinds {
    pub parameters: Vec<u32>,
    pub members: Vec<u32>,
    pub locals: Vec<u32>,
}

/// A kind of values. A number of a kind is that of an earlier one in the table.
#[derive(Drop)]
pub enum KindRow {
    Void,
    Bool,
    Unsigned,
    Signed,
    Bytes,
    Text,
    Iterator,
    /// One unsigned number.
    Only(u64),
    Enum(u32),
    /// A bitfield, and how many ranges it has.
    Bits(u32, u32),
    Unit(u32),
    Tuple(Vec<u32>),
    Vector(u32),
    Set(u32),
    Map(u32, u32),
}

/// A row of numbers of kinds: one on top of those of an earlier row. Rows are counted from 1; the
/// number 0 is that of no numbers.
#[derive(Clone, Copy)]
pub struct StackRow {
    /// The number of the kind on top.
    pub top: u32,
    /// The row below it.
    pub below: u32,
}

/// A construct that is open in a body.
#[derive(Clone, Copy)]
pub enum Opened {
    View,
    /// A `&try` field: the address at which a step back goes on, and the row of the kinds of the
    /// operands there.
    Try(u32, u32),
}

/// A row of open constructs: one inside those of an earlier row. Rows are counted from 1; the number
/// 0 is that of none.
#[derive(Clone, Copy)]
pub struct OpenRow {
    pub opened: Opened,
    /// The row of those round it.
    pub around: u32,
}

/// Of what a shape's body is.
#[derive(Clone, Copy)]
pub enum RoundRow {
    /// The parts of a unit, what runs behind them, and what runs where they fail.
    Unit,
    Ending,
    Failing,
    /// A function, by the kind of its result.
    Function(u32),
    /// A body of a hook, and whether it is one of a foreach hook.
    Hook(bool),
}

/// What stands before an instruction.
#[derive(Clone, Copy)]
pub struct ShapeRow {
    /// The unit at hand, unless it isn't known.
    pub unit: Option<u32>,
    pub round: RoundRow,
    /// The rows of the kinds of the locals, and of the operands, the top first.
    pub locals: u32,
    pub operands: u32,
    /// The row of what is open, the innermost first.
    pub opens: u32,
}

/// The labels of an enum: their numbers, and how they are told.
#[derive(Drop)]
pub struct Labels {
    pub labels: Vec<(u64, Text)>,
}

/// The names of the ranges of a bitfield.
#[derive(Drop)]
pub struct Ranges {
    pub ranges: Vec<Text>,
}

/// The kinds of values of a program, and how they stand before each instruction.
#[derive(Drop)]
pub struct Shapes {
    pub kinds: Vec<KindRow>,
    /// The rows of kinds that stand together, and those of what is open. Shapes share them.
    pub stacks: Vec<StackRow>,
    pub opens: Vec<OpenRow>,
    /// By address.
    pub at: Vec<ShapeRow>,
    /// The kinds of the locals of each body.
    pub bodies: Vec<Vec<u32>>,
    pub enums: Vec<Labels>,
    pub bitfields: Vec<Ranges>,
}

/// A compiled list of modules. Addresses are places in `code`.
#[derive(Drop)]
pub struct Program {
    pub code: Vec<Instr>,
    pub consts: Values,
    pub units: Vec<UnitCode>,
    /// The table of bodies that `Call` and `Hook` enter: functions first, and behind them the
    /// bodies of hooks.
    pub hooks: Vec<BodyCode>,
    pub shapes: Shapes,
}
