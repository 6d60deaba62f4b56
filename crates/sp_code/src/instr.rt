// The instructions.
ghost use Rattle.std.specs.Prelude.{◌≡◌};
ghost use Rattle.sp_code.specs.Numbers.{instr_number};

use sp_base::PKind;
use sp_numbers::Width;
use sp_operators::PlainType;
use sp_words::{BinaryOp, Method, UnaryOp};

/// How an integer stands in the input.
#[derive(Clone, Copy)]
pub struct IntForm {
    pub width: Width,
    pub signed: bool,
    /// Whether its first byte counts least.
    pub little: bool,
}

/// One instruction. An address is the place of an instruction in the code, from 0. `Operands` are
/// the stack of values of the body that runs; what an instruction takes stands on top of it.
#[derive(Clone, Copy)]
pub enum Instr {
    /// Gives a constant.
    Const(u32),
    /// Gives a local.
    Load(u32),
    /// Takes a value, which becomes a local's.
    Store(u32),
    /// Gives a parameter of the unit at hand.
    Param(u32),
    /// Gives the unit at hand.
    SelfUnit,
    /// Takes a unit; gives a member, which is set.
    GetField(u32),
    /// Takes a unit; gives whether a member is set.
    HasField(u32),
    /// Takes a unit, and a value below it, which becomes a member's.
    SetField(u32),
    Unary(UnaryOp),
    Binary(BinaryOp),
    Cast(PlainType),
    /// Takes so many values; gives a tuple, a vector or a set of them.
    MakeTuple(u32),
    MakeVector(u32),
    MakeSet(u32),
    /// Takes so many keys and values in turn; gives a map.
    MakeMap(u32),
    /// Takes a key and a container below it; gives the item.
    Index,
    /// Takes a value, a key and a container; gives the container with the value there.
    SetIndex,
    /// Takes a value; gives how many bytes, characters, items, keys or entries it has.
    Size,
    /// Takes the operands of a method; gives what it makes of them.
    Lib(Method),
    /// Takes a key and a set below it; gives the set with the key.
    AddKey,
    /// Takes a key and a set or a map below it; gives it without the key.
    DeleteKey,
    Pop,
    /// Copies the two values on top: a key, and a container below it.
    Dup,
    /// Puts the value below the top one under so many more.
    Under(u32),
    Jump(u32),
    /// Takes a Boolean, and goes to the address where it is false.
    JumpNot(u32),
    /// Calls a function, an entry of the table of bodies, with the values that it takes.
    Call(u32),
    /// Takes the value with which the body returns; that of a hook's body is dropped.
    Return,
    /// Counts a turn.
    Turn,
    /// Puts the number 0 on a container, over which a loop goes.
    EachStart,
    /// Takes a number and a container below it; gives both, the number one more, and the member on
    /// top, and counts a turn; or goes to the address without them where no member is left.
    EachNext(u32),
    /// Takes so many values, and tells them.
    Print(u32),
    /// Takes a text, or void for none, and a Boolean below it.
    Assert,
    /// Takes a text.
    Throw,
    Fail(PKind),
    /// Enters a unit with the values that it takes; gives its instance.
    EnterUnit(u32),
    LeaveUnit,
    /// Runs a body of a hook, an entry of the table of bodies, with the values that it takes; that
    /// of a foreach hook gives whether its container goes on.
    Hook(u32),
    /// Takes a unit; gives how far the place is behind its start.
    Offset,
    /// Gives the integer at the place.
    ReadInt(IntForm),
}

impl Instr {
    /// Its number in the list of all instructions, some of which aren't there yet.
    pub fn number(self) -> u8
        ensures { result ≡ instr_number self }
    {
        match self {
            Instr::Const(_) => 0,
            Instr::Load(_) => 1,
            Instr::Store(_) => 2,
            Instr::Param(_) => 3,
            Instr::SelfUnit => 4,
            Instr::GetField(_) => 5,
            Instr::HasField(_) => 6,
            Instr::SetField(_) => 7,
            Instr::Unary(_) => 8,
            Instr::Binary(_) => 9,
            Instr::Cast(_) => 10,
            Instr::MakeTuple(_) => 11,
            Instr::MakeVector(_) => 12,
            Instr::MakeSet(_) => 13,
            Instr::MakeMap(_) => 14,
            Instr::Index => 15,
            Instr::SetIndex => 16,
            Instr::Size => 17,
            Instr::Lib(_) => 18,
            Instr::AddKey => 19,
            Instr::DeleteKey => 20,
            Instr::Pop => 21,
            Instr::Dup => 22,
            Instr::Under(_) => 76,
            Instr::Jump(_) => 23,
            Instr::JumpNot(_) => 24,
            Instr::Call(_) => 25,
            Instr::Return => 26,
            Instr::Turn => 27,
            Instr::EachStart => 28,
            Instr::EachNext(_) => 29,
            Instr::Print(_) => 30,
            Instr::Assert => 31,
            Instr::Throw => 32,
            Instr::Fail(_) => 33,
            Instr::EnterUnit(_) => 34,
            Instr::LeaveUnit => 35,
            Instr::Hook(_) => 36,
            Instr::Offset => 37,
            Instr::ReadInt(_) => 46,
        }
    }
}
