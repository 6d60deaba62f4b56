// Open constructs.
use crate::operands::Operands;
use sp_base::ParseError;
use sp_value::Values;

/// What is called: a function; a body of a hook, and whether it is one of a foreach hook; or a body of a
/// hook of a unit that fails, whose own error is dropped.
#[derive(Clone, Copy)]
pub enum Callee {
    Function,
    Hook { each: bool },
    FailingHook,
}

/// An open construct, with what is outside it: the number of the instance at hand, the locals, the address
/// at which the code goes on behind it, and the operands below its value.
#[derive(Drop)]
pub enum Frame {
    /// A unit: whether the bytes from its start on are kept, the number of its instance, and its start.
    Unit {
        keeps: bool,
        instance: u64,
        start: u64,
        own: u64,
        locals: Values,
        to: u64,
        operands: Operands,
    },
    /// The parts of a unit: the addresses of what runs where they fail, and of what runs behind them.
    Parts {
        failing: u64,
        ending: u64,
    },
    /// A unit that fails, with its error, while its hooks for that run.
    Failing {
        error: ParseError,
        ending: u64,
    },
    /// A body that is called.
    Call {
        callee: Callee,
        own: u64,
        locals: Values,
        to: u64,
        operands: Operands,
    },
}
