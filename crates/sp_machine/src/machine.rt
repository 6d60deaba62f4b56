// What a machine keeps, and how it goes on.
ghost use Rattle.std.specs.Prelude.{◌≡◌, ◌+◌, ◌<◌, ◌^◌, [], ◌∷◌, reverse, OnOk};
ghost use Rattle.sp_meaning_states.specs.States.{Failed, error_at};
ghost use Rattle.sp_code.specs.Machine.{At, Ending};
ghost use Rattle.sp_machine.specs.declared.machine.Mode.TheVariants.{Running};
ghost use Rattle.sp_machine.specs.Plain.{first, state_of, plain};

use sp_base::{NoMemory, PKind, ParseError};
use sp_frames::{Instance, Operands, Spare, Stack};
use sp_value::Value;
use std::alloc::Global;

/// How a machine goes on.
#[derive(Drop)]
pub enum Mode {
    /// At an instruction.
    Running,
    /// It takes the frame of a unit off, which has ended well.
    Leaving,
    /// It takes the frame of a body off, which returns this value.
    Returning(Value),
    /// It takes frames off by an error.
    Failing(ParseError),
}

/// What a step answers.
#[derive(Clone, Copy)]
pub enum Stop {
    GoesOn,
    /// The instruction lacks bytes that may still come.
    Need,
    /// The outermost body has ended, as the mode tells.
    Over,
}

/// A machine between two steps.
#[derive(Drop)]
pub struct Machine {
    pub mode: Mode,
    /// The address of the instruction at hand.
    pub pc: usize,
    pub operands: Operands,
    pub stack: Stack,
    pub locals: Vec<Value>,
    /// The number of the instance at hand.
    pub own: usize,
    pub instances: Vec<Instance>,
    /// The place of the next byte, and the highest place so far.
    pub place: u64,
    pub high: u64,
    /// The turns since that place rose.
    pub count: u64,
    /// How many units and functions are open.
    pub depth: u32,
    pub(crate) spare: Spare,
}

impl Machine {
    /// A machine before an instruction, with these operands, the last of them on top, that has run nothing. Takes no
    /// memory.
    pub fn start(alloc: Global, at: usize, operands: Vec<Value>) -> Machine
        ensures { plain result ≡ At at (reverse operands.items) [] first }
    {
        Machine {
            mode: Mode::Running,
            pc: at,
            operands: Operands::new(operands),
            stack: Stack::new(alloc),
            locals: Vec::new(alloc),
            own: 0,
            instances: Vec::new(alloc),
            place: 0,
            high: 0,
            count: 0,
            depth: 0,
            spare: Spare::new(alloc),
        }
    }

    pub(crate) fn alloc(&self) -> Global {
        *self.locals.allocator()
    }

    /// Changes how the machine goes on.
    #[inline(always)]
    pub(crate) fn set_mode(&mut self, mode: Mode)
        ensures { self.new ≡ record self.old { mode = mode } }
    {
        self.mode = mode;
    }

    /// Ends an instruction that gives a value.
    #[inline(always)]
    pub(crate) fn push_next(&mut self, value: Value) -> Result<(), NoMemory>
        requires running { self.old.mode ≡ Running }
        requires within { self.old.pc + 1 < 2 ^ 64 }
        ensures { OnOk result (plain self.new ≡ At (self.old.pc + 1) (value ∷ self.old.operands)
            self.old.stack (state_of self.old)) }
    {
        self.operands.push(value)?;
        self.pc += 1;
        Ok(())
    }

    /// Ends an instruction that fails.
    pub(crate) fn fails(&mut self, kind: PKind)
        ensures { plain self.new ≡ Ending (Failed (error_at kind (state_of self.old))) self.old.stack
            (state_of self.old) }
    {
        let offset = self.place;
        self.set_mode(Mode::Failing(ParseError {
            kind,
            offset,
            text: None,
        }));
    }
}
