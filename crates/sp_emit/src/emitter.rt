// Programs as they grow.
use crate::emission::{Emission, apart};
use crate::here::Here;
use crate::kinds::{KindTable, number};
use sp_base::NoMemory;
use sp_code::{Instr, KindRow, RoundRow, ShapeRow};
use sp_typed_units::Bitfield;
use sp_types::Type;
use sp_value::{Value, Values};
use std::alloc::Global;
use std::marker::Model;

/// An instruction, and the shape before it.
#[derive(Drop)]
pub(crate) struct Step {
    pub before: ShapeRow,
    pub instr: Instr,
}

/// The code of a program as it grows, with its constants and kinds, and the shape to which it has led. Clauses see the code
/// with the shapes before it.
#[derive(Drop)]
pub struct Emitter {
    steps: Vec<Step>,
    consts: Vec<Value>,
    kinds: KindTable,
    here: Here,
}

impl Model for Emitter {
    ghost use Rattle.std.specs.Coded.{codes};
    ghost use Rattle.sp_value.specs.inside.Codes.{coded_val};
    ghost use Rattle.sp_emit.specs.inside.KindCodes.{coded_kind};
    ghost use Rattle.sp_emit.specs.Emitted.{Emitted};

    ghost Value = { Emitted };

    ghost coded = { Prim.hlevel (codes, coded_val, coded_kind) };

    ghost use Rattle.sp_emit.specs.inside.Fields.{emitted_in, IsEmitter};

    ghost view = { emitted_in };

    ghost invariant = { IsEmitter };
}

impl Emitter {
    ghost use Rattle.std.specs.Prelude.{◌≡◌, ◌<◌, [], ◌∷◌, length, IfOk, OnOk, IfSome, IfNone};
    ghost use Rattle.std.specs.List.{AllByRecursion};
    ghost use Rattle.sp_methods.specs.Kinds.{Void};
    ghost use Rattle.sp_meaning_states.specs.Types.{kind_of_type};
    ghost use Rattle.sp_meaning.specs.Globals.{range_counts};
    ghost use Rattle.sp_code.specs.Programs.{kind_at, kind_of_row, kinds_at, round_of};
    ghost use Rattle.sp_code.specs.Shapes.{push, body_shape};
    ghost use Rattle.sp_code_programs.specs.exprs.Marked.{mark, constant};
    ghost use Rattle.sp_emit.specs.Kinds.{IsNumberOf, NamesBelow};
    ghost use Rattle.sp_emit.specs.Numbered.{RoundBelow};
    ghost use Rattle.sp_emit.specs.Emission.{IsEmission};
    ghost use Rattle.sp_emit.specs.Emitted.{Adds, TurnsTo, Redirects, IsOther, nothing_emitted, popped, lowered};

    /// No code. Takes no memory.
    pub fn new(alloc: Global) -> Emitter
        ensures { result ≡ nothing_emitted }
    {
        Emitter {
            steps: Vec::new(alloc),
            consts: Vec::new(alloc),
            kinds: KindTable::new(alloc),
            here: Here::new(alloc),
        }
    }

    /// The allocator of what it holds.
    pub fn allocator(&self) -> Global {
        *self.steps.allocator()
    }

    /// The address of the next instruction.
    pub fn address(&self) -> Result<u32, NoMemory>
        ensures { IfOk result (λ n. n ≡ length self.now.marks) }
    {
        number(self.steps.len())
    }

    /// One more instruction, which gives no constant.
    pub fn emit(&mut self, instr: Instr) -> Result<(), NoMemory>
        requires { IsOther instr }
        ensures { OnOk result (Adds self.old self.new (mark self.old.now instr ∷ [])
            self.old.now) }
    {
        let before = self.here.row()?;
        self.steps.push(Step { before, instr })?;
        Ok(())
    }

    /// One more instruction, which gives a value.
    pub fn constant(&mut self, value: Value) -> Result<(), NoMemory>
        ensures { OnOk result (Adds self.old self.new (constant self.old.now value ∷ [])
            self.old.now) }
    {
        let instr = Instr::Const(number(self.consts.len())?);
        let before = self.here.row()?;
        self.consts.push(value)?;
        self.steps.push(Step { before, instr })?;
        Ok(())
    }

    /// Another instruction, which gives no constant, in place of the one at an address, as a jump whose end is known now.
    pub fn redirect(&mut self, at: u32, instr: Instr)
        requires { IsOther instr }
        ensures { Redirects self.old self.new at instr }
    {
        let at = at as usize;
        if at < self.steps.len() {
            self.steps[at].instr = instr;
        }
    }

    /// The number of the kind of a type.
    pub fn kind(&mut self, bitfields: &[Bitfield], ty: &Type) -> Result<u32, NoMemory>
        ensures number { IfOk result (IsNumberOf self.new.kinds (kind_of_type
            (range_counts bitfields.now) ty.now)) }
        ensures same { TurnsTo self.old self.new self.old.now }
    {
        self.kinds.kind(bitfields, ty)
    }

    /// The number of the kind of a row, whose parts have numbers already.
    pub fn row(&mut self, row: KindRow) -> Result<u32, NoMemory>
        requires { NamesBelow (length self.old.kinds) row }
        ensures number { IfOk result (IsNumberOf self.new.kinds (kind_of_row self.old.kinds row)) }
        ensures same { TurnsTo self.old self.new self.old.now }
    {
        self.kinds.row(row)
    }

    /// One more operand, of the kind with this number.
    pub fn push(&mut self, n: u32) -> Result<(), NoMemory>
        requires { n < length self.old.kinds }
        ensures { OnOk result (TurnsTo self.old self.new (push (kind_at self.old.kinds n)
            self.old.now)) }
    {
        self.here.push(n)?;
        Ok(())
    }

    /// The number of the kind of a local, where there is such a local.
    pub(crate) fn local_kind(&self, l: u32) -> Option<u32>
        ensures some { IfSome result (IsNumberOf self.now.kinds (kind_at self.now.now.locals l)) }
        ensures none { IfNone result (kind_at self.now.now.locals l ≡ Void) }
    {
        self.here.local(l)
    }

    /// The last operand is gone.
    pub fn pop(&mut self)
        ensures { TurnsTo self.old self.new (popped self.old.now) }
    {
        self.here.pop();
    }

    /// How many operands there are.
    pub fn depth(&self) -> usize
        ensures { result ≡ length self.now.now.operands }
    {
        self.here.depth()
    }

    /// Only so many operands are left.
    pub fn lower(&mut self, depth: usize)
        ensures { TurnsTo self.old self.new (lowered depth self.old.now) }
    {
        self.here.lower(depth);
    }

    /// The shape at the begin of a body, whose locals are of the kinds with these numbers.
    pub fn begin(&mut self, unit: Option<u32>, round: RoundRow, locals: Vec<u32>)
        requires round { RoundBelow (length self.old.kinds) round }
        requires locals { AllByRecursion (λ n. n < length self.old.kinds) locals.items }
        ensures { TurnsTo self.old self.new (body_shape unit (round_of self.old.kinds round)
            (kinds_at self.old.kinds locals.items)) }
    {
        self.here.begin(unit, round, locals);
    }

    /// What was emitted, as parts of a program.
    pub fn finish(self) -> Result<Emission, NoMemory>
        ensures { IfOk result (IsEmission self) }
    {
        let alloc = self.allocator();
        let Emitter {
            steps,
            consts,
            kinds,
            here,
        } = self;
        let (code, at) = apart(alloc, steps)?;
        Ok(Emission {
            code,
            consts: Values::new(consts),
            kinds: kinds.into_rows(),
            stacks: here.into_rows(),
            opens: Vec::new(alloc),
            at,
        })
    }
}
