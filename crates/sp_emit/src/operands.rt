// What is done with operands as code grows.
ghost use Rattle.std.specs.Prelude.{◌≡◌, [], ◌∷◌, length, OnOk};
ghost use Rattle.sp_meaning_states.specs.Types.{kind_of_type};
ghost use Rattle.sp_meaning.specs.Globals.{range_counts};
ghost use Rattle.sp_code.specs.Programs.{kind_at, kind_of_row};
ghost use Rattle.sp_code.specs.Shapes.{push};
ghost use Rattle.sp_code_programs.specs.exprs.Marked.{mark};
ghost use Rattle.sp_emit.specs.Kinds.{NamesBelow};
ghost use Rattle.sp_emit.specs.Emitted.{Adds, TurnsTo, IsOther, popped};

use crate::emitter::Emitter;
use sp_base::NoMemory;
use sp_code::{Instr, KindRow};
use sp_typed_units::Bitfield;
use sp_types::Type;

impl Emitter {
    /// One more operand, of the kind of a type.
    pub fn push_type(&mut self, bitfields: &[Bitfield], ty: &Type) -> Result<(), NoMemory>
        ensures { OnOk result (TurnsTo self.old self.new (push (kind_of_type
            (range_counts bitfields.now) ty.now) self.old.now)) }
    {
        let n = self.kind(bitfields, ty)?;
        self.push(n)
    }

    /// One more operand, of the kind of a row, whose parts have numbers already.
    pub fn push_row(&mut self, row: KindRow) -> Result<(), NoMemory>
        requires { NamesBelow (length self.old.kinds) row }
        ensures { OnOk result (TurnsTo self.old self.new (push (kind_of_row self.old.kinds row)
            self.old.now)) }
    {
        let n = self.row(row)?;
        self.push(n)
    }

    /// One more operand, of the kind of a local, or void where there is no such local.
    pub fn push_local(&mut self, l: u32) -> Result<(), NoMemory>
        ensures { OnOk result (TurnsTo self.old self.new (push (kind_at self.old.now.locals l)
            self.old.now)) }
    {
        match self.local_kind(l) {
            Some(n) => self.push(n),
            None => self.push_row(KindRow::Void),
        }
    }

    /// One more instruction, behind which the last operand is gone.
    pub fn emit_last(&mut self, instr: Instr) -> Result<(), NoMemory>
        requires { IsOther instr }
        ensures { OnOk result (Adds self.old self.new (mark self.old.now instr ∷ [])
            (popped self.old.now)) }
    {
        self.emit(instr)?;
        self.pop();
        Ok(())
    }
}
