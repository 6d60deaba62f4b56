// The code that gives members their values.
ghost use Rattle.std.specs.Prelude.{◌≡◌, OnOk};
ghost use Rattle.sp_methods.specs.Kinds.{Kind};
ghost use Rattle.sp_code_meaning.specs.Units as slots;
ghost use Rattle.sp_code.specs.Shapes.{Shape, push, read_kind};
ghost use Rattle.sp_code_programs.specs.units.Units.{member_code, stored_code, kept_code};
ghost use Rattle.sp_emit.specs.Emitted.{Adds};

use crate::hooks::{push_read, value_slot};
use sp_base::NoMemory;
use sp_code::{Instr, KindRow};
use sp_emit::Emitter;

/// The value on top becomes that of a member of a unit.
pub(crate) fn set_member(out: &mut Emitter, unit: u32, member: u32) -> Result<(), NoMemory>
    ensures { (s : Shape) (k : Kind) → out.old.now ≡ push k s → OnOk result (Adds out.old out.new
        (member_code unit s k member) s) }
{
    out.emit(Instr::SelfUnit)?;
    out.push_row(KindRow::Unit(unit))?;
    out.emit_last(Instr::SetField(member))?;
    out.pop();
    Ok(())
}

/// So does that of a field, unless it has no name.
pub(crate) fn store(out: &mut Emitter, unit: u32, member: Option<u32>) -> Result<(), NoMemory>
    ensures { (s : Shape) (k : Kind) → out.old.now ≡ push k s → OnOk result (Adds out.old out.new
        (stored_code unit s k member) s) }
{
    match member {
        Some(m) => set_member(out, unit, m),
        None => out.emit_last(Instr::Pop),
    }
}

/// The value of the local of `$$` is stored, unless the field has no name.
pub(crate) fn keep(
    out: &mut Emitter,
    unit: u32,
    signed: bool,
    member: Option<u32>,
) -> Result<(), NoMemory>
    ensures { OnOk result (Adds out.old out.new (kept_code unit out.old.now (read_kind signed)
        (slots.value_slot signed) member) out.old.now) }
{
    match member {
        Some(m) => {
            out.emit(Instr::Load(value_slot(signed)))?;
            push_read(out, signed)?;
            set_member(out, unit, m)
        }
        None => Ok(()),
    }
}
