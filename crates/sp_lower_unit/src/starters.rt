// The code that a machine begins with.
ghost use Rattle.std.specs.Prelude.{[], OnOk, None};
ghost use Rattle.sp_methods.specs.Kinds.{UnitOf};
ghost use Rattle.sp_meaning.specs.Globals.{globals_of};
ghost use Rattle.sp_code.specs.Shapes.{OfFunction, with_operands, push, body_shape};
ghost use Rattle.sp_code_programs.specs.units.Units.{kinds_over, starter_code};
ghost use Rattle.sp_emit.specs.Emitted.{Adds, TurnsTo};

use sp_base::NoMemory;
use sp_code::{Instr, KindRow, RoundRow};
use sp_emit::Emitter;
use sp_typed_units::{Parameter, Typed, Unit};

/// The shape at the begin of a function that returns a unit and has no locals.
fn begin(out: &mut Emitter, unit: u32) -> Result<(), NoMemory>
    ensures { OnOk result (TurnsTo out.old out.new (body_shape None (OfFunction (UnitOf unit))
        [])) }
{
    let kind = out.row(KindRow::Unit(unit))?;
    let locals = Vec::new(out.allocator());
    out.begin(None, RoundRow::Function(kind), locals);
    Ok(())
}

/// The operands with which a machine begins: the values of parameters, the last on top.
fn operands(out: &mut Emitter, list: &Typed, parameters: &[Parameter]) -> Result<(), NoMemory>
    ensures { OnOk result (TurnsTo out.old out.new (with_operands out.old.now (kinds_over
        (globals_of list.now).ranges parameters.now out.old.now.operands))) }
{
    for parameter in parameters {
        out.push_type(list.bitfields.as_slice(), &parameter.ty)?;
    }
    Ok(())
}

/// Appends a starter of a unit, by its number: what a machine runs that begins with the unit's parameters as operands. At an
/// error what was emitted is of no use any more.
pub fn starter(out: &mut Emitter, list: &Typed, number: u32, unit: &Unit) -> Result<(), NoMemory>
    ensures { OnOk result (Adds out.old out.new (starter_code list.now number unit.now) (push
        (UnitOf number) (body_shape None (OfFunction (UnitOf number)) []))) }
{
    begin(out, number)?;
    operands(out, list, unit.parameters.as_slice())?;
    out.emit(Instr::EnterUnit(number))?;
    out.lower(0);
    out.push_row(KindRow::Unit(number))?;
    out.emit(Instr::Return)
}
