// The code of units.
ghost use Rattle.std.specs.Prelude.{◌≡◌, ◌<◌, [], length, None, OnOk};
ghost use Rattle.sp_meaning.specs.Integers.{last_order, module_order};
ghost use Rattle.sp_code.specs.Programs.{round_of};
ghost use Rattle.sp_code.specs.Shapes.{Round, OfUnit, OfEnding, OfFailing};
ghost use Rattle.sp_code_programs.specs.units.Units.{unit_shape, unit_hook_code, unit_parts_code, unit_code, ending_code, failing_code};
ghost use Rattle.sp_emit.specs.Emitted.{Adds, TurnsTo};
ghost use Rattle.sp_lower_unit.specs.Values.{ValuesFit};
ghost use Rattle.sp_lower_unit.specs.Rounds.{IsOfUnit};

use crate::hooks::{Handed, hooks};
use crate::orders::last_order;
use crate::parts::parts;
use crate::variables::{begin_all, variables};
use sp_base::NoMemory;
use sp_code::{Instr, KindRow, RoundRow};
use sp_emit::Emitter;
use sp_lower_hooks::UnitTables;
use sp_typed_units::Unit;
use sp_words::HookName;

/// The shape at the begin of a part of a unit's code.
fn begin(out: &mut Emitter, unit: u32, round: RoundRow) -> Result<(), NoMemory>
    requires { IsOfUnit round }
    ensures { OnOk result (TurnsTo out.old out.new (unit_shape unit (round_of [] round))) }
{
    let unsigned = out.row(KindRow::Unsigned)?;
    let signed = out.row(KindRow::Signed)?;
    let locals = Vec::from_array(out.allocator(), [unsigned, unsigned, signed])?;
    out.begin(Some(unit), round, locals);
    Ok(())
}

/// The bodies of a hook that each unit has.
fn unit_hook(
    out: &mut Emitter,
    tables: &UnitTables<'_>,
    unit: u32,
    name: HookName,
) -> Result<(), NoMemory>
    requires { unit < length tables.now.list.now.units }
    ensures { (r : Round) → out.old.now ≡ unit_shape unit r → OnOk result (Adds out.old out.new
        (unit_hook_code tables.now.list.now unit (unit_shape unit r) name) (unit_shape unit r)) }
{
    hooks(out, tables.list, Handed::Nothing, tables.bodies(unit, name))
}

/// The byte order of a unit: its own, or that of its module.
fn unit_order(tables: &UnitTables<'_>, unit: &Unit) -> Option<u64>
    ensures { result ≡ last_order (module_order unit.now.«module» None tables.now.list.now.orders)
        unit.now.orders }
{
    last_order(tables.order(unit.module), unit.orders.as_slice())
}

/// What runs once a unit is entered: variables, `%init`, the parts in order, `%done`.
fn unit_parts(
    out: &mut Emitter,
    tables: &UnitTables<'_>,
    number: u32,
    unit: &Unit,
) -> Result<(), NoMemory>
    requires number { number < length tables.now.list.now.units }
    requires values { ValuesFit unit.now.variables }
    requires shape { out.old.now ≡ unit_shape number OfUnit }
    ensures { OnOk result (Adds out.old out.new (unit_parts_code tables.now.list.now (length
        out.old.marks) number unit.now) (unit_shape number OfUnit)) }
{
    let list = tables.list;
    let order = unit_order(tables, unit);
    begin_all(
        out,
        list,
        number,
        unit.members.as_slice(),
        unit.variables.as_slice(),
    )?;
    variables(out, list, number, unit.variables.as_slice())?;
    unit_hook(out, tables, number, HookName::Init)?;
    parts(out, list, number, order, unit.parts.as_slice())?;
    unit_hook(out, tables, number, HookName::Done)
}

/// Appends the code of the parts of a unit of the list, by its number, to what was emitted: its variables, whose literals their
/// types have room for, `%init`, its parts in order, `%done`, and the way behind them. At an error what was emitted is of no use
/// any more.
pub fn unit(
    out: &mut Emitter,
    tables: &UnitTables<'_>,
    number: u32,
    unit: &Unit,
) -> Result<(), NoMemory>
    requires number { number < length tables.now.list.now.units }
    requires values { ValuesFit unit.now.variables }
    ensures { OnOk result (Adds out.old out.new (unit_code tables.now.list.now (length
        out.old.marks) number unit.now) (unit_shape number OfUnit)) }
{
    begin(out, number, RoundRow::Unit)?;
    unit_parts(out, tables, number, unit)?;
    out.emit(Instr::LeaveUnit)
}

/// Appends what runs behind the parts of a unit: `%finally`.
pub fn ending(out: &mut Emitter, tables: &UnitTables<'_>, number: u32) -> Result<(), NoMemory>
    requires { number < length tables.now.list.now.units }
    ensures { OnOk result (Adds out.old out.new (ending_code tables.now.list.now number)
        (unit_shape number OfEnding)) }
{
    begin(out, number, RoundRow::Ending)?;
    unit_hook(out, tables, number, HookName::Finally)?;
    out.emit(Instr::LeaveUnit)
}

/// Appends what runs where the parts of a unit fail: `%error`, and then `%finally`.
pub fn failing(out: &mut Emitter, tables: &UnitTables<'_>, number: u32) -> Result<(), NoMemory>
    requires { number < length tables.now.list.now.units }
    ensures { OnOk result (Adds out.old out.new (failing_code tables.now.list.now number)
        (unit_shape number OfFailing)) }
{
    begin(out, number, RoundRow::Failing)?;
    unit_hook(out, tables, number, HookName::Error)?;
    unit_hook(out, tables, number, HookName::Finally)?;
    out.emit(Instr::LeaveUnit)
}
