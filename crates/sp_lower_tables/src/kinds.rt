// The numbers of kinds of values.
ghost use Rattle.std.specs.Prelude.{[], ◌∷◌, length, IfOk, OnOk};
ghost use Rattle.sp_meaning_states.specs.Types.{kind_of_type};
ghost use Rattle.sp_meaning.specs.Globals.{globals_of};
ghost use Rattle.sp_code_programs.specs.programs.Routines.{parameter_kinds, slot_kinds};
ghost use Rattle.sp_code_programs.specs.programs.Units.{member_kinds};
ghost use Rattle.sp_code.specs.Programs.{kind_of_row};
ghost use Rattle.sp_emit.specs.Kinds.{NamesBelow};
ghost use Rattle.sp_lower_tables.specs.Numbers.{GivesNumber, AddsNumbers};

use sp_base::NoMemory;
use sp_code::KindRow;
use sp_emit::Emitter;
use sp_typed_units::{Member, Parameter, Typed};
use sp_types::Type;

/// The number of the kind of a type.
pub fn type_number(out: &mut Emitter, list: &Typed, ty: &Type) -> Result<u32, NoMemory>
    ensures { IfOk result (GivesNumber out.old out.new (kind_of_type (globals_of list.now).ranges
        ty.now)) }
{
    out.kind(list.bitfields.as_slice(), ty)
}

/// The number of the kind of a row, whose parts have numbers already.
pub fn row_number(out: &mut Emitter, row: KindRow) -> Result<u32, NoMemory>
    requires { NamesBelow (length out.old.kinds) row }
    ensures { IfOk result (GivesNumber out.old out.new (kind_of_row out.old.kinds row)) }
{
    out.row(row)
}

/// One more number: that of the kind of a type.
fn add_type(
    out: &mut Emitter,
    list: &Typed,
    ty: &Type,
    numbers: &mut Vec<u32>,
) -> Result<(), NoMemory>
    ensures { OnOk result (AddsNumbers out.old out.new numbers.old.items numbers.new.items
        (kind_of_type (globals_of list.now).ranges ty.now ∷ [])) }
{
    let number = type_number(out, list, ty)?;
    numbers.push(number)?;
    Ok(())
}

/// The numbers of the kinds of parameters are added to others.
pub fn add_parameters(
    out: &mut Emitter,
    list: &Typed,
    parameters: &[Parameter],
    numbers: &mut Vec<u32>,
) -> Result<(), NoMemory>
    ensures { OnOk result (AddsNumbers out.old out.new numbers.old.items numbers.new.items
        (parameter_kinds (globals_of list.now).ranges parameters.now)) }
{
    for parameter in parameters {
        add_type(out, list, &parameter.ty, numbers)?;
    }
    Ok(())
}

/// Those of the kinds of slots of these types.
pub fn add_types(
    out: &mut Emitter,
    list: &Typed,
    types: &[Type],
    numbers: &mut Vec<u32>,
) -> Result<(), NoMemory>
    ensures { OnOk result (AddsNumbers out.old out.new numbers.old.items numbers.new.items
        (slot_kinds (globals_of list.now).ranges types.now)) }
{
    for ty in types {
        add_type(out, list, ty, numbers)?;
    }
    Ok(())
}

/// Those of the kinds of members.
pub fn add_members(
    out: &mut Emitter,
    list: &Typed,
    members: &[Member],
    numbers: &mut Vec<u32>,
) -> Result<(), NoMemory>
    ensures { OnOk result (AddsNumbers out.old out.new numbers.old.items numbers.new.items
        (member_kinds (globals_of list.now).ranges members.now)) }
{
    for member in members {
        add_type(out, list, &member.ty, numbers)?;
    }
    Ok(())
}
