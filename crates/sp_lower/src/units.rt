// The code of units, and their entries.
ghost use Rattle.std.specs.Prelude.{◌≡◌, ◌<◌, [], ◌∷◌, length, IfOk, OnOk};
ghost use Rattle.std.specs.List.{AllByRecursion};
ghost use Rattle.sp_meaning.specs.Globals.{globals_of};
ghost use Rattle.sp_code_programs.specs.units.Units.{slot_kinds};
ghost use Rattle.sp_code_programs.specs.programs.Routines.{parameter_kinds};
ghost use Rattle.sp_code_programs.specs.programs.Units.{member_kinds};
ghost use Rattle.sp_lower_tables.specs.Numbers.{GivesNumbers};
ghost use Rattle.sp_lower.specs.Literals.{UnitFits};
ghost use Rattle.sp_lower.specs.inside.Units.{GivesKinds, IsEntryOf, LaysUnit, LaysUnits};

use crate::values::unit_slots;
use sp_base::NoMemory;
use sp_code::{KindRow, UnitCode, UnitKinds};
use sp_emit::{Emitter, number};
use sp_lower_expr::sum;
use sp_lower_hooks::UnitTables;
use sp_lower_tables::{add_members, add_parameters, member_names, row_number};
use sp_lower_unit::{ending, failing, unit};
use sp_typed_units::{Typed, Unit};
use std::alloc::Global;

/// The numbers of the kinds of the locals of a unit's own code.
fn local_numbers(out: &mut Emitter) -> Result<Vec<u32>, NoMemory>
    ensures { IfOk result (λ ns. GivesNumbers out.old out.new slot_kinds ns.items) }
{
    let unsigned = row_number(out, KindRow::Unsigned)?;
    let signed = row_number(out, KindRow::Signed)?;
    let numbers = Vec::from_array(out.allocator(), [unsigned, unsigned, signed])?;
    Ok(numbers)
}

fn parameter_numbers(out: &mut Emitter, list: &Typed, x: &Unit) -> Result<Vec<u32>, NoMemory>
    ensures { IfOk result (λ ns. GivesNumbers out.old out.new (parameter_kinds
        (globals_of list.now).ranges x.now.parameters) ns.items) }
{
    let mut numbers = Vec::new(out.allocator());
    add_parameters(out, list, x.parameters.as_slice(), &mut numbers)?;
    Ok(numbers)
}

fn member_numbers(out: &mut Emitter, list: &Typed, x: &Unit) -> Result<Vec<u32>, NoMemory>
    ensures { IfOk result (λ ns. GivesNumbers out.old out.new (member_kinds
        (globals_of list.now).ranges x.now.members) ns.items) }
{
    let mut numbers = Vec::new(out.allocator());
    add_members(out, list, x.members.as_slice(), &mut numbers)?;
    Ok(numbers)
}

/// The kinds of a unit, by their numbers.
fn kinds_of_unit(out: &mut Emitter, list: &Typed, x: &Unit) -> Result<UnitKinds, NoMemory>
    ensures { IfOk result (GivesKinds (globals_of list.now).ranges out.old out.new x.now) }
{
    let parameters = parameter_numbers(out, list, x)?;
    let members = member_numbers(out, list, x)?;
    let locals = local_numbers(out)?;
    Ok(UnitKinds {
        parameters,
        members,
        locals,
    })
}

/// The addresses of the parts of a unit's code.
#[derive(Clone, Copy)]
pub(crate) struct Addresses {
    /// That at which its parts begin.
    pub(crate) start: u32,
    /// That of what runs behind them.
    pub(crate) ending: u32,
    /// That of what runs where they fail.
    pub(crate) failing: u32,
}

/// Appends all code of a unit, by its number.
fn whole_unit(
    out: &mut Emitter,
    tables: &UnitTables<'_>,
    u: u32,
    x: &Unit,
) -> Result<Addresses, NoMemory>
    requires number { u < length tables.now.list.now.units }
    requires literals { UnitFits x.now }
    ensures { IfOk result (LaysUnit tables.now.list.now out.old out.new u x.now) }
{
    let start = out.address()?;
    unit(out, tables, u, x)?;
    let ending_at = out.address()?;
    ending(out, tables, u)?;
    let failing_at = out.address()?;
    failing(out, tables, u)?;
    Ok(Addresses {
        start,
        ending: ending_at,
        failing: failing_at,
    })
}

/// The entry of a unit whose code begins at these addresses.
fn entry_of(alloc: Global, at: Addresses, kinds: UnitKinds, x: &Unit) -> Result<UnitCode, NoMemory>
    ensures { IfOk result (IsEntryOf at kinds x.now) }
{
    let takes = number(x.parameters.as_slice().len())?;
    let fresh = unit_slots(alloc)?;
    let members = member_names(alloc, x.members.as_slice())?;
    Ok(UnitCode {
        start: at.start,
        ending: at.ending,
        failing: at.failing,
        keeps: x.uses_input,
        takes,
        fresh,
        members,
        kinds,
    })
}

/// Lays out a unit of the list, by its number, behind other code.
fn lay_unit(
    out: &mut Emitter,
    tables: &UnitTables<'_>,
    entries: &mut Vec<UnitCode>,
    u: u32,
    x: &Unit,
) -> Result<(), NoMemory>
    requires number { u < length tables.now.list.now.units }
    requires literals { UnitFits x.now }
    ensures { OnOk result (LaysUnits tables.now.list.now out.old entries.old.items out.new
        entries.new.items u (x.now ∷ [])) }
{
    let kinds = kinds_of_unit(out, tables.list, x)?;
    let at = whole_unit(out, tables, u, x)?;
    let entry = entry_of(out.allocator(), at, kinds, x)?;
    entries.push(entry)?;
    Ok(())
}

/// Lays out units of the list, by their numbers, behind other code.
fn lay_units(
    out: &mut Emitter,
    tables: &UnitTables<'_>,
    entries: &mut Vec<UnitCode>,
    all: &[Unit],
) -> Result<(), NoMemory>
    requires all { all.now ≡ tables.now.list.now.units }
    requires literals { AllByRecursion UnitFits all.now }
    ensures { OnOk result (LaysUnits tables.now.list.now out.old entries.old.items out.new
        entries.new.items 0 all.now) }
{
    let mut u: u32 = 0;
    for i in 0..all.len() {
        lay_unit(out, tables, entries, u, &all[i])?;
        let next = sum(u, 1)?;
        u = next;
    }
    Ok(())
}

/// Lays out all units of a list behind other code, and answers their entries.
pub(crate) fn all_units(out: &mut Emitter, list: &Typed) -> Result<Vec<UnitCode>, NoMemory>
    requires { AllByRecursion UnitFits list.now.units }
    ensures { IfOk result (λ entries. LaysUnits list.now out.old [] out.new entries.items 0
        list.now.units) }
{
    let alloc = out.allocator();
    let tables = UnitTables::new(alloc, list)?;
    let mut entries = Vec::new(alloc);
    lay_units(out, &tables, &mut entries, list.units.as_slice())?;
    Ok(entries)
}
