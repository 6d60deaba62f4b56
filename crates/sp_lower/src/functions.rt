// The code of functions.
ghost use Rattle.std.specs.Prelude.{◌≡◌, [], ◌∷◌, ◌++◌, IfOk, OnOk};
ghost use Rattle.std.specs.List.{AllByRecursion};
ghost use Rattle.sp_meaning_states.specs.Types.{zero_value, kind_of_type};
ghost use Rattle.sp_meaning.specs.Globals.{globals_of};
ghost use Rattle.sp_code_meaning.specs.Calls.{function_layout};
ghost use Rattle.sp_code_programs.specs.units.Bodies.{function_entry};
ghost use Rattle.sp_lower_expr.specs.Around.{layout_of};
ghost use Rattle.sp_code_programs.specs.programs.Routines.{parameter_kinds, slot_kinds, function_shape, function_routine, function_routines};
ghost use Rattle.sp_lower_tables.specs.Numbers.{GivesNumbers};
ghost use Rattle.sp_lower.specs.Literals.{FunctionFits};
ghost use Rattle.sp_lower.specs.inside.Laid.{entry_of, GivesFrame, Lays};

use crate::bodies::{Bodies, lay};
use crate::values::{first_value, first_values};
use sp_base::NoMemory;
use sp_code::{BodyCode, BodyOf, RoundRow};
use sp_emit::{Emitter, number};
use sp_lower_expr::{Around, Places};
use sp_lower_stmt::Frame;
use sp_lower_tables::{add_parameters, add_types, type_number};
use sp_typed_units::{Function, Typed};
use std::alloc::Global;

fn function_places(x: &Function) -> Result<Places, NoMemory>
    ensures { IfOk result (λ places. layout_of places ≡ function_layout x.now) }
{
    let own = number(x.parameters.as_slice().len())?;
    Ok(Places {
        own,
        current: 0,
        offset: None,
        first: own,
    })
}

/// The entry of a function, but for the address of its code.
fn function_entry(alloc: Global, list: &Typed, x: &Function) -> Result<BodyCode, NoMemory>
    ensures { IfOk result (λ entry. entry_of entry ≡ function_entry (globals_of list.now) 0 x.now) }
{
    let takes = number(x.parameters.as_slice().len())?;
    let fresh = first_values(alloc, list, x.slots.as_slice())?;
    Ok(BodyCode {
        start: 0,
        takes,
        fresh,
        of: BodyOf::Function,
    })
}

/// The numbers of the kinds of a function's locals: its parameters, and behind them its slots.
fn function_locals(out: &mut Emitter, list: &Typed, x: &Function) -> Result<Vec<u32>, NoMemory>
    ensures { IfOk result (λ ns. GivesNumbers out.old out.new (parameter_kinds
        (globals_of list.now).ranges x.now.parameters ++ slot_kinds (globals_of list.now).ranges
        x.now.slots) ns.items) }
{
    let mut locals = Vec::new(out.allocator());
    add_parameters(out, list, x.parameters.as_slice(), &mut locals)?;
    add_types(out, list, x.slots.as_slice(), &mut locals)?;
    Ok(locals)
}

/// What a function begins and ends with.
fn function_frame(out: &mut Emitter, list: &Typed, x: &Function) -> Result<Frame, NoMemory>
    ensures { IfOk result (GivesFrame out.old out.new (function_shape (globals_of list.now) x.now)
        (zero_value (globals_of list.now).ranges x.now.result) (kind_of_type
        (globals_of list.now).ranges x.now.result)) }
{
    let kind = type_number(out, list, &x.result)?;
    let ending = first_value(out.allocator(), list, &x.result)?;
    let locals = function_locals(out, list, x)?;
    Ok(Frame {
        unit: None,
        round: RoundRow::Function(kind),
        locals,
        ending,
        kind,
    })
}

/// Lays out a function behind other bodies.
fn function(
    out: &mut Emitter,
    bodies: &mut Bodies,
    list: &Typed,
    x: &Function,
) -> Result<(), NoMemory>
    requires { FunctionFits x.now }
    ensures { OnOk result (Lays (globals_of list.now) out.old bodies.old out.new bodies.new
        (function_routine (globals_of list.now) x.now ∷ [])) }
{
    let places = function_places(x)?;
    let entry = function_entry(out.allocator(), list, x)?;
    let frame = function_frame(out, list, x)?;
    lay(out, bodies, &Around { list, places }, frame, entry, &x.body)
}

/// Lays out functions behind other bodies.
pub(crate) fn functions(
    out: &mut Emitter,
    bodies: &mut Bodies,
    list: &Typed,
    all: &[Function],
) -> Result<(), NoMemory>
    requires { AllByRecursion FunctionFits all.now }
    ensures { OnOk result (Lays (globals_of list.now) out.old bodies.old out.new bodies.new
        (function_routines (globals_of list.now) all.now)) }
{
    for x in all {
        function(out, bodies, list, x)?;
    }
    Ok(())
}
