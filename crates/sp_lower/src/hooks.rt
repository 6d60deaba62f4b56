// The code of bodies of hooks.
ghost use Rattle.std.specs.Prelude.{◌≡◌, ◌<◌, [], ◌∷◌, ◌++◌, length, IfOk, OnOk};
ghost use Rattle.std.specs.List.{AllByRecursion};
ghost use Rattle.sp_value.specs.Val.{void};
ghost use Rattle.sp_methods.specs.Kinds.{Void, Unsigned};
ghost use Rattle.sp_meaning.specs.Globals.{globals_of};
ghost use Rattle.sp_meaning.specs.Hooks.{has_current, is_foreach, told_count};
ghost use Rattle.sp_code_meaning.specs.Calls.{hook_layout};
ghost use Rattle.sp_code_programs.specs.units.Bodies.{handed, hook_entry};
ghost use Rattle.sp_lower_expr.specs.Around.{layout_of};
ghost use Rattle.sp_meaning.specs.Names as named;
ghost use Rattle.sp_code_programs.specs.programs.Routines.{hook_unit, slot_kinds, handed_kinds, hook_shape, hook_routine};
ghost use Rattle.sp_code_programs.specs.programs.Currents.{current_kind};
ghost use Rattle.sp_lower_tables.specs.Numbers.{GivesNumbers};
ghost use Rattle.sp_lower.specs.Literals.{HookFits};
ghost use Rattle.sp_lower.specs.inside.Laid.{entry_of, IsBodyOf, GivesFrame, Lays, named_routines};

use crate::bodies::{Bodies, lay};
use crate::values::first_values;
use sp_base::NoMemory;
use sp_code::{BodyCode, BodyOf, KindRow, RoundRow};
use sp_emit::{Emitter, number};
use sp_lower_expr::{Around, Places};
use sp_lower_stmt::Frame;
use sp_lower_tables::{HookedFields, add_parameters, add_types, current, hook_name, row_number};
use sp_typed_units::{Hook, HookOf, Typed};
use sp_value::Value;
use std::alloc::Global;

/// Whether a body of a hook has a `$$`.
fn has_current(of: HookOf) -> bool
    ensures { result ≡ has_current of }
{
    match of {
        HookOf::Nothing | HookOf::Unit(..) => false,
        HookOf::Field(..) | HookOf::Elements(..) => true,
        HookOf::Anonymous(_) | HookOf::AnonymousElements(_) => true,
    }
}

fn is_foreach(of: HookOf) -> bool
    ensures { result ≡ is_foreach of }
{
    matches!(of, HookOf::Elements(..) | HookOf::AnonymousElements(_))
}

/// The unit of which a hook is.
fn hook_unit(of: HookOf) -> Option<u32>
    ensures { result ≡ hook_unit of }
{
    match of {
        HookOf::Nothing => None,
        HookOf::Unit(u, _) | HookOf::Field(u, _) | HookOf::Elements(u, _) => Some(u),
        HookOf::Anonymous(u) | HookOf::AnonymousElements(u) => Some(u),
    }
}

/// How many values a hook hands to a body.
fn handed(x: &Hook) -> Result<u32, NoMemory>
    ensures { IfOk result (λ n. n ≡ handed x.now) }
{
    if has_current(x.of) {
        Ok(2)
    } else {
        number(x.parameters.as_slice().len())
    }
}

/// How many of these the event of the body tells.
fn told_count(x: &Hook) -> Result<u32, NoMemory>
    ensures { IfOk result (λ n. n ≡ told_count x.now) }
{
    if has_current(x.of) {
        Ok(1)
    } else {
        number(x.parameters.as_slice().len())
    }
}

fn hook_places(x: &Hook) -> Result<Places, NoMemory>
    ensures { IfOk result (λ places. layout_of places ≡ hook_layout x.now) }
{
    if has_current(x.of) {
        return Ok(Places {
            own: 0,
            current: 0,
            offset: Some(1),
            first: 2,
        });
    }
    let own = number(x.parameters.as_slice().len())?;
    Ok(Places {
        own,
        current: 0,
        offset: None,
        first: own,
    })
}

/// What the body of a hook is: its name, how many values its event tells, and whether it is of a foreach hook.
fn body_of(alloc: Global, list: &Typed, x: &Hook) -> Result<BodyOf, NoMemory>
    ensures { IfOk result (IsBodyOf (named.hook_name list.now.units x.now.of) x.now) }
{
    let told = told_count(x)?;
    let name = hook_name(alloc, list.units.as_slice(), x.of)?;
    let each = is_foreach(x.of);
    Ok(BodyOf::Hook { name, told, each })
}

/// The entry of a body of a hook, but for the address of its code.
fn hook_entry(alloc: Global, list: &Typed, x: &Hook) -> Result<BodyCode, NoMemory>
    ensures { IfOk result (λ entry. entry_of entry ≡ hook_entry (globals_of list.now) 0
        (named.hook_name list.now.units x.now.of) x.now) }
{
    let takes = handed(x)?;
    let of = body_of(alloc, list, x)?;
    let fresh = first_values(alloc, list, x.slots.as_slice())?;
    Ok(BodyCode {
        start: 0,
        takes,
        fresh,
        of,
    })
}

/// The numbers of the kinds of `$$` and of the offset of a field or an element.
fn current_numbers(
    out: &mut Emitter,
    fields: &HookedFields<'_>,
    body: usize,
    x: &Hook,
) -> Result<Vec<u32>, NoMemory>
    requires { body < length fields.now.list.now.hooks }
    ensures { IfOk result (λ ns. GivesNumbers out.old out.new (current_kind
        (globals_of fields.now.list.now).ranges fields.now.list.now.units body x.now ∷ Unsigned
        ∷ []) ns.items) }
{
    let first = current(out, fields.list, x.of, fields.at(body))?;
    let second = row_number(out, KindRow::Unsigned)?;
    let numbers = Vec::from_array(out.allocator(), [first, second])?;
    Ok(numbers)
}

/// Those of what a hook hands to a body.
fn handed_numbers(
    out: &mut Emitter,
    fields: &HookedFields<'_>,
    body: usize,
    x: &Hook,
) -> Result<Vec<u32>, NoMemory>
    requires { body < length fields.now.list.now.hooks }
    ensures { IfOk result (λ ns. GivesNumbers out.old out.new (handed_kinds
        (globals_of fields.now.list.now).ranges (current_kind (globals_of
        fields.now.list.now).ranges fields.now.list.now.units body x.now) x.now) ns.items) }
{
    if has_current(x.of) {
        return current_numbers(out, fields, body, x);
    }
    let mut numbers = Vec::new(out.allocator());
    add_parameters(out, fields.list, x.parameters.as_slice(), &mut numbers)?;
    Ok(numbers)
}

/// Those of all locals of a body of a hook.
fn hook_locals(
    out: &mut Emitter,
    fields: &HookedFields<'_>,
    body: usize,
    x: &Hook,
) -> Result<Vec<u32>, NoMemory>
    requires { body < length fields.now.list.now.hooks }
    ensures { IfOk result (λ ns. GivesNumbers out.old out.new (handed_kinds
        (globals_of fields.now.list.now).ranges (current_kind (globals_of
        fields.now.list.now).ranges fields.now.list.now.units body x.now) x.now ++ slot_kinds
        (globals_of fields.now.list.now).ranges x.now.slots) ns.items) }
{
    let mut locals = handed_numbers(out, fields, body, x)?;
    add_types(out, fields.list, x.slots.as_slice(), &mut locals)?;
    Ok(locals)
}

/// What a body of a hook begins and ends with, by its number. What it returns is dropped.
fn hook_frame(
    out: &mut Emitter,
    fields: &HookedFields<'_>,
    body: usize,
    x: &Hook,
) -> Result<Frame, NoMemory>
    requires { body < length fields.now.list.now.hooks }
    ensures { IfOk result (GivesFrame out.old out.new (hook_shape (globals_of fields.now.list.now)
        (current_kind (globals_of fields.now.list.now).ranges fields.now.list.now.units body x.now)
        x.now) void Void) }
{
    let kind = row_number(out, KindRow::Void)?;
    let locals = hook_locals(out, fields, body, x)?;
    Ok(Frame {
        unit: hook_unit(x.of),
        round: RoundRow::Hook(is_foreach(x.of)),
        locals,
        ending: Value::void(),
        kind,
    })
}

/// Lays out a body of a hook, by its number, behind other bodies.
fn hook(
    out: &mut Emitter,
    bodies: &mut Bodies,
    fields: &HookedFields<'_>,
    body: usize,
    x: &Hook,
) -> Result<(), NoMemory>
    requires number { body < length fields.now.list.now.hooks }
    requires literals { HookFits x.now }
    ensures { OnOk result (Lays (globals_of fields.now.list.now) out.old bodies.old out.new
        bodies.new (hook_routine (globals_of fields.now.list.now) (named.hook_name
        fields.now.list.now.units x.now.of) (current_kind (globals_of fields.now.list.now).ranges
        fields.now.list.now.units body x.now) x.now ∷ [])) }
{
    let list = fields.list;
    let places = hook_places(x)?;
    let entry = hook_entry(out.allocator(), list, x)?;
    let frame = hook_frame(out, fields, body, x)?;
    lay(out, bodies, &Around { list, places }, frame, entry, &x.body)
}

/// Lays out the bodies of hooks of a list behind other bodies.
pub(crate) fn hooks(
    out: &mut Emitter,
    bodies: &mut Bodies,
    fields: &HookedFields<'_>,
    all: &[Hook],
) -> Result<(), NoMemory>
    requires all { all.now ≡ fields.now.list.now.hooks }
    requires literals { AllByRecursion HookFits all.now }
    ensures { OnOk result (Lays (globals_of fields.now.list.now) out.old bodies.old out.new
        bodies.new (named_routines fields.now.list.now 0 all.now)) }
{
    for body in 0..all.len() {
        hook(out, bodies, fields, body, &all[body])?;
    }
    Ok(())
}
