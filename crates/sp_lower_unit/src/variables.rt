// The code that gives variables their values.
ghost use Rattle.std.specs.Prelude.{◌≡◌, [], ◌∷◌, ◌++◌, length, OnOk, Some, slice_get};
ghost use Rattle.sp_value.specs.Val.{void};
ghost use Rattle.sp_methods.specs.Kinds.{Void};
ghost use Rattle.sp_meaning_states.specs.Types.{zero_value, kind_of_type};
ghost use Rattle.sp_meaning.specs.Globals.{globals_of};
ghost use Rattle.sp_meaning.specs.Units.{first_value};
ghost use Rattle.sp_code_meaning.specs.Units.{unit_layout};
ghost use Rattle.sp_code.specs.Shapes.{push};
ghost use Rattle.sp_code_programs.specs.exprs.Marked.{constant};
ghost use Rattle.sp_code_programs.specs.units.Units.{member_code, member_kind, begin_code, variable_code, variables_code};
ghost use Rattle.sp_emit.specs.Emitted.{Adds};
ghost use Rattle.sp_lower_expr.specs.Literals.{LiteralsFit};
ghost use Rattle.sp_lower_expr.specs.Around.{layout_in};
ghost use Rattle.sp_lower_unit.specs.Values.{ValueFits, ValuesFit};

use crate::members::set_member;
use sp_base::NoMemory;
use sp_code::KindRow;
use sp_emit::Emitter;
use sp_lower_expr::{Around, Places, expr, zero_value};
use sp_typed::Expr;
use sp_typed_units::{Member, Typed, Variable};
use sp_types::Type;
use sp_value::Value;

/// What stands round the expressions of a unit, which see its parameters and have no `$$`.
fn unit_around(list: &Typed) -> Around<'_>
    ensures list { result.list.now ≡ list.now }
    ensures layout { layout_in result ≡ unit_layout }
{
    Around {
        list,
        places: Places {
            own: 0,
            current: 1,
            offset: None,
            first: 3,
        },
    }
}

/// The first value of a type, which is on top.
fn first_of_type(out: &mut Emitter, list: &Typed, ty: &Type) -> Result<(), NoMemory>
    ensures { OnOk result (Adds out.old out.new (constant out.old.now (zero_value
        (globals_of list.now).ranges ty.now) ∷ []) (push (kind_of_type
        (globals_of list.now).ranges ty.now) out.old.now)) }
{
    let bitfields = list.bitfields.as_slice();
    let first = zero_value(out.allocator(), bitfields, ty)?;
    out.constant(first)?;
    out.push_type(bitfields, ty)
}

/// Void, which is on top.
fn first_of_nothing(out: &mut Emitter) -> Result<(), NoMemory>
    ensures { OnOk result (Adds out.old out.new (constant out.old.now void ∷ []) (push Void
        out.old.now)) }
{
    out.constant(Value::void())?;
    out.push_row(KindRow::Void)
}

/// The first value of a member's type, or void where there is no such member.
fn first_of_member(
    out: &mut Emitter,
    list: &Typed,
    members: &[Member],
    member: u32,
) -> Result<(), NoMemory>
    ensures { OnOk result (Adds out.old out.new (constant out.old.now (first_value
        (globals_of list.now).ranges (slice_get members.now member)) ∷ []) (push (member_kind
        (globals_of list.now).ranges (slice_get members.now member)) out.old.now)) }
{
    match members.get(member as usize) {
        Some(member) => first_of_type(out, list, &member.ty),
        None => first_of_nothing(out),
    }
}

/// A variable begins with the first value of its type.
fn begin(
    out: &mut Emitter,
    list: &Typed,
    unit: u32,
    members: &[Member],
    variable: &Variable,
) -> Result<(), NoMemory>
    ensures { OnOk result (Adds out.old out.new (begin_code list.now unit out.old.now members.now
        (variable.now ∷ [])) out.old.now) }
{
    first_of_member(out, list, members, variable.member)?;
    set_member(out, unit, variable.member)
}

/// Variables begin with the first values of their types.
pub(crate) fn begin_all(
    out: &mut Emitter,
    list: &Typed,
    unit: u32,
    members: &[Member],
    variables: &[Variable],
) -> Result<(), NoMemory>
    ensures { OnOk result (Adds out.old out.new (begin_code list.now unit out.old.now members.now
        variables.now) out.old.now) }
{
    for variable in variables {
        begin(out, list, unit, members, variable)?;
    }
    Ok(())
}

/// A member gets the value of an expression.
fn value(
    out: &mut Emitter,
    list: &Typed,
    unit: u32,
    member: u32,
    value: &Expr,
) -> Result<(), NoMemory>
    requires { LiteralsFit value.now }
    ensures { OnOk result (Adds out.old out.new (variable_code list.now unit out.old.now (length
        out.old.marks) member (Some value.now)) out.old.now) }
{
    expr(out, &unit_around(list), value)?;
    set_member(out, unit, member)
}

/// A variable gets the value that it has of its own.
fn variable(out: &mut Emitter, list: &Typed, unit: u32, variable: &Variable) -> Result<(), NoMemory>
    requires { ValueFits variable.now.value }
    ensures { OnOk result (Adds out.old out.new (variable_code list.now unit out.old.now (length
        out.old.marks) variable.now.member variable.now.value) out.old.now) }
{
    match &variable.value {
        Some(e) => value(out, list, unit, variable.member, e),
        None => Ok(()),
    }
}

/// Variables get the values that they have of their own, in order.
pub(crate) fn variables(
    out: &mut Emitter,
    list: &Typed,
    unit: u32,
    all: &[Variable],
) -> Result<(), NoMemory>
    requires { ValuesFit all.now }
    ensures { OnOk result (Adds out.old out.new (variables_code list.now unit out.old.now (length
        out.old.marks) all.now) out.old.now) }
{
    for next in all {
        variable(out, list, unit, next)?;
    }
    Ok(())
}
