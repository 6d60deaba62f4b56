// The rules of bodies over units and over byte orders.
ghost use Rattle.std.specs.Prelude.{◌≡◌, ◌==◌, slice_get, IfOk, OnOk};
ghost use Rattle.sp_rules.specs.Least.{checked};
ghost use Rattle.sp_rule_lists.specs.Lists.{all_tests, option_tests};
ghost use Rattle.sp_rule_lists.specs.Bodies.{is_enum_of, order_tests, member_type, first_value_tests, variable_tests};
ghost use Rattle.sp_rule_lists.specs.Wholes.{unit_tests};

use crate::functions::note_parameters;
use crate::inside::{note_constant_value, note_inside};
use crate::parts::note_parts;
use sp_base::NoMemory;
use sp_rule_bodies::{Facts, note_target, note_written};
use sp_rules::Fault;
use sp_typed::Expr;
use sp_typed_units::{Member, OrderProperty, Unit, Variable};
use sp_types::{Level, Type, Word};
use std::alloc::Global;

/// Whether a type is that of an enum of this number.
pub(crate) fn is_enum_of(number: u32, ty: &Type) -> bool
    ensures { result ≡ is_enum_of number ty.now }
{
    match ty.level() {
        Level::Word(Word::Enum(of)) => of == number,
        _ => false,
    }
}

fn note_order<F: Facts>(
    alloc: Global,
    facts: &F,
    order: &OrderProperty,
    least: &mut Option<Fault>,
) -> Result<(), NoMemory>
    ensures { OnOk result (least.new
        ≡ checked least.old (order_tests (F.known facts.now) order.now)) }
{
    let e = &order.value;
    let right = is_enum_of(0, e.ty());
    note_constant_value(alloc, facts, order.module, right, e, least)
}

/// Notes what is wrong with byte orders.
#[tactic(auto, using(crate::proofs::Checked::checked_more))]
pub(crate) fn note_orders<F: Facts>(
    alloc: Global,
    facts: &F,
    all: &[OrderProperty],
    least: &mut Option<Fault>,
) -> Result<(), NoMemory>
    ensures { OnOk result (least.new
        ≡ checked least.old (all_tests (order_tests (F.known facts.now)) all.now)) }
{
    for order in all {
        note_order(alloc, facts, order, least)?;
    }
    Ok(())
}

fn member_type(members: &[Member], number: u32) -> Result<Type, NoMemory>
    ensures { IfOk result (λ t. t ≡ member_type (slice_get members.now number)) }
{
    match members.get(number as usize) {
        Some(member) => member.ty.copy(),
        None => Ok(Type::word(Word::Unknown)),
    }
}

/// Notes what is wrong with the first value of a variable, which goes to a target of this type.
#[tactic(auto, using(crate::proofs::Checked::checked_more))]
fn note_first_value<F: Facts>(
    alloc: Global,
    facts: &F,
    owner: u32,
    ty: &Type,
    value: &Option<Expr>,
    least: &mut Option<Fault>,
) -> Result<(), NoMemory>
    ensures { OnOk result (least.new ≡ checked least.old
        (option_tests (first_value_tests (F.known facts.now) owner ty.now) value.now)) }
{
    match value {
        Some(e) => {
            note_target(owner, ty, e, least);
            note_inside(alloc, facts, owner, e, least)
        }
        None => Ok(()),
    }
}

/// Notes what is wrong with a variable of a unit: with its type, and with its first value.
#[tactic(auto, using(crate::proofs::Checked::checked_more))]
fn note_variable<F: Facts>(
    alloc: Global,
    facts: &F,
    owner: u32,
    members: &[Member],
    variable: &Variable,
    least: &mut Option<Fault>,
) -> Result<(), NoMemory>
    ensures { OnOk result (least.new ≡ checked least.old
        (variable_tests (F.known facts.now) owner members.now variable.now)) }
{
    let ty = member_type(members, variable.member)?;
    note_written(owner, &variable.written, least);
    let noted = note_first_value(alloc, facts, owner, &ty, &variable.value, least);
    drop(ty);
    noted
}

#[tactic(auto, using(crate::proofs::Checked::checked_more))]
fn note_variables<F: Facts>(
    alloc: Global,
    facts: &F,
    owner: u32,
    members: &[Member],
    all: &[Variable],
    least: &mut Option<Fault>,
) -> Result<(), NoMemory>
    ensures { OnOk result (least.new ≡ checked least.old
        (all_tests (variable_tests (F.known facts.now) owner members.now) all.now)) }
{
    for variable in all {
        note_variable(alloc, facts, owner, members, variable, least)?;
    }
    Ok(())
}

/// Notes what is wrong with a unit.
#[tactic(auto, using(crate::proofs::Checked::checked_more))]
fn note_unit<F: Facts>(
    alloc: Global,
    facts: &F,
    unit: &Unit,
    least: &mut Option<Fault>,
) -> Result<(), NoMemory>
    ensures { OnOk result (least.new
        ≡ checked least.old (unit_tests (F.known facts.now) unit.now)) }
{
    let owner = unit.module;
    let members = unit.members.as_slice();
    note_parameters(owner, unit.parameters.as_slice(), least);
    note_orders(alloc, facts, unit.orders.as_slice(), least)?;
    note_variables(
        alloc,
        facts,
        owner,
        members,
        unit.variables.as_slice(),
        least,
    )?;
    note_parts(alloc, facts, owner, unit.parts.as_slice(), least)
}

/// Notes what is wrong with units.
#[tactic(auto, using(crate::proofs::Checked::checked_more))]
pub(crate) fn note_units<F: Facts>(
    alloc: Global,
    facts: &F,
    all: &[Unit],
    least: &mut Option<Fault>,
) -> Result<(), NoMemory>
    ensures { OnOk result (least.new
        ≡ checked least.old (all_tests (unit_tests (F.known facts.now)) all.now)) }
{
    for unit in all {
        note_unit(alloc, facts, unit, least)?;
    }
    Ok(())
}
