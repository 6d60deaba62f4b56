// All that is asked inside an expression and in a body, and of constants that are wanted.
ghost use Rattle.std.specs.Prelude.{◌≡◌, OnOk};
ghost use Rattle.sp_rules.specs.Least.{checked};
ghost use Rattle.sp_rule_bodies.specs.ExprTests.{is_not_constant};
ghost use Rattle.sp_rule_lists.specs.Slots.{for_slots};
ghost use Rattle.sp_rule_lists.specs.Told.{known_in};
ghost use Rattle.sp_rule_lists.specs.Bodies.{inside_tests, body_tests, constant_tests};

use crate::slots::ForSlots;
use crate::told::Told;
use sp_base::NoMemory;
use sp_rule_bodies::{Facts, is_not_constant, note_body, note_expr, note_right};
use sp_rules::{Fault, Rule, note_at};
use sp_type_constants::Constants;
use sp_typed::{Expr, Stmt};
use sp_typed_units::Typed;
use sp_types::Type;
use std::alloc::Global;

/// Notes what is wrong at the nodes of an expression.
#[tactic(auto, using(crate::proofs::Everywhere::nodes_checked))]
pub(crate) fn note_inside<F: Facts>(
    alloc: Global,
    facts: &F,
    owner: u32,
    e: &Expr,
    least: &mut Option<Fault>,
) -> Result<(), NoMemory>
    ensures { OnOk result (least.new
        ≡ checked least.old (inside_tests (F.known facts.now) owner e.now)) }
{
    note_expr(alloc, facts, owner, e, least)?;
    Ok(())
}

/// Notes what is wrong at the statements of a body, and at the nodes of their expressions.
#[tactic(auto, using(crate::proofs::Everywhere::body_checked))]
fn note_whole_body<F: Facts>(
    alloc: Global,
    facts: &F,
    wanted: &Option<Type>,
    owner: u32,
    body: &Stmt,
    least: &mut Option<Fault>,
) -> Result<(), NoMemory>
    ensures { OnOk result (least.new
        ≡ checked least.old (body_tests (F.known facts.now) wanted.now owner body.now)) }
{
    note_body(alloc, facts, wanted, owner, body, least)?;
    Ok(())
}

/// Notes what is wrong in a body where `for` has variables in these slots.
fn note_body_in<C: Constants>(
    alloc: Global,
    typed: &Typed,
    constants: &C,
    slots: &ForSlots,
    wanted: &Option<Type>,
    owner: u32,
    body: &Stmt,
    least: &mut Option<Fault>,
) -> Result<(), NoMemory>
    ensures { OnOk result (least.new ≡ checked least.old
        (body_tests (known_in typed.now (C.known constants.now) slots.now) wanted.now owner
        body.now)) }
{
    let told = Told {
        typed,
        constants,
        slots,
    };
    note_whole_body(alloc, &told, wanted, owner, body, least)
}

/// Notes what is wrong in a body of a typed list.
pub(crate) fn note_own_body<C: Constants>(
    alloc: Global,
    typed: &Typed,
    constants: &C,
    wanted: &Option<Type>,
    owner: u32,
    body: &Stmt,
    least: &mut Option<Fault>,
) -> Result<(), NoMemory>
    ensures { OnOk result (least.new ≡ checked least.old
        (body_tests (known_in typed.now (C.known constants.now) (for_slots body.now)) wanted.now
        owner body.now)) }
{
    let slots = ForSlots::of(alloc, body)?;
    note_body_in(alloc, typed, constants, &slots, wanted, owner, body, least)
}

/// Notes what is wrong with a value that has to be constant, and whose type is right or not.
#[tactic(auto, using(crate::proofs::Checked::checked_more))]
pub(crate) fn note_constant_value<F: Facts>(
    alloc: Global,
    facts: &F,
    owner: u32,
    right: bool,
    e: &Expr,
    least: &mut Option<Fault>,
) -> Result<(), NoMemory>
    ensures { OnOk result (least.new
        ≡ checked least.old (constant_tests (F.known facts.now) owner right e.now)) }
{
    let constancy = facts.constancy(alloc, e)?;
    note_right(right, owner, e, least);
    note_at(
        is_not_constant(constancy),
        owner,
        Rule::NotConstant,
        e.span(),
        least,
    );
    note_inside(alloc, facts, owner, e, least)
}
