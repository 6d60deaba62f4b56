// The rules of bodies over hooks.
ghost use Rattle.std.specs.Prelude.{◌≡◌, [], None, OnOk};
ghost use Rattle.sp_rules.specs.Least.{checked};
ghost use Rattle.sp_rule_lists.specs.Lists.{all_tests, option_tests};
ghost use Rattle.sp_rule_lists.specs.Slots.{for_slots};
ghost use Rattle.sp_rule_lists.specs.Told.{known_in};
ghost use Rattle.sp_rule_lists.specs.Bodies.{body_tests, is_rank, priority_tests, own_hook_tests, hook_tests};

use crate::functions::note_parameters;
use crate::inside::{note_constant_value, note_own_body};
use crate::names::is_of_nothing;
use crate::slots::ForSlots;
use crate::told::Told;
use sp_base::NoMemory;
use sp_numbers::Width;
use sp_rule_bodies::Facts;
use sp_rules::Fault;
use sp_type_constants::Constants;
use sp_typed::Expr;
use sp_typed_units::{Hook, Rare, Typed};
use sp_types::{Type, Word};
use std::alloc::Global;

fn is_rank(ty: &Type) -> bool
    ensures { result ≡ is_rank ty.now }
{
    let rank = Type::word(Word::Int(Width::W64));
    let goes = ty.goes(&rank);
    drop(rank);
    goes
}

fn note_priority<F: Facts>(
    alloc: Global,
    facts: &F,
    owner: u32,
    priority: &Rare<Expr>,
    least: &mut Option<Fault>,
) -> Result<(), NoMemory>
    ensures { OnOk result (least.new ≡ checked least.old
        (option_tests (priority_tests (F.known facts.now) owner) priority.now)) }
{
    match priority.get() {
        Some(e) => note_constant_value(alloc, facts, owner, is_rank(e.ty()), e, least),
        None => Ok(()),
    }
}

fn note_priority_in<C: Constants>(
    alloc: Global,
    typed: &Typed,
    constants: &C,
    slots: &ForSlots,
    hook: &Hook,
    least: &mut Option<Fault>,
) -> Result<(), NoMemory>
    ensures { OnOk result (least.new ≡ checked least.old
        (option_tests (priority_tests (known_in typed.now (C.known constants.now) slots.now)
        hook.now.«module») hook.now.priority)) }
{
    let told = Told {
        typed,
        constants,
        slots,
    };
    note_priority(alloc, &told, hook.module, &hook.priority, least)
}

/// Notes the priority of a hook, which stands in no body.
fn note_hook_priority<C: Constants>(
    alloc: Global,
    typed: &Typed,
    constants: &C,
    hook: &Hook,
    least: &mut Option<Fault>,
) -> Result<(), NoMemory>
    ensures { OnOk result (least.new ≡ checked least.old
        (option_tests (priority_tests (known_in typed.now (C.known constants.now) [])
        hook.now.«module») hook.now.priority)) }
{
    let slots = ForSlots::none(alloc);
    note_priority_in(alloc, typed, constants, &slots, hook, least)
}

/// Notes what is wrong with the body of a hook, which gives nothing.
fn note_hook_body<C: Constants>(
    alloc: Global,
    typed: &Typed,
    constants: &C,
    hook: &Hook,
    least: &mut Option<Fault>,
) -> Result<(), NoMemory>
    ensures { OnOk result (least.new ≡ checked least.old
        (body_tests (known_in typed.now (C.known constants.now) (for_slots hook.now.body)) None
        hook.now.«module» hook.now.body)) }
{
    let wanted: Option<Type> = None;
    let noted = note_own_body(
        alloc,
        typed,
        constants,
        &wanted,
        hook.module,
        &hook.body,
        least,
    );
    drop(wanted);
    noted
}

/// Notes what is wrong with a hook: with its parameters, its priority and its body.
#[tactic(auto, using(crate::proofs::Checked::checked_more))]
fn note_own_hook<C: Constants>(
    alloc: Global,
    typed: &Typed,
    constants: &C,
    hook: &Hook,
    least: &mut Option<Fault>,
) -> Result<(), NoMemory>
    ensures { OnOk result (least.new ≡ checked least.old
        (own_hook_tests typed.now (C.known constants.now) hook.now)) }
{
    note_parameters(hook.module, hook.parameters.as_slice(), least);
    note_hook_priority(alloc, typed, constants, hook, least)?;
    note_hook_body(alloc, typed, constants, hook, least)
}

fn note_hook<C: Constants>(
    alloc: Global,
    typed: &Typed,
    constants: &C,
    hook: &Hook,
    least: &mut Option<Fault>,
) -> Result<(), NoMemory>
    ensures { OnOk result (least.new ≡ checked least.old
        (hook_tests typed.now (C.known constants.now) hook.now)) }
{
    if is_of_nothing(hook.of) {
        return Ok(());
    }
    note_own_hook(alloc, typed, constants, hook, least)
}

/// Notes what is wrong with hooks.
#[tactic(auto, using(crate::proofs::Checked::checked_more))]
pub(crate) fn note_hooks<C: Constants>(
    alloc: Global,
    typed: &Typed,
    constants: &C,
    all: &[Hook],
    least: &mut Option<Fault>,
) -> Result<(), NoMemory>
    ensures { OnOk result (least.new ≡ checked least.old
        (all_tests (hook_tests typed.now (C.known constants.now)) all.now)) }
{
    for hook in all {
        note_hook(alloc, typed, constants, hook, least)?;
    }
    Ok(())
}
