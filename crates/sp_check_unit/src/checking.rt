// All rules over a list of modules.
ghost use Rattle.std.specs.Prelude.{◌≡◌, ◌++◌, None, IfOk, IfErr, OnOk};
ghost use Rattle.sp_rules.specs.Least.{IsLeast, checked};
ghost use Rattle.sp_type_answers.specs.NameRules.{IsTyped};
ghost use Rattle.sp_type_answers.specs.Refusals.{IsRefused};
ghost use Rattle.sp_type_answers.specs.Rules.{typed_tests, limits_from, Breaks, IsAsked};

use crate::checked::{Checked, have_numbers};
use crate::limits::note_all_limits;
use sp_ast::Module;
use sp_base::NoMemory;
use sp_rule_lists::note_bodies;
use sp_rule_units::note_unit_rules;
use sp_rules::{Fault, least_of_checked};
use sp_scope::{Scopes, type_list};
use sp_type_answers::{CheckFault, answers_are_one};
use sp_typed_units::Typed;
use std::alloc::Global;

/// Notes all rules but those on names.
fn note_rest(
    alloc: Global,
    list: &[Module],
    scopes: &Scopes,
    least: &mut Option<Fault>,
) -> Result<(), NoMemory>
    ensures { OnOk result (least.new ≡ checked least.old
        (typed_tests scopes.now.typed ++ limits_from 0 list.now)) }
{
    note_bodies(alloc, scopes.typed(), scopes, least)?;
    note_unit_rules(scopes.typed(), least);
    note_all_limits(list, least)?;
    Ok(())
}

/// What is typed of a list, and the least of all rules that are broken, under some answers.
fn ask_all(alloc: Global, list: &[Module]) -> Result<(Scopes, Option<Fault>), NoMemory>
    ensures { IfOk result (λ r. IsAsked list.now r.0.typed r.1) }
{
    let (scopes, mut least) = type_list(alloc, list)?;
    note_rest(alloc, list, &scopes, &mut least)?;
    Ok((scopes, least))
}

/// What is typed of a list, and the least of all rules that are broken, whichever answers it is asked under.
fn type_and_ask(alloc: Global, list: &[Module]) -> Result<(Scopes, Option<Fault>), NoMemory>
    ensures typed { IfOk result (λ r. IsTyped list.now r.0.typed) }
    ensures least { IfOk result (λ r. IsLeast (Breaks list.now) r.1) }
{
    answers_are_one();
    least_of_checked();
    ask_all(alloc, list)
}

/// What was checked, where its units have numbers.
fn numbered<'a>(list: &'a [Module], typed: Typed) -> Result<Checked<'a>, NoMemory>
    requires typed { IsTyped list.now typed }
    requires whole { IsLeast (Breaks list.now) None }
    ensures list { IfOk result (λ c. c.modules.now ≡ list.now) }
    ensures typed { IfOk result (λ c. IsTyped list.now c.typed) }
{
    if !have_numbers(typed.units.as_slice()) {
        drop(typed);
        return Err(NoMemory);
    }
    Ok(Checked {
        modules: list,
        typed,
    })
}

/// Checks a list of modules: it is Ok exactly where no rule is broken, and else refused by the least that is: of the first of
/// the groups names, bodies, units and tokens in which one is broken, the first by module, place and number. What is asked of
/// tokens is not asked yet, apart from how many declarations, items and parameters there are. Time and calls are those
/// of resolving the names, and of each rule.
#[tactic(auto, using(sp_type_answers::proofs::Refused::refused_at))]
pub fn check<'a>(alloc: Global, list: &'a [Module]) -> Result<Checked<'a>, CheckFault>
    ensures checked { IfOk result (λ c. (c.modules.now ≡ list.now) × IsTyped list.now c.typed
        × IsLeast (Breaks list.now) None) }
    ensures refused { IfErr result (IsRefused (Breaks list.now)) }
{
    let (scopes, least) = type_and_ask(alloc, list)?;
    match least {
        Some(fault) => Err(CheckFault::Diag(fault.diag())),
        None => Ok(numbered(list, scopes.into_typed())?),
    }
}
