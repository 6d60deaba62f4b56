// The rules of bodies over functions.
ghost use Rattle.std.specs.Prelude.{◌≡◌, IfOk, OnOk};
ghost use Rattle.sp_rules.specs.Least.{checked};
ghost use Rattle.sp_rule_bodies.specs.Values.{written_tests};
ghost use Rattle.sp_rule_lists.specs.Lists.{all_tests, option_tests};
ghost use Rattle.sp_rule_lists.specs.Bodies.{parameter_tests, wanted_of, given_tests, function_tests};

use crate::inside::note_own_body;
use sp_base::NoMemory;
use sp_rule_bodies::{note_end, note_written};
use sp_rules::Fault;
use sp_type_constants::Constants;
use sp_typed::Written;
use sp_typed_units::{Function, Parameter, Typed};
use sp_types::Type;
use std::alloc::Global;

/// Notes what is wrong with parameters.
#[tactic(auto, using(crate::proofs::Checked::checked_more))]
pub(crate) fn note_parameters(owner: u32, parameters: &[Parameter], least: &mut Option<Fault>)
    ensures { least.new ≡ checked least.old (all_tests (parameter_tests owner) parameters.now) }
{
    for parameter in parameters {
        note_written(owner, &parameter.written, least);
    }
}

/// Notes what is wrong with the type of what a function gives, where it is written.
fn note_result(owner: u32, written: &Option<Written>, least: &mut Option<Fault>)
    ensures { least.new ≡ checked least.old (option_tests (written_tests owner) written.now) }
{
    if let Some(written) = written {
        note_written(owner, written, least);
    }
}

/// The type of what a function gives, where one is written.
fn wanted_of(written: &Option<Written>, ty: &Type) -> Result<Option<Type>, NoMemory>
    ensures { IfOk result (λ w. w ≡ wanted_of written.now ty.now) }
{
    match written {
        None => Ok(None),
        Some(_) => Ok(Some(ty.copy()?)),
    }
}

/// Notes what is wrong with the body of a function, which gives a value of this type, if it gives one.
#[tactic(auto, using(crate::proofs::Checked::checked_more))]
fn note_given<C: Constants>(
    alloc: Global,
    typed: &Typed,
    constants: &C,
    wanted: &Option<Type>,
    function: &Function,
    least: &mut Option<Fault>,
) -> Result<(), NoMemory>
    ensures { OnOk result (least.new ≡ checked least.old
        (given_tests typed.now (C.known constants.now) wanted.now function.now)) }
{
    let owner = function.module;
    let body = &function.body;
    note_end(wanted, owner, function.span, body, least);
    note_own_body(alloc, typed, constants, wanted, owner, body, least)
}

fn note_function_body<C: Constants>(
    alloc: Global,
    typed: &Typed,
    constants: &C,
    function: &Function,
    least: &mut Option<Fault>,
) -> Result<(), NoMemory>
    ensures { OnOk result (least.new ≡ checked least.old
        (given_tests typed.now (C.known constants.now)
        (wanted_of function.now.written function.now.result) function.now)) }
{
    let wanted = wanted_of(&function.written, &function.result)?;
    note_given(alloc, typed, constants, &wanted, function, least)
}

/// Notes what is wrong with a function: with its parameters, its result and its body.
#[tactic(auto, using(crate::proofs::Checked::checked_more))]
fn note_function<C: Constants>(
    alloc: Global,
    typed: &Typed,
    constants: &C,
    function: &Function,
    least: &mut Option<Fault>,
) -> Result<(), NoMemory>
    ensures { OnOk result (least.new ≡ checked least.old
        (function_tests typed.now (C.known constants.now) function.now)) }
{
    let owner = function.module;
    note_parameters(owner, function.parameters.as_slice(), least);
    note_result(owner, &function.written, least);
    note_function_body(alloc, typed, constants, function, least)
}

/// Notes what is wrong with functions.
#[tactic(auto, using(crate::proofs::Checked::checked_more))]
pub(crate) fn note_functions<C: Constants>(
    alloc: Global,
    typed: &Typed,
    constants: &C,
    all: &[Function],
    least: &mut Option<Fault>,
) -> Result<(), NoMemory>
    ensures { OnOk result (least.new ≡ checked least.old
        (all_tests (function_tests typed.now (C.known constants.now)) all.now)) }
{
    for function in all {
        note_function(alloc, typed, constants, function, least)?;
    }
    Ok(())
}
