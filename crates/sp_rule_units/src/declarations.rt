// The rules of units, hooks and functions.
ghost use Rattle.std.specs.Prelude.{◌≡◌, Some};
ghost use Rattle.sp_rules.specs.Least.{checked};
ghost use Rattle.sp_typed_units.specs.Parts.{parts};
ghost use Rattle.sp_rule_units.specs.Units.{variables_tests, in_unit, unit_tests, is_init, of_unit, in_hook, body_tests, hook_tests, in_function, function_tests};

use crate::bodies::note_body;
use crate::here::Here;
use crate::nodes::is_filter;
use crate::parts::note_parts;
use crate::sweep::note_maybe;
use sp_rules::Fault;
use sp_typed_units::{Function, Hook, HookOf, Unit, Variable};
use sp_words::HookName;

#[tactic(auto, using(crate::proofs::Checked::checked_more))]
fn note_variables(units: &[Unit], here: Here, all: &[Variable], least: &mut Option<Fault>)
    ensures { least.new ≡ checked least.old (variables_tests units.now here all.now) }
{
    for variable in all {
        note_maybe(units, here, &variable.value, least);
    }
}

/// Notes what is wrong in a unit of a list, apart from its hooks.
#[tactic(auto, using(crate::proofs::Checked::checked_more))]
pub fn note_unit(units: &[Unit], unit: &Unit, least: &mut Option<Fault>)
    ensures { least.new ≡ checked least.old (unit_tests units.now unit.now) }
{
    let here = Here {
        owner: unit.module,
        filter: unit.filter,
        init: false,
    };
    note_variables(units, here, unit.variables.as_slice(), least);
    note_parts(units, here, unit.parts.as_slice(), least);
}

fn is_init(name: HookName) -> bool
    ensures { result ≡ is_init name }
{
    matches!(name, HookName::Init)
}

fn of_unit(units: &[Unit], owner: u32, n: u32, init: bool) -> Option<Here>
    ensures { result ≡ of_unit units.now owner n init }
{
    Some(Here {
        owner,
        filter: is_filter(units, n),
        init,
    })
}

/// Where the body of a hook stands, if its hook is one of a unit or a field.
fn in_hook(units: &[Unit], owner: u32, of: HookOf) -> Option<Here>
    ensures { result ≡ in_hook units.now owner of }
{
    match of {
        HookOf::Nothing => None,
        HookOf::Unit(n, name) => of_unit(units, owner, n, is_init(name)),
        HookOf::Field(n, _) | HookOf::Elements(n, _) => of_unit(units, owner, n, false),
        HookOf::Anonymous(n) | HookOf::AnonymousElements(n) => of_unit(units, owner, n, false),
    }
}

/// Notes what is wrong in a hook of the units of a list.
pub fn note_hook(units: &[Unit], hook: &Hook, least: &mut Option<Fault>)
    ensures { least.new ≡ checked least.old (hook_tests units.now hook.now) }
{
    if let Some(here) = in_hook(units, hook.module, hook.of) {
        note_body(units, here, &hook.body, least);
    }
}

/// Notes what is wrong in a function of a list with these units.
pub fn note_function(units: &[Unit], function: &Function, least: &mut Option<Fault>)
    ensures { least.new ≡ checked least.old (function_tests units.now function.now) }
{
    let here = Here {
        owner: function.module,
        filter: false,
        init: false,
    };
    note_body(units, here, &function.body, least);
}
