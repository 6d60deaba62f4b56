// The rules on names over a typed list.
ghost use Rattle.std.specs.Prelude.{◌≡◌, ◌||◌, not};
ghost use Rattle.sp_rules.specs.Least.{checked};
ghost use Rattle.sp_rule_lists.specs.Lists.{all_tests};
ghost use Rattle.sp_rule_lists.specs.Names.{variable_names, sink_names, order_names, unit_names, is_of_nothing, hook_names, function_names, constant_names, label_names, enum_names, list_names};

use crate::part_names::{note_option_names, note_parts_names, note_rare_names};
use crate::stmt_names::{note_expr_names, note_stmt_names};
use sp_rules::{Fault, Rule, note_at};
use sp_typed_units::{
    Constant, Enum, Function, Hook, HookOf, Label, OrderProperty, Sink, Typed, Unit, Variable,
};

fn note_variables(owner: u32, all: &[Variable], least: &mut Option<Fault>)
    ensures { least.new ≡ checked least.old (all_tests (variable_names owner) all.now) }
{
    for variable in all {
        note_at(variable.taken, owner, Rule::NameTwice, variable.span, least);
        note_option_names(owner, &variable.value, least);
    }
}

fn note_sinks(owner: u32, all: &[Sink], least: &mut Option<Fault>)
    ensures { least.new ≡ checked least.old (all_tests (sink_names owner) all.now) }
{
    for sink in all {
        note_at(sink.taken, owner, Rule::NameTwice, sink.span, least);
    }
}

fn note_orders(all: &[OrderProperty], least: &mut Option<Fault>)
    ensures { least.new ≡ checked least.old (all_tests order_names all.now) }
{
    for order in all {
        note_expr_names(order.module, &order.value, least);
    }
}

#[tactic(auto, using(crate::proofs::Checked::checked_more))]
fn note_unit(unit: &Unit, least: &mut Option<Fault>)
    ensures { least.new ≡ checked least.old (unit_names unit.now) }
{
    note_orders(unit.orders.as_slice(), least);
    note_variables(unit.module, unit.variables.as_slice(), least);
    note_sinks(unit.module, unit.sinks.as_slice(), least);
    note_parts_names(unit.module, unit.parts.as_slice(), least);
}

fn note_units(all: &[Unit], least: &mut Option<Fault>)
    ensures { least.new ≡ checked least.old (all_tests unit_names all.now) }
{
    for unit in all {
        note_unit(unit, least);
    }
}

/// Whether a hook is of nothing.
pub(crate) fn is_of_nothing(of: HookOf) -> bool
    ensures { result ≡ is_of_nothing of }
{
    matches!(of, HookOf::Nothing)
}

#[tactic(auto, using(crate::proofs::Checked::checked_more))]
fn note_hook(hook: &Hook, least: &mut Option<Fault>)
    ensures { least.new ≡ checked least.old (hook_names hook.now) }
{
    let unknown = is_of_nothing(hook.of) || !hook.fits;
    note_at(unknown, hook.module, Rule::UnknownHook, hook.span, least);
    note_rare_names(hook.module, &hook.priority, least);
    note_stmt_names(hook.module, &hook.body, least);
}

fn note_hooks(all: &[Hook], least: &mut Option<Fault>)
    ensures { least.new ≡ checked least.old (all_tests hook_names all.now) }
{
    for hook in all {
        note_hook(hook, least);
    }
}

fn note_functions(all: &[Function], least: &mut Option<Fault>)
    ensures { least.new ≡ checked least.old (all_tests function_names all.now) }
{
    for function in all {
        note_stmt_names(function.module, &function.body, least);
    }
}

fn note_constants(all: &[Constant], least: &mut Option<Fault>)
    ensures { least.new ≡ checked least.old (all_tests constant_names all.now) }
{
    for constant in all {
        note_expr_names(constant.module, &constant.expr, least);
    }
}

fn note_labels(owner: u32, all: &[Label], least: &mut Option<Fault>)
    ensures { least.new ≡ checked least.old (all_tests (label_names owner) all.now) }
{
    for label in all {
        note_option_names(owner, &label.expr, least);
    }
}

fn note_enums(all: &[Enum], least: &mut Option<Fault>)
    ensures { least.new ≡ checked least.old (all_tests enum_names all.now) }
{
    for one in all {
        note_labels(one.module, one.labels.as_slice(), least);
    }
}

/// Notes what is wrong with the names of a typed list: names in expressions that name nothing (M8), locals, loop variables,
/// fields, variables and sinks whose name is taken already (M7), and hooks of nothing (M21). It takes no memory, and time and
/// calls are those of the list's size and height.
#[tactic(auto, using(crate::proofs::Checked::checked_more))]
pub fn note_names(typed: &Typed, least: &mut Option<Fault>)
    ensures { least.new ≡ checked least.old (list_names typed.now) }
{
    note_orders(typed.orders.as_slice(), least);
    note_enums(typed.enums.as_slice(), least);
    note_constants(typed.constants.as_slice(), least);
    note_units(typed.units.as_slice(), least);
    note_functions(typed.functions.as_slice(), least);
    note_hooks(typed.hooks.as_slice(), least);
}
