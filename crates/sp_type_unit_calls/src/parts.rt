// Calls in the parts and the variables of a unit.
ghost use Rattle.std.specs.Prelude.{◌≡◌};
ghost use Rattle.std.specs.List.{list_any};
ghost use Rattle.sp_typed_units.specs.Parts.{parts, arms};
ghost use Rattle.sp_type_unit_calls.specs.Calls.{expr_calls};
ghost use Rattle.sp_type_unit_calls.specs.PartCalls.{attribute_calls, spec_calls, field_calls, part_calls, parts_call, arms_call, variables_call};

use crate::exprs::{expr_calls, exprs_call, option_calls, rare_calls};
use sp_typed::{Expr, UnitMethod};
use sp_typed_units::{Arm, Attribute, Field, Part, PartNode, Spec, SpecNode, Variable};

fn values_call(method: UnitMethod, values: &[Expr]) -> bool
    ensures { result ≡ list_any (expr_calls method) values.now }
{
    for e in values {
        if expr_calls(method, e) {
            return true;
        }
    }
    false
}

fn attributes_call(method: UnitMethod, attributes: &[Attribute]) -> bool
    ensures { result ≡ list_any (attribute_calls method) attributes.now }
{
    for attribute in attributes {
        if option_calls(method, &attribute.value) {
            return true;
        }
    }
    false
}

#[cycle(specs)]
fn spec_calls(method: UnitMethod, spec: &Spec) -> bool
    ensures { result ≡ spec_calls method spec.now }
{
    match spec.level() {
        SpecNode::Read(_) => false,
        SpecNode::Unit(_, arguments) => exprs_call(method, arguments),
        SpecNode::List(_, element, count) => {
            spec_calls(method, element) || rare_calls(method, count)
        }
        SpecNode::Group(_, inner, attributes) => {
            spec_calls(method, inner) || attributes_call(method, attributes)
        }
    }
}

fn field_calls(method: UnitMethod, field: &Field) -> bool
    ensures { result ≡ field_calls method field.now }
{
    spec_calls(method, &field.spec)
        || (attributes_call(method, field.attributes.as_slice())
            || (rare_calls(method, &field.condition) || rare_calls(method, &field.sink)))
}

/// Whether some part of a unit calls a method of a unit: in a reading, in an attribute, in a condition, behind a `->`, or in
/// what an arm of a switch is chosen by.
#[cycle(parts)]
pub fn parts_call(method: UnitMethod, all: &[Part]) -> bool
    ensures { result ≡ parts_call method (parts all.now) }
{
    for part in all {
        if part_calls(method, part) {
            return true;
        }
    }
    false
}

#[cycle(parts)]
fn arms_call(method: UnitMethod, rows: &[(Arm, Vec<Part>)]) -> bool
    ensures { result ≡ arms_call method (arms rows.now) }
{
    for row in rows {
        if values_call(method, row.0.values.as_slice()) || parts_call(method, &row.1) {
            return true;
        }
    }
    false
}

#[cycle(parts)]
fn part_calls(method: UnitMethod, part: &Part) -> bool
    ensures { result ≡ part_calls method part.now }
{
    match part.level() {
        PartNode::Field(field) => field_calls(method, field),
        PartNode::Switch(_, subject, rows) => {
            option_calls(method, subject) || arms_call(method, rows)
        }
    }
}

/// Whether the value of some variable of a unit calls a method of a unit.
pub fn variables_call(method: UnitMethod, all: &[Variable]) -> bool
    ensures { result ≡ variables_call method all.now }
{
    for variable in all {
        if option_calls(method, &variable.value) {
            return true;
        }
    }
    false
}
