// Names in parts of units.
ghost use Rattle.std.specs.Prelude.{◌≡◌, option_copied};
ghost use Rattle.sp_rules.specs.Least.{checked};
ghost use Rattle.sp_typed.specs.Exprs.{exprs};
ghost use Rattle.sp_typed_units.specs.Parts.{parts, arms};
ghost use Rattle.sp_rule_lists.specs.Lists.{all_tests, option_tests};
ghost use Rattle.sp_rule_lists.specs.Names.{expr_names, attribute_names, spec_names, field_names, part_names, parts_names, arms_names};

use crate::stmt_names::{note_expr_names, note_exprs_names};
use sp_rules::{Fault, Rule, note_at};
use sp_typed::Expr;
use sp_typed_units::{Arm, Attribute, Field, Part, PartNode, Rare, Spec, SpecNode};

pub(crate) fn note_option_names(owner: u32, e: &Option<Expr>, least: &mut Option<Fault>)
    ensures { least.new ≡ checked least.old (option_tests (expr_names owner) e.now) }
{
    if let Some(e) = e {
        note_expr_names(owner, e, least);
    }
}

pub(crate) fn note_rare_names(owner: u32, e: &Rare<Expr>, least: &mut Option<Fault>)
    ensures { least.new ≡ checked least.old (option_tests (expr_names owner) e.now) }
{
    if let Some(e) = e.get() {
        note_expr_names(owner, e, least);
    }
}

fn note_values_names(owner: u32, values: &[Expr], least: &mut Option<Fault>)
    ensures { least.new ≡ checked least.old (all_tests (expr_names owner) values.now) }
{
    for e in values {
        note_expr_names(owner, e, least);
    }
}

fn note_attributes_names(owner: u32, attributes: &[Attribute], least: &mut Option<Fault>)
    ensures { least.new ≡ checked least.old (all_tests (attribute_names owner) attributes.now) }
{
    for attribute in attributes {
        note_option_names(owner, &attribute.value, least);
    }
}

#[cycle(specs)]
#[tactic(auto, using(crate::proofs::Checked::checked_more))]
fn note_spec_names(owner: u32, spec: &Spec, least: &mut Option<Fault>)
    ensures { least.new ≡ checked least.old (spec_names owner spec.now) }
{
    match spec.level() {
        SpecNode::Read(_) => {}
        SpecNode::Unit(_, arguments) => note_exprs_names(owner, arguments, least),
        SpecNode::List(_, element, count) => {
            note_spec_names(owner, element, least);
            note_rare_names(owner, count, least);
        }
        SpecNode::Group(_, inner, attributes) => {
            note_spec_names(owner, inner, least);
            note_attributes_names(owner, attributes, least);
        }
    }
}

#[tactic(auto, using(crate::proofs::Checked::checked_more))]
fn note_field_names(owner: u32, field: &Field, least: &mut Option<Fault>)
    ensures { least.new ≡ checked least.old (field_names owner field.now) }
{
    note_at(field.taken, owner, Rule::NameTwice, field.span, least);
    note_spec_names(owner, &field.spec, least);
    note_attributes_names(owner, field.attributes.as_slice(), least);
    note_rare_names(owner, &field.condition, least);
    note_rare_names(owner, &field.sink, least);
}

#[cycle(parts)]
pub(crate) fn note_parts_names(owner: u32, all: &[Part], least: &mut Option<Fault>)
    ensures { least.new ≡ checked least.old (parts_names owner (parts all.now)) }
{
    for part in all {
        note_part_names(owner, part, least);
    }
}

#[cycle(parts)]
fn note_arms_names(owner: u32, rows: &[(Arm, Vec<Part>)], least: &mut Option<Fault>)
    ensures { least.new ≡ checked least.old (arms_names owner (arms rows.now)) }
{
    for row in rows {
        note_values_names(owner, row.0.values.as_slice(), least);
        note_parts_names(owner, &row.1, least);
    }
}

/// Notes the names in a part of a unit that name nothing, and fields whose name the unit has already.
#[cycle(parts)]
#[tactic(auto, using(crate::proofs::Checked::checked_more))]
fn note_part_names(owner: u32, part: &Part, least: &mut Option<Fault>)
    ensures { least.new ≡ checked least.old (part_names owner part.now) }
{
    match part.level() {
        PartNode::Field(field) => note_field_names(owner, field, least),
        PartNode::Switch(_, subject, rows) => {
            note_option_names(owner, subject, least);
            note_arms_names(owner, rows, least);
        }
    }
}
