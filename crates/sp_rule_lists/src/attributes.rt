// The rules of bodies over the values of attributes.
ghost use Rattle.std.specs.Prelude.{◌≡◌, ◌&&◌, not, OnOk};
ghost use Rattle.sp_rules.specs.Least.{checked};
ghost use Rattle.sp_type_operands.specs.Operands.{is_iterator};
ghost use Rattle.sp_rule_lists.specs.Lists.{all_tests, option_tests};
ghost use Rattle.sp_rule_lists.specs.Fields.{asked_tests, amount_tests, truth_tests, default_tests, order_enum, by_role, attribute_tests};

use crate::inside::{note_constant_value, note_inside};
use crate::units::is_enum_of;
use sp_base::NoMemory;
use sp_rule_bodies::{Facts, note_condition, note_right, note_value, value_goes, value_span};
use sp_rules::{Fault, Rule, note_at};
use sp_type_fields::{Kind, Role, role_of};
use sp_type_operands::{is_bytes, is_integer};
use sp_typed::Expr;
use sp_typed_units::{Attribute, Rare};
use sp_types::{Level, Type, Word};
use sp_words::AttributeName;
use std::alloc::Global;

/// Notes what is wrong with a value of which something is asked, and inside it.
#[tactic(auto, using(crate::proofs::Checked::checked_more))]
pub(crate) fn note_asked<F: Facts>(
    alloc: Global,
    facts: &F,
    owner: u32,
    right: bool,
    e: &Expr,
    least: &mut Option<Fault>,
) -> Result<(), NoMemory>
    ensures { OnOk result (least.new
        ≡ checked least.old (asked_tests (F.known facts.now) owner right e.now)) }
{
    note_right(right, owner, e, least);
    note_inside(alloc, facts, owner, e, least)
}

/// Notes what is wrong with a number of bytes or elements.
fn note_amount<F: Facts>(
    alloc: Global,
    facts: &F,
    owner: u32,
    e: &Expr,
    least: &mut Option<Fault>,
) -> Result<(), NoMemory>
    ensures { OnOk result (least.new
        ≡ checked least.old (amount_tests (F.known facts.now) owner e.now)) }
{
    note_asked(alloc, facts, owner, is_integer(e.ty()), e, least)
}

/// Notes what is wrong with a count that may be left out.
pub(crate) fn note_count<F: Facts>(
    alloc: Global,
    facts: &F,
    owner: u32,
    count: &Rare<Expr>,
    least: &mut Option<Fault>,
) -> Result<(), NoMemory>
    ensures { OnOk result (least.new ≡ checked least.old
        (option_tests (amount_tests (F.known facts.now) owner) count.now)) }
{
    match count.get() {
        Some(e) => note_amount(alloc, facts, owner, e, least),
        None => Ok(()),
    }
}

/// Notes what is wrong with a truth, and inside it.
#[tactic(auto, using(crate::proofs::Checked::checked_more))]
pub(crate) fn note_truth<F: Facts>(
    alloc: Global,
    facts: &F,
    owner: u32,
    e: &Expr,
    least: &mut Option<Fault>,
) -> Result<(), NoMemory>
    ensures { OnOk result (least.new
        ≡ checked least.old (truth_tests (F.known facts.now) owner e.now)) }
{
    note_condition(owner, e, least);
    note_inside(alloc, facts, owner, e, least)
}

#[tactic(auto, using(crate::proofs::Checked::checked_more))]
fn note_default<F: Facts>(
    alloc: Global,
    facts: &F,
    owner: u32,
    stored: &Type,
    e: &Expr,
    least: &mut Option<Fault>,
) -> Result<(), NoMemory>
    ensures { OnOk result (least.new
        ≡ checked least.old (default_tests (F.known facts.now) owner stored.now e.now)) }
{
    let stays = stored.is_known() && !value_goes(stored, e);
    let bare = e.ty().is_known() && !e.ty().is_plain();
    note_value(owner, e, least);
    note_at(stays, owner, Rule::TypeMismatch, value_span(e), least);
    note_at(bare, owner, Rule::TypeMismatch, value_span(e), least);
    note_inside(alloc, facts, owner, e, least)
}

fn order_enum(name: AttributeName) -> u32
    ensures { result ≡ order_enum name }
{
    if matches!(name, AttributeName::BitOrder) {
        1
    } else {
        0
    }
}

fn is_iterator(ty: &Type) -> bool
    ensures { result ≡ is_iterator ty.now }
{
    matches!(ty.level(), Level::Word(Word::Iterator))
}

/// Notes what is wrong with the value of an attribute, by what it is for.
#[tactic(auto, using(crate::proofs::Checked::checked_more))]
fn note_by_role<F: Facts>(
    alloc: Global,
    facts: &F,
    owner: u32,
    stored: &Type,
    name: AttributeName,
    role: Role,
    e: &Expr,
    least: &mut Option<Fault>,
) -> Result<(), NoMemory>
    ensures { OnOk result (least.new
        ≡ checked least.old (by_role (F.known facts.now) owner stored.now name role e.now)) }
{
    match role {
        Role::Amount => note_amount(alloc, facts, owner, e, least),
        Role::Delimiter => note_constant_value(alloc, facts, owner, is_bytes(e.ty()), e, least),
        Role::Test | Role::Requirement => note_truth(alloc, facts, owner, e, least),
        Role::Conversion => note_asked(alloc, facts, owner, e.ty().is_plain(), e, least),
        Role::Default => note_default(alloc, facts, owner, stored, e, least),
        Role::Order => {
            let right = is_enum_of(order_enum(name), e.ty());
            note_constant_value(alloc, facts, owner, right, e, least)
        }
        Role::Source => note_asked(alloc, facts, owner, is_bytes(e.ty()), e, least),
        Role::Place => note_asked(alloc, facts, owner, is_iterator(e.ty()), e, least),
        Role::Unasked | Role::Alone => {
            note_value(owner, e, least);
            note_inside(alloc, facts, owner, e, least)
        }
    }
}

fn note_attribute<F: Facts>(
    alloc: Global,
    facts: &F,
    owner: u32,
    kind: Kind,
    stored: &Type,
    attribute: &Attribute,
    least: &mut Option<Fault>,
) -> Result<(), NoMemory>
    ensures { OnOk result (least.new ≡ checked least.old
        (attribute_tests (F.known facts.now) owner kind stored.now attribute.now)) }
{
    let name = attribute.name;
    let role = role_of(kind, name);
    match &attribute.value {
        Some(e) => note_by_role(alloc, facts, owner, stored, name, role, e, least),
        None => Ok(()),
    }
}

/// Notes what is wrong with the values of attributes behind something that is read.
#[tactic(auto, using(crate::proofs::Checked::checked_more))]
pub(crate) fn note_attributes<F: Facts>(
    alloc: Global,
    facts: &F,
    owner: u32,
    kind: Kind,
    stored: &Type,
    all: &[Attribute],
    least: &mut Option<Fault>,
) -> Result<(), NoMemory>
    ensures { OnOk result (least.new ≡ checked least.old
        (all_tests (attribute_tests (F.known facts.now) owner kind stored.now) all.now)) }
{
    for attribute in all {
        note_attribute(alloc, facts, owner, kind, stored, attribute, least)?;
    }
    Ok(())
}
