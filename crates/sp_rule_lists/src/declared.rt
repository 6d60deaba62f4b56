// The rules of bodies over constants, enums and aliases.
ghost use Rattle.std.specs.Prelude.{◌≡◌, ◌&&◌, not, OnOk};
ghost use Rattle.sp_rules.specs.Least.{checked};
ghost use Rattle.sp_rule_lists.specs.Lists.{all_tests, option_tests};
ghost use Rattle.sp_rule_lists.specs.Bodies.{regex_tests, told_tests, declared_tests, value_or_regex_tests, const_choice_tests, inside_const, lacks_value, const_tests, lacks_number, is_past_label, is_minus_literal, is_below_zero, is_signed_zero, is_no_number, number_tests, label_tests, enum_tests, alias_tests, conversion_tests};

use crate::inside::note_inside;
use sp_base::NoMemory;
use sp_rule_bodies::{
    Facts, is_regex, note_condition, note_target, note_value, note_written, unlike, value_span,
};
use sp_rules::{Fault, Rule, note_at};
use sp_type_operands::{is_negative, is_unsigned, number_of};
use sp_typed::{Expr, ExprLevel, Written};
use sp_typed_units::{Alias, Constant, ConstantValue, EndlessConversion, Enum, Label, LabelNumber};
use sp_types::Type;
use std::alloc::Global;

#[tactic(auto, using(crate::proofs::Checked::checked_more))]
fn note_regex(owner: u32, ty: &Type, written: &Option<Written>, e: &Expr, least: &mut Option<Fault>)
    ensures { least.new ≡ checked least.old (regex_tests owner ty.now written.now e.now) }
{
    if let Some(written) = written {
        note_written(owner, written, least);
        note_at(ty.is_known(), owner, Rule::NotAssignable, e.span(), least);
    }
}

#[tactic(auto, using(crate::proofs::Checked::checked_more))]
fn note_told(owner: u32, ty: &Type, written: &Option<Written>, e: &Expr, least: &mut Option<Fault>)
    ensures { least.new ≡ checked least.old (told_tests owner ty.now written.now e.now) }
{
    match written {
        None => note_value(owner, e, least),
        Some(written) => {
            note_written(owner, written, least);
            note_target(owner, ty, e, least);
        }
    }
}

fn note_declared(
    owner: u32,
    ty: &Type,
    written: &Option<Written>,
    e: &Expr,
    least: &mut Option<Fault>,
)
    ensures { least.new ≡ checked least.old (declared_tests owner ty.now written.now e.now) }
{
    if is_regex(e.ty()) {
        note_regex(owner, ty, written, e, least);
    } else {
        note_told(owner, ty, written, e, least);
    }
}

fn note_value_or_regex(owner: u32, e: &Expr, least: &mut Option<Fault>)
    ensures { least.new ≡ checked least.old (value_or_regex_tests owner e.now) }
{
    if !is_regex(e.ty()) {
        note_value(owner, e, least);
    }
}

#[tactic(auto, using(crate::proofs::Checked::checked_more))]
fn note_const_choice(owner: u32, c: &Expr, a: &Expr, b: &Expr, least: &mut Option<Fault>)
    ensures { least.new ≡ checked least.old (const_choice_tests owner c.now a.now b.now) }
{
    note_condition(owner, c, least);
    note_value_or_regex(owner, a, least);
    note_value_or_regex(owner, b, least);
    note_at(
        unlike(a, b),
        owner,
        Rule::TypeMismatch,
        value_span(b),
        least,
    );
}

/// Notes what is wrong inside the value of a constant. It calls itself as deep as the value holds `? :` in its own branches.
#[tactic(auto, using(crate::proofs::Checked::checked_more))]
fn note_inside_const<F: Facts>(
    alloc: Global,
    facts: &F,
    owner: u32,
    e: &Expr,
    least: &mut Option<Fault>,
) -> Result<(), NoMemory>
    ensures { OnOk result (least.new
        ≡ checked least.old (inside_const (F.known facts.now) owner e.now)) }
{
    match e.level() {
        ExprLevel::Three(_, c, a, b) => {
            note_const_choice(owner, c, a, b, least);
            note_inside(alloc, facts, owner, c, least)?;
            note_inside_const(alloc, facts, owner, a, least)?;
            note_inside_const(alloc, facts, owner, b, least)
        }
        _ => note_inside(alloc, facts, owner, e, least),
    }
}

fn lacks_value(value: &ConstantValue) -> bool
    ensures { result ≡ lacks_value value.now }
{
    matches!(value, ConstantValue::NotConstant)
}

#[tactic(auto, using(crate::proofs::Checked::checked_more))]
fn note_constant<F: Facts>(
    alloc: Global,
    facts: &F,
    constant: &Constant,
    least: &mut Option<Fault>,
) -> Result<(), NoMemory>
    ensures { OnOk result (least.new
        ≡ checked least.old (const_tests (F.known facts.now) constant.now)) }
{
    let owner = constant.module;
    let e = &constant.expr;
    let lacks = lacks_value(&constant.value);
    note_declared(owner, &constant.ty, &constant.written, e, least);
    note_at(lacks, owner, Rule::NotConstant, e.span(), least);
    note_inside_const(alloc, facts, owner, e, least)
}

/// Notes what is wrong with constants.
#[tactic(auto, using(crate::proofs::Checked::checked_more))]
pub(crate) fn note_constants<F: Facts>(
    alloc: Global,
    facts: &F,
    all: &[Constant],
    least: &mut Option<Fault>,
) -> Result<(), NoMemory>
    ensures { OnOk result (least.new
        ≡ checked least.old (all_tests (const_tests (F.known facts.now)) all.now)) }
{
    for constant in all {
        note_constant(alloc, facts, constant, least)?;
    }
    Ok(())
}

fn lacks_number(number: LabelNumber) -> bool
    ensures { result ≡ lacks_number number }
{
    matches!(number, LabelNumber::NotConstant)
}

fn is_past_label(number: LabelNumber) -> bool
    ensures { result ≡ is_past_label number }
{
    matches!(number, LabelNumber::Past)
}

fn is_minus_literal(e: &Expr) -> bool
    ensures { result ≡ is_minus_literal e.now }
{
    e.is_literal() && is_negative(e)
}

/// Whether it is a literal below zero.
fn is_below_zero(e: &Expr) -> bool
    ensures { result ≡ is_below_zero e.now }
{
    is_minus_literal(e) && number_of(e) != 0
}

/// Whether it is a zero with a minus sign.
fn is_signed_zero(e: &Expr) -> bool
    ensures { result ≡ is_signed_zero e.now }
{
    is_minus_literal(e) && number_of(e) == 0
}

/// Whether it is of a known type, and no unsigned number.
fn is_no_number(e: &Expr) -> bool
    ensures { result ≡ is_no_number e.now }
{
    is_signed_zero(e) || (e.ty().is_known() && (!e.is_literal() && !is_unsigned(e.ty())))
}

#[tactic(auto, using(crate::proofs::Checked::checked_more))]
fn note_number<F: Facts>(
    alloc: Global,
    facts: &F,
    owner: u32,
    number: LabelNumber,
    e: &Expr,
    least: &mut Option<Fault>,
) -> Result<(), NoMemory>
    ensures { OnOk result (least.new
        ≡ checked least.old (number_tests (F.known facts.now) owner number e.now)) }
{
    note_value(owner, e, least);
    note_at(is_no_number(e), owner, Rule::TypeMismatch, e.span(), least);
    note_at(is_below_zero(e), owner, Rule::LiteralRange, e.span(), least);
    note_at(
        lacks_number(number),
        owner,
        Rule::NotConstant,
        e.span(),
        least,
    );
    note_inside(alloc, facts, owner, e, least)
}

fn note_label<F: Facts>(
    alloc: Global,
    facts: &F,
    owner: u32,
    label: &Label,
    least: &mut Option<Fault>,
) -> Result<(), NoMemory>
    ensures { OnOk result (least.new
        ≡ checked least.old (label_tests (F.known facts.now) owner label.now)) }
{
    let past = is_past_label(label.number);
    note_at(past, owner, Rule::LiteralRange, label.span, least);
    match &label.expr {
        Some(e) => note_number(alloc, facts, owner, label.number, e, least),
        None => Ok(()),
    }
}

#[tactic(auto, using(crate::proofs::Checked::checked_more))]
fn note_labels<F: Facts>(
    alloc: Global,
    facts: &F,
    owner: u32,
    all: &[Label],
    least: &mut Option<Fault>,
) -> Result<(), NoMemory>
    ensures { OnOk result (least.new
        ≡ checked least.old (all_tests (label_tests (F.known facts.now) owner) all.now)) }
{
    for label in all {
        note_label(alloc, facts, owner, label, least)?;
    }
    Ok(())
}

fn note_enum<F: Facts>(
    alloc: Global,
    facts: &F,
    one: &Enum,
    least: &mut Option<Fault>,
) -> Result<(), NoMemory>
    ensures { OnOk result (least.new
        ≡ checked least.old (enum_tests (F.known facts.now) one.now)) }
{
    note_labels(alloc, facts, one.module, one.labels.as_slice(), least)
}

/// Notes what is wrong with the labels of enums.
#[tactic(auto, using(crate::proofs::Checked::checked_more))]
pub(crate) fn note_enums<F: Facts>(
    alloc: Global,
    facts: &F,
    all: &[Enum],
    least: &mut Option<Fault>,
) -> Result<(), NoMemory>
    ensures { OnOk result (least.new
        ≡ checked least.old (all_tests (enum_tests (F.known facts.now)) all.now)) }
{
    for one in all {
        note_enum(alloc, facts, one, least)?;
    }
    Ok(())
}

#[tactic(auto, using(crate::proofs::Checked::checked_more))]
fn note_alias(alias: &Alias, least: &mut Option<Fault>)
    ensures { least.new ≡ checked least.old (alias_tests alias.now) }
{
    let span = alias.written.span;
    note_written(alias.module, &alias.written, least);
    note_at(alias.endless, alias.module, Rule::TypeMismatch, span, least);
}

/// Notes what is wrong with the types of aliases.
#[tactic(auto, using(crate::proofs::Checked::checked_more))]
pub(crate) fn note_aliases(all: &[Alias], least: &mut Option<Fault>)
    ensures { least.new ≡ checked least.old (all_tests alias_tests all.now) }
{
    for alias in all {
        note_alias(alias, least);
    }
}

/// Notes the conversions that are made of themselves.
#[tactic(auto, using(crate::proofs::Checked::checked_more))]
pub(crate) fn note_conversions(all: &[EndlessConversion], least: &mut Option<Fault>)
    ensures { least.new ≡ checked least.old (all_tests conversion_tests all.now) }
{
    for endless in all {
        note_at(
            true,
            endless.module,
            Rule::TypeMismatch,
            endless.span,
            least,
        );
    }
}
