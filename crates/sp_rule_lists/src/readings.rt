// The rules of bodies over how fields, elements and groups are read.
ghost use Rattle.std.specs.Prelude.{◌≡◌, ◌-◌, false, OnOk};
ghost use Rattle.sp_rules.specs.Least.{checked};
ghost use Rattle.sp_typed.specs.Exprs.{exprs};
ghost use Rattle.sp_type_operands.specs.Literals.{has_number, type_has};
ghost use Rattle.sp_typed_units.specs.Specs.{unit_read};
ghost use Rattle.sp_rule_lists.specs.Fields.{broken_tests, is_past_token, reads_past, reading_tests, spec_span, is_void_op, reads_void, exprs_inside, spec_tests};
ghost use Rattle.sp_type_fields.specs.Kinds.{kind_of};

use crate::attributes::{note_attributes, note_count};
use crate::inside::note_inside;
use sp_base::{NoMemory, Span};
use sp_rule_bodies::{Facts, note_call, note_written};
use sp_rules::{Fault, Rule, note_at};
use sp_type_fields::kind_of;
use sp_type_operands::past_signed;
use sp_typed::{Expr, ManyOp, NewOf};
use sp_typed_units::{ReadOp, Reading, Spec, SpecNode, TokenOp, UnitOf};
use sp_types::{Level, Type, Word};
use std::alloc::Global;

fn note_broken(owner: u32, op: &ReadOp, least: &mut Option<Fault>)
    ensures { least.new ≡ checked least.old (broken_tests owner op.now) }
{
    if let ReadOp::Broken(written) = op {
        note_written(owner, written, least);
    }
}

fn has_number(word: Word, n: u64) -> bool
    ensures { result ≡ has_number word false n }
{
    match word {
        Word::Uint(width) => n <= width.greatest(),
        Word::Int(width) => n < past_signed(width),
        _ => true,
    }
}

fn type_has(ty: &Type, n: u64) -> bool
    ensures { result ≡ type_has ty.now false n }
{
    match ty.level() {
        Level::Word(word) => has_number(word, n),
        Level::Made(..) => true,
    }
}

fn is_past_token(ty: &Type, token: &TokenOp) -> bool
    ensures { result ≡ is_past_token ty.now token.now }
{
    match token {
        TokenOp::Number(n) => !type_has(ty, *n),
        _ => false,
    }
}

fn reads_past(ty: &Type, op: &ReadOp) -> bool
    ensures { result ≡ reads_past ty.now op.now }
{
    match op {
        ReadOp::Token(token, _) => is_past_token(ty, token),
        _ => false,
    }
}

#[tactic(auto, using(crate::proofs::Checked::checked_more))]
fn note_reading(owner: u32, head: &Reading, least: &mut Option<Fault>)
    ensures { least.new ≡ checked least.old (reading_tests owner head.now) }
{
    let past = reads_past(&head.ty, &head.op);
    note_broken(owner, &head.op, least);
    note_at(past, owner, Rule::LiteralRange, head.span, least);
}

fn spec_span(spec: &Spec) -> Span
    ensures { result ≡ spec_span spec.now }
{
    match spec.level() {
        SpecNode::Read(head) => head.span,
        SpecNode::Unit(head, _) => head.span,
        SpecNode::List(span, _, _) => *span,
        SpecNode::Group(span, _, _) => *span,
    }
}

fn is_void_op(op: &ReadOp) -> bool
    ensures { result ≡ is_void_op op.now }
{
    matches!(op, ReadOp::Void)
}

#[cycle(voids)]
fn reads_void(spec: &Spec) -> bool
    ensures { result ≡ reads_void spec.now }
{
    match spec.level() {
        SpecNode::Read(head) => is_void_op(&head.op),
        SpecNode::Group(_, inner, _) => reads_void(inner),
        SpecNode::Unit(..) | SpecNode::List(..) => false,
    }
}

#[tactic(auto, using(crate::proofs::Checked::checked_more))]
fn note_exprs_inside<F: Facts>(
    alloc: Global,
    facts: &F,
    owner: u32,
    parts: &[Expr],
    least: &mut Option<Fault>,
) -> Result<(), NoMemory>
    ensures { OnOk result (least.new
        ≡ checked least.old (exprs_inside (F.known facts.now) owner (exprs parts.now))) }
{
    for e in parts {
        note_inside(alloc, facts, owner, e, least)?;
    }
    Ok(())
}

/// Notes what is wrong with the arguments of a unit that is read.
#[tactic(auto, using(crate::proofs::Checked::checked_more))]
fn note_unit_read<F: Facts>(
    alloc: Global,
    facts: &F,
    owner: u32,
    head: UnitOf,
    arguments: &[Expr],
    least: &mut Option<Fault>,
) -> Result<(), NoMemory>
    ensures { OnOk result (least.new ≡ checked least.old
        (spec_tests (F.known facts.now) owner (unit_read head (exprs arguments.now)))) }
{
    let op = ManyOp::New(NewOf::Unit(head.unit), head.span);
    let receiver = Type::word(Word::Unknown);
    let noted = note_call(facts, owner, &op, head.span, &receiver, arguments, least);
    drop(receiver);
    noted?;
    note_exprs_inside(alloc, facts, owner, arguments, least)
}

/// Notes what is wrong with how something is read.
#[cycle(specs)]
#[tactic(auto, using(crate::proofs::Checked::checked_more))]
pub(crate) fn note_spec<F: Facts>(
    alloc: Global,
    facts: &F,
    owner: u32,
    spec: &Spec,
    least: &mut Option<Fault>,
) -> Result<(), NoMemory>
    ensures { OnOk result (least.new
        ≡ checked least.old (spec_tests (F.known facts.now) owner spec.now)) }
{
    match spec.level() {
        SpecNode::Read(head) => {
            note_reading(owner, head, least);
            Ok(())
        }
        SpecNode::Unit(head, arguments) => {
            note_unit_read(alloc, facts, owner, *head, arguments, least)
        }
        SpecNode::List(_, element, count) => {
            note_spec(alloc, facts, owner, element, least)?;
            let void = reads_void(element);
            let span = spec_span(element);
            note_at(void, owner, Rule::TypeMismatch, span, least);
            note_count(alloc, facts, owner, count, least)
        }
        SpecNode::Group(_, inner, attributes) => {
            note_spec(alloc, facts, owner, inner, least)?;
            let stored = Type::word(Word::Unknown);
            let kind = kind_of(inner);
            let noted = note_attributes(alloc, facts, owner, kind, &stored, attributes, least);
            drop(stored);
            noted
        }
    }
}
