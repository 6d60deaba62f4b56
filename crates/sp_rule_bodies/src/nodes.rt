// The rules at one node of an expression.
ghost use Rattle.std.specs.Prelude.{◌≡◌, ◌&&◌, ◌||◌, not, if◌then◌else◌, OnOk, IfOk};
ghost use Rattle.sp_rules.specs.Least.{better, checked};
ghost use Rattle.sp_types.specs.Types.{tys, is_key};
ghost use Rattle.sp_typed.specs.Exprs.{type_of, span_of, exprs};
ghost use Rattle.sp_type_operands.specs.Operands.{is_unsigned, stands_before, stands_behind, first_type, unknown};
ghost use Rattle.sp_rule_bodies.specs.Known.{Known};
ghost use Rattle.sp_rules.specs.Faults.{at};
ghost use Rattle.sp_rule_bodies.specs.ExprTests.{is_unmeant, leaf_tests, negates, takes_no_cast, cast_tests, no_member_tests, one_tests, disagreeing, is_past_key, disagree, operand_tests, is_constant, is_not_constant, item_tests, key_tests, index_tests, two_tests, unlike, choice_tests, call_tests, many_tests, expr_tests};

use crate::calls::{note_call, note_convert, note_method, note_uncalled};
use crate::facts::{Constancy, Facts};
use crate::rows::{note_map, note_row, note_values, unlike};
use crate::values::{
    knows, note_condition, note_object, note_right, note_value, note_written, note_wrong,
    value_goes, value_span,
};
use sp_base::{NoMemory, Span};
use sp_rules::{Fault, Rule, note_at};
use sp_type_operands::{
    OperatorSort, has_size, is_enum, is_integer, is_over, is_past, is_signed, is_unsigned, sort_of,
    stands_alone,
};
use sp_typed::{Expr, ExprLevel, LeafOp, Many, ManyOp, One, OneOp, Standing, Two, TwoOp, Written};
use sp_types::{Level, Maker, Type, Word};
use sp_words::UnaryOp;
use std::alloc::Global;

fn is_unmeant(standing: Standing) -> bool
    ensures { result ≡ is_unmeant standing }
{
    matches!(standing, Standing::Unmeant)
}

fn note_leaf(owner: u32, e: &Expr, op: &LeafOp, least: &mut Option<Fault>)
    ensures { least.new ≡ checked least.old (leaf_tests owner e.now op.now) }
{
    match op {
        LeafOp::TypedNumber(_) => {
            note_at(is_over(e), owner, Rule::LiteralRange, e.span(), least);
        }
        LeafOp::Empty(written) => note_written(owner, written, least),
        LeafOp::Itself(standing) | LeafOp::Current(standing) => {
            let unmeant = is_unmeant(*standing);
            note_at(unmeant, owner, Rule::SelfOutside, e.span(), least);
        }
        _ => {}
    }
}

fn negates(e: &Expr) -> bool
    ensures { result ≡ negates e.now }
{
    e.is_number() || stands_alone(UnaryOp::Negate, e.ty())
}

fn takes_no_cast(to: &Type, written: &Written) -> bool
    ensures { result ≡ takes_no_cast to.now written.now }
{
    !is_integer(to) && written.unnamed.is_none() && written.misplaced.is_none()
}

#[tactic(auto, using(crate::proofs::Swept::checked_more))]
fn note_cast(owner: u32, to: &Type, written: &Written, e: &Expr, least: &mut Option<Fault>)
    ensures { least.new ≡ checked least.old (cast_tests owner to.now written.now e.now) }
{
    note_written(owner, written, least);
    let other = takes_no_cast(to, written);
    note_at(other, owner, Rule::TypeMismatch, written.span, least);
    note_value(owner, e, least);
    let right = is_integer(e.ty()) || is_enum(e.ty());
    note_wrong(right, owner, e, least);
    let signed = is_enum(e.ty()) && is_signed(to);
    note_at(signed, owner, Rule::TypeMismatch, written.span, least);
}

fn note_no_member(owner: u32, name: Span, e: &Expr, least: &mut Option<Fault>)
    ensures { least.new ≡ checked least.old (no_member_tests owner name e.now) }
{
    note_object(owner, e, least);
    note_at(knows(e), owner, Rule::UnknownMember, name, least);
}

fn note_one(owner: u32, head: &One, e: &Expr, least: &mut Option<Fault>)
    ensures { least.new ≡ checked least.old (one_tests owner head.now e.now) }
{
    match &head.op {
        OneOp::Negate => note_right(negates(e), owner, e, least),
        OneOp::Not => note_right(stands_alone(UnaryOp::Not, e.ty()), owner, e, least),
        OneOp::Complement => {
            note_right(stands_alone(UnaryOp::Complement, e.ty()), owner, e, least);
        }
        OneOp::Size => note_right(has_size(e.ty()), owner, e, least),
        OneOp::Cast(written) => note_cast(owner, &head.ty, written, e, least),
        OneOp::NoMember(name) => note_no_member(owner, *name, e, least),
        OneOp::Widen => {}
        _ => note_value(owner, e, least),
    }
}

fn disagreeing<'a>(sort: OperatorSort, a: &'a Expr, b: &'a Expr) -> &'a Expr
    ensures { result.now ≡ disagreeing sort a.now b.now }
{
    match sort {
        OperatorSort::Member => a,
        _ => b,
    }
}

fn is_past_key(sort: OperatorSort, a: &Expr) -> bool
    ensures { result ≡ is_past_key sort a.now }
{
    match sort {
        OperatorSort::Member => is_past(a),
        _ => false,
    }
}

fn disagree(sort: OperatorSort, a: &Expr, b: &Expr) -> Result<bool, NoMemory>
    ensures { IfOk result (λ d. d ≡ disagree sort a.now b.now) }
{
    if is_past_key(sort, a) {
        return Ok(true);
    }
    if knows(a) && knows(b) && sort.stands_before(a.ty()) && sort.stands_behind(b.ty()) {
        Ok(!sort.agree(a.ty(), b.ty())?)
    } else {
        Ok(false)
    }
}

fn note_operands(
    owner: u32,
    sort: OperatorSort,
    a: &Expr,
    b: &Expr,
    least: &mut Option<Fault>,
) -> Result<(), NoMemory>
    ensures { OnOk result (least.new ≡ checked least.old (operand_tests owner sort a.now b.now)) }
{
    let apart = disagree(sort, a, b)?;
    note_right(sort.stands_before(a.ty()), owner, a, least);
    note_right(sort.stands_behind(b.ty()), owner, b, least);
    let span = value_span(disagreeing(sort, a, b));
    note_at(apart, owner, Rule::TypeMismatch, span, least);
    Ok(())
}

fn is_constant(constancy: Constancy) -> bool
    ensures { result ≡ is_constant constancy }
{
    matches!(constancy, Constancy::Constant)
}

/// Whether a constancy is that of what is not constant.
pub fn is_not_constant(constancy: Constancy) -> bool
    ensures { result ≡ is_not_constant constancy }
{
    matches!(constancy, Constancy::NotConstant)
}

fn note_item(owner: u32, constancy: Constancy, index: &Expr, least: &mut Option<Fault>)
    ensures { least.new ≡ checked least.old (item_tests owner constancy index.now) }
{
    let past = knows(index) && (!is_unsigned(index.ty()) || is_constant(constancy));
    note_at(past, owner, Rule::TypeMismatch, value_span(index), least);
    let open = is_not_constant(constancy);
    note_at(open, owner, Rule::NotConstant, index.span(), least);
}

fn note_key(owner: u32, to: &Type, index: &Expr, least: &mut Option<Fault>)
    ensures { least.new ≡ checked least.old (key_tests owner to.now index.now) }
{
    let stays = !value_goes(to, index);
    note_at(stays, owner, Rule::TypeMismatch, value_span(index), least);
}

/// Notes what is wrong with a key of a set or of a map with these parts.
fn note_key_of(owner: u32, parts: &[Type], index: &Expr, least: &mut Option<Fault>)
    ensures { least.new
        ≡ checked least.old (key_tests owner (first_type (tys parts.now)) index.now) }
{
    match parts.first() {
        Some(to) => note_key(owner, to, index, least),
        None => {
            let unknown = Type::word(Word::Unknown);
            note_key(owner, &unknown, index, least);
            drop(unknown);
        }
    }
}

/// Notes what is wrong with what stands for a member of a tuple.
fn note_member<F: Facts>(
    alloc: Global,
    facts: &F,
    owner: u32,
    index: &Expr,
    least: &mut Option<Fault>,
) -> Result<(), NoMemory>
    ensures { OnOk result (least.new ≡ checked least.old
        (item_tests owner ((F.known facts.now).constancy index.now) index.now)) }
{
    let constancy = facts.constancy(alloc, index)?;
    note_item(owner, constancy, index, least);
    Ok(())
}

fn note_index<F: Facts>(
    alloc: Global,
    facts: &F,
    owner: u32,
    a: &Expr,
    index: &Expr,
    least: &mut Option<Fault>,
) -> Result<(), NoMemory>
    ensures { OnOk result (least.new
        ≡ checked least.old
        (index_tests (F.known facts.now) owner (type_of a.now) a.now index.now)) }
{
    match a.ty().level() {
        Level::Made(Maker::Vector, _) => {
            note_wrong(is_unsigned(index.ty()), owner, index, least);
            Ok(())
        }
        Level::Made(Maker::Tuple, _) => note_member(alloc, facts, owner, index, least),
        Level::Made(Maker::Set | Maker::Map, parts) => {
            note_key_of(owner, parts, index, least);
            Ok(())
        }
        Level::Word(_) => {
            note_wrong(false, owner, a, least);
            Ok(())
        }
    }
}

fn note_two<F: Facts>(
    alloc: Global,
    facts: &F,
    owner: u32,
    head: &Two,
    a: &Expr,
    b: &Expr,
    least: &mut Option<Fault>,
) -> Result<(), NoMemory>
    ensures { OnOk result (least.new
        ≡ checked least.old (two_tests (F.known facts.now) owner head.now a.now b.now)) }
{
    match &head.op {
        TwoOp::Binary(op) => note_operands(owner, sort_of(*op), a, b, least),
        TwoOp::Index => {
            note_value(owner, a, least);
            note_value(owner, b, least);
            note_index(alloc, facts, owner, a, b, least)
        }
        TwoOp::Item(_) => {
            note_value(owner, a, least);
            note_right(is_unsigned(b.ty()), owner, b, least);
            Ok(())
        }
    }
}

fn note_choice(owner: u32, c: &Expr, a: &Expr, b: &Expr, least: &mut Option<Fault>)
    ensures { least.new ≡ checked least.old (choice_tests owner c.now a.now b.now) }
{
    note_condition(owner, c, least);
    note_value(owner, a, least);
    note_value(owner, b, least);
    note_at(
        unlike(a, b),
        owner,
        Rule::TypeMismatch,
        value_span(b),
        least,
    );
}

/// Notes what is wrong with a call of what has no receiver.
fn note_plain_call<F: Facts>(
    facts: &F,
    owner: u32,
    op: &ManyOp,
    span: Span,
    parts: &[Expr],
    least: &mut Option<Fault>,
) -> Result<(), NoMemory>
    ensures { OnOk result (least.new ≡ checked least.old
        (call_tests (F.known facts.now) owner op.now span unknown (exprs parts.now))) }
{
    let unknown = Type::word(Word::Unknown);
    let noted = note_call(facts, owner, op, span, &unknown, parts, least);
    drop(unknown);
    noted
}

fn note_many<F: Facts>(
    facts: &F,
    owner: u32,
    head: &Many,
    parts: &[Expr],
    least: &mut Option<Fault>,
) -> Result<(), NoMemory>
    ensures { OnOk result (least.new
        ≡ checked least.old (many_tests (F.known facts.now) owner head.now (exprs parts.now))) }
{
    match &head.op {
        ManyOp::Tuple => {
            note_values(owner, parts, least);
            Ok(())
        }
        ManyOp::Vector => {
            note_row(owner, false, head.span, parts, least);
            Ok(())
        }
        ManyOp::Set => {
            note_row(owner, true, head.span, parts, least);
            Ok(())
        }
        ManyOp::Map => {
            note_map(owner, head.span, parts, least);
            Ok(())
        }
        ManyOp::Call(_) => note_plain_call(facts, owner, &head.op, head.span, parts, least),
        ManyOp::Convert(_) => {
            note_convert(owner, head.span, parts, least);
            Ok(())
        }
        ManyOp::New(_, path) => note_plain_call(facts, owner, &head.op, *path, parts, least),
        ManyOp::Method(..) | ManyOp::OfUnit(..) | ManyOp::OfSink(_) => {
            note_method(facts, owner, &head.op, head.span, parts, least)
        }
        ManyOp::NoCall => {
            note_uncalled(owner, parts, least);
            Ok(())
        }
    }
}

/// Notes what is wrong with a node, apart from its parts.
pub(crate) fn note_node<F: Facts>(
    alloc: Global,
    facts: &F,
    owner: u32,
    e: &Expr,
    least: &mut Option<Fault>,
) -> Result<(), NoMemory>
    ensures { OnOk result (least.new
        ≡ checked least.old (expr_tests (F.known facts.now) owner e.now)) }
{
    match e.level() {
        ExprLevel::Leaf(head) => {
            note_leaf(owner, e, &head.op, least);
            Ok(())
        }
        ExprLevel::One(head, a) => {
            note_one(owner, head, a, least);
            Ok(())
        }
        ExprLevel::Two(head, a, b) => note_two(alloc, facts, owner, head, a, b, least),
        ExprLevel::Three(_, c, a, b) => {
            note_choice(owner, c, a, b, least);
            Ok(())
        }
        ExprLevel::Many(head, parts) => note_many(facts, owner, head, parts, least),
    }
}
