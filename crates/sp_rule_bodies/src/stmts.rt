// The rules at one statement, apart from its expressions.
ghost use Rattle.std.specs.Prelude.{◌≡◌, ◌&&◌, not, if◌then◌else◌, OnOk, IfOk};
ghost use Rattle.sp_rules.specs.Least.{better, checked};
ghost use Rattle.sp_types.specs.Types.{tys};
ghost use Rattle.sp_typed.specs.Exprs.{exprs};
ghost use Rattle.sp_typed.specs.Stmts.{branch_row, case_row};
ghost use Rattle.sp_typed.specs.Exprs.{type_of};
ghost use Rattle.sp_type_operands.specs.Operands.{stands_before};
ghost use Rattle.sp_type_operands.specs.declared.operators.OperatorSort.TheVariants as sort_is;
ghost use Rattle.sp_rule_bodies.specs.Known.{Known};
ghost use Rattle.sp_rule_bodies.specs.Values.{right_tests};
ghost use Rattle.sp_rules.specs.Faults.{at};
ghost use Rattle.sp_rule_bodies.specs.StmtTests.{is_map, bare_local_tests, local_tests, bare_op_tests, return_tests, has_changed_keys, key_change_tests, change_tests, alone_tests, valued_op_tests, takes_target, assign_tests, print_tests, branches_tests, is_sequence, differs, case_tests, cases_tests, stmt_tests};
ghost use Rattle.sp_typed.specs.StmtViews.{stmt_of};

use crate::calls::{may_change, may_change_in};
use crate::facts::Facts;
use crate::printable::is_printable;
use crate::values::{
    is_no_object, is_no_value, is_set, is_void, knows, note_condition, note_right, note_target,
    note_value, note_written, note_wrong, value_span,
};
use sp_base::{NoMemory, Span};
use sp_rules::{Fault, Rule, note_at};
use sp_type_operands::{OperatorSort, is_bytes, is_integer, is_past, is_text, seen};
use sp_typed::{BareOp, Expr, ExprLevel, Local, Stmt, StmtNode, TwoOp, ValuedOp, Written};
use sp_types::{Level, Maker, Type, Word};
use sp_words::AssignOp;

fn is_map(t: &Type) -> bool
    ensures { result ≡ is_map t.now }
{
    matches!(t.level(), Level::Made(Maker::Map, _))
}

fn note_bare_local(owner: u32, name: Span, written: &Option<Written>, least: &mut Option<Fault>)
    ensures { least.new ≡ checked least.old (bare_local_tests owner name written.now) }
{
    match written {
        None => note_at(true, owner, Rule::TypeMismatch, name, least),
        Some(written) => note_written(owner, written, least),
    }
}

#[tactic(auto, using(crate::proofs::Swept::checked_more))]
fn note_local(
    owner: u32,
    ty: &Type,
    written: &Option<Written>,
    value: &Expr,
    least: &mut Option<Fault>,
)
    ensures { least.new ≡ checked least.old (local_tests owner ty.now written.now value.now) }
{
    match written {
        None => note_value(owner, value, least),
        Some(written) => {
            note_written(owner, written, least);
            note_target(owner, ty, value, least);
        }
    }
}

fn note_bare(wanted: &Option<Type>, owner: u32, span: Span, op: &BareOp, least: &mut Option<Fault>)
    ensures { least.new ≡ checked least.old (bare_op_tests wanted.now owner span op.now) }
{
    match op {
        BareOp::Local(local) => {
            note_bare_local(owner, local.name, &local.written, least);
        }
        BareOp::Return => {
            note_at(wanted.is_some(), owner, Rule::NotAssignable, span, least);
        }
        BareOp::Break(meant) | BareOp::Continue(meant) | BareOp::Stop(meant) => {
            note_at(!*meant, owner, Rule::OutsideLoop, span, least);
        }
        BareOp::Confirm(meant) | BareOp::Reject(meant) => {
            note_at(!*meant, owner, Rule::SelfOutside, span, least);
        }
    }
}

fn note_return(wanted: &Option<Type>, owner: u32, e: &Expr, least: &mut Option<Fault>)
    ensures { least.new ≡ checked least.old (return_tests wanted.now owner e.now) }
{
    match wanted {
        None => {
            note_at(
                is_no_value(e),
                owner,
                Rule::TypeMismatch,
                value_span(e),
                least,
            );
            note_at(true, owner, Rule::NotAssignable, e.span(), least);
        }
        Some(to) => note_target(owner, to, e, least),
    }
}

fn has_changed_keys(deletes: bool, t: &Type) -> bool
    ensures { result ≡ has_changed_keys deletes t.now }
{
    is_set(t) || (deletes && is_map(t))
}

fn note_key_change<F: Facts>(
    facts: &F,
    owner: u32,
    deletes: bool,
    op: &TwoOp,
    span: Span,
    a: &Expr,
    least: &mut Option<Fault>,
)
    ensures { least.new
        ≡ checked least.old (key_change_tests (F.known facts.now) owner deletes op.now span a.now) }
{
    match op {
        TwoOp::Index => {
            let wrong = knows(a) && !has_changed_keys(deletes, a.ty());
            note_at(wrong, owner, Rule::TypeMismatch, span, least);
            note_at(
                !may_change_in(facts, a),
                owner,
                Rule::NotAssignable,
                span,
                least,
            );
        }
        _ => note_at(true, owner, Rule::TypeMismatch, span, least),
    }
}

fn note_change<F: Facts>(facts: &F, owner: u32, deletes: bool, e: &Expr, least: &mut Option<Fault>)
    ensures { least.new ≡ checked least.old (change_tests (F.known facts.now) owner deletes e.now) }
{
    match e.level() {
        ExprLevel::Two(head, a, _) => {
            note_key_change(facts, owner, deletes, &head.op, head.span, a, least);
        }
        _ => note_at(true, owner, Rule::TypeMismatch, e.span(), least),
    }
}

fn note_alone(owner: u32, e: &Expr, least: &mut Option<Fault>)
    ensures { least.new ≡ checked least.old (alone_tests owner e.now) }
{
    let test = is_no_value(e) && !is_void(e.ty());
    note_at(test, owner, Rule::TypeMismatch, value_span(e), least);
    note_at(is_past(e), owner, Rule::LiteralRange, e.span(), least);
}

fn note_valued<F: Facts>(
    facts: &F,
    wanted: &Option<Type>,
    owner: u32,
    op: &ValuedOp,
    e: &Expr,
    least: &mut Option<Fault>,
)
    ensures { least.new
        ≡ checked least.old (valued_op_tests (F.known facts.now) wanted.now owner op.now e.now) }
{
    match op {
        ValuedOp::Local(local) => note_local(owner, &local.ty, &local.written, e, least),
        ValuedOp::Return => note_return(wanted, owner, e, least),
        ValuedOp::Throw => note_right(is_text(e.ty()), owner, e, least),
        ValuedOp::Assert(_) => note_condition(owner, e, least),
        ValuedOp::Add(_) => note_change(facts, owner, false, e, least),
        ValuedOp::Delete(_) => note_change(facts, owner, true, e, least),
        ValuedOp::Expr => note_alone(owner, e, least),
    }
}

fn takes_target(op: AssignOp, t: &Type) -> bool
    ensures { result ≡ takes_target op t.now }
{
    match op {
        AssignOp::Set => true,
        AssignOp::Add => is_integer(t) || is_bytes(t) || is_text(t),
        AssignOp::Subtract => is_integer(t),
    }
}

fn note_assign<F: Facts>(
    facts: &F,
    owner: u32,
    op: AssignOp,
    target: &Expr,
    value: &Expr,
    least: &mut Option<Fault>,
) -> Result<(), NoMemory>
    ensures { OnOk result (least.new
        ≡ checked least.old (assign_tests (F.known facts.now) owner op target.now value.now)) }
{
    let to = seen(target)?;
    note_at(
        is_no_object(target),
        owner,
        Rule::TypeMismatch,
        value_span(target),
        least,
    );
    note_wrong(takes_target(op, target.ty()), owner, target, least);
    note_at(
        !may_change(facts, target),
        owner,
        Rule::NotAssignable,
        target.span(),
        least,
    );
    note_target(owner, &to, value, least);
    drop(to);
    Ok(())
}

fn note_print(owner: u32, parts: &[Expr], least: &mut Option<Fault>)
    ensures { least.new ≡ checked least.old (print_tests owner (exprs parts.now)) }
{
    for e in parts {
        note_right(is_printable(e.ty()), owner, e, least);
    }
}

fn note_branches(owner: u32, branches: &[(Expr, Stmt)], least: &mut Option<Fault>)
    ensures { least.new ≡ checked least.old (branches_tests owner (branch_row branches.now)) }
{
    for branch in branches {
        note_condition(owner, &branch.0, least);
    }
}

fn is_sequence(t: &Type) -> bool
    ensures { result ≡ is_sequence t.now }
{
    match t.level() {
        Level::Word(Word::Bytes) => true,
        Level::Made(Maker::Vector | Maker::Set | Maker::Map, _) => true,
        _ => false,
    }
}

fn differs(subject: &Expr, e: &Expr) -> Result<bool, NoMemory>
    ensures { IfOk result (λ d. d ≡ differs subject.now e.now) }
{
    let alike = OperatorSort::Alike;
    if knows(subject) && alike.stands_before(subject.ty()) {
        Ok(!alike.agree(subject.ty(), e.ty())?)
    } else {
        Ok(false)
    }
}

/// Notes what is wrong with values that are compared with a subject.
pub fn note_case(
    owner: u32,
    subject: &Expr,
    values: &[Expr],
    least: &mut Option<Fault>,
) -> Result<(), NoMemory>
    ensures { OnOk result (least.new
        ≡ checked least.old (case_tests owner subject.now (exprs values.now))) }
{
    for e in values {
        let apart = differs(subject, e)?;
        note_right(!apart, owner, e, least);
    }
    Ok(())
}

#[tactic(auto, using(crate::proofs::Swept::checked_more))]
fn note_cases(
    owner: u32,
    subject: &Expr,
    cases: &[(Vec<Expr>, Stmt)],
    least: &mut Option<Fault>,
) -> Result<(), NoMemory>
    ensures { OnOk result (least.new
        ≡ checked least.old (cases_tests owner subject.now (case_row cases.now))) }
{
    for case in cases {
        note_case(owner, subject, &case.0, least)?;
    }
    Ok(())
}

fn note_switch(
    owner: u32,
    subject: &Expr,
    cases: &[(Vec<Expr>, Stmt)],
    least: &mut Option<Fault>,
) -> Result<(), NoMemory>
    ensures { OnOk result (least.new ≡ checked (checked least.old
        (right_tests owner (stands_before sort_is.Alike (type_of subject.now)) subject.now))
        (cases_tests owner subject.now (case_row cases.now))) }
{
    let right = OperatorSort::Alike.stands_before(subject.ty());
    note_right(right, owner, subject, least);
    note_cases(owner, subject, cases, least)
}

/// Notes what is wrong with a statement, apart from its expressions and the statements in it, where a result of this type
/// is wanted.
pub(crate) fn note_one_stmt<F: Facts>(
    facts: &F,
    wanted: &Option<Type>,
    owner: u32,
    s: &Stmt,
    least: &mut Option<Fault>,
) -> Result<(), NoMemory>
    ensures { OnOk result (least.new
        ≡ checked least.old (stmt_tests (F.known facts.now) wanted.now owner s.now)) }
{
    match s.level() {
        StmtNode::Bare(head) => note_bare(wanted, owner, head.span, &head.op, least),
        StmtNode::Valued(head, e) => note_valued(facts, wanted, owner, &head.op, e, least),
        StmtNode::Assign(head, target, value) => {
            note_assign(facts, owner, head.op, target, value, least)?;
        }
        StmtNode::Print(_, values) => note_print(owner, values, least),
        StmtNode::Block(_) => {}
        StmtNode::If(branches, _) => note_branches(owner, branches, least),
        StmtNode::While(condition, _) => note_condition(owner, condition, least),
        StmtNode::For(_, sequence, _) => {
            note_right(is_sequence(sequence.ty()), owner, sequence, least);
        }
        StmtNode::Switch(_, subject, cases, _) => note_switch(owner, subject, cases, least)?,
    }
    Ok(())
}
