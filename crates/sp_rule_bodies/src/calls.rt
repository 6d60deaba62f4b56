// The rules at calls.
ghost use Rattle.std.specs.Prelude.{◌≡◌, IfOk, OnOk};
ghost use Rattle.sp_rules.specs.Least.{better, checked};
ghost use Rattle.sp_typed.specs.Exprs.{exprs};
ghost use Rattle.sp_rule_bodies.specs.Known.{Known};
ghost use Rattle.sp_rules.specs.Faults.{at};
ghost use Rattle.sp_rule_bodies.specs.ExprTests.{argument_goes, argument_fits, arguments_fit, connects, argument_tests, call_tests, is_convertible, converts, convert_tests, changes_leaf, changes_one, is_element, is_tuple, is_place, is_fixed_leaf, is_call, is_fixed, may_change, may_change_in, is_of_self, itself_leaf, is_itself, receiver_tests, method_tests, uncalled_tests};

use crate::facts::Facts;
use crate::rows::note_values;
use crate::values::{
    is_new, is_no_object, is_no_value, knows, note_object, note_value, value_span,
};
use sp_base::{NoMemory, Span};
use sp_rules::{Fault, Rule, note_at};
use sp_type_operands::{is_integer, is_past, seen};
use sp_typed::{Expr, ExprLevel, LeafOp, ManyOp, OneOp, SinkMethod, TwoOp, UnitMethod};
use sp_types::{Level, Maker, Type};

fn argument_goes(to: &Type, e: &Expr) -> bool
    ensures { result ≡ argument_goes to.now e.now }
{
    !is_past(e) && (is_no_object(e) || e.ty().goes(to))
}

fn argument_fits(to: Option<Type>, e: &Expr) -> bool
    ensures { result ≡ argument_fits to e.now }
{
    match to {
        Some(to) => argument_goes(&to, e),
        None => false,
    }
}

fn arguments_fit<F: Facts>(
    facts: &F,
    op: &ManyOp,
    receiver: &Type,
    arguments: &[Expr],
) -> Result<bool, NoMemory>
    ensures { IfOk result (λ fit. fit
        ≡ arguments_fit ((F.known facts.now).target op.now receiver.now) 0 (exprs arguments.now)) }
{
    for i in 0..arguments.len() {
        if !argument_fits(facts.target(op, receiver, i)?, &arguments[i]) {
            return Ok(false);
        }
    }
    let more = facts.target(op, receiver, arguments.len())?;
    let is_last = more.is_none();
    drop(more);
    Ok(is_last)
}

fn connects(op: &ManyOp) -> bool
    ensures { result ≡ connects op.now }
{
    matches!(
        op,
        ManyOp::OfUnit(UnitMethod::ConnectFilter, _) | ManyOp::OfSink(SinkMethod::Connect)
    )
}

fn note_arguments(owner: u32, starts: bool, arguments: &[Expr], least: &mut Option<Fault>)
    ensures { least.new ≡ checked least.old (argument_tests owner starts (exprs arguments.now)) }
{
    for e in arguments {
        let test = is_no_value(e) && !(starts && is_new(e.ty()));
        note_at(test, owner, Rule::TypeMismatch, value_span(e), least);
    }
}

/// Whether an expression can be the number of a value of an enum, which is of any integer type.
fn is_convertible(e: &Expr) -> bool
    ensures { result ≡ is_convertible e.now }
{
    !is_past(e) && (!e.ty().is_known() || is_no_object(e) || is_integer(e.ty()))
}

/// Whether these are one such expression.
fn converts(arguments: &[Expr]) -> bool
    ensures { result ≡ converts (exprs arguments.now) }
{
    match arguments.split_first() {
        Some((e, rest)) => rest.split_first().is_none() && is_convertible(e),
        None => false,
    }
}

/// Notes what is wrong with the number that becomes a value of an enum.
pub(crate) fn note_convert(owner: u32, span: Span, arguments: &[Expr], least: &mut Option<Fault>)
    ensures { least.new ≡ checked least.old (convert_tests owner span (exprs arguments.now)) }
{
    note_at(
        !converts(arguments),
        owner,
        Rule::WrongArguments,
        span,
        least,
    );
    note_arguments(owner, false, arguments, least);
}

/// Notes what is wrong with a call: with the number and the types of its arguments, on the slice on which what is called
/// stands, and with arguments that are no values.
pub fn note_call<F: Facts>(
    facts: &F,
    owner: u32,
    op: &ManyOp,
    span: Span,
    receiver: &Type,
    arguments: &[Expr],
    least: &mut Option<Fault>,
) -> Result<(), NoMemory>
    ensures { OnOk result (least.new ≡ checked least.old
        (call_tests (F.known facts.now) owner op.now span receiver.now (exprs arguments.now))) }
{
    let fit = arguments_fit(facts, op, receiver, arguments)?;
    note_at(!fit, owner, Rule::WrongArguments, span, least);
    note_arguments(owner, connects(op), arguments, least);
    Ok(())
}

fn changes_leaf<F: Facts>(facts: &F, op: &LeafOp) -> bool
    ensures { result ≡ changes_leaf (F.known facts.now) op.now }
{
    match op {
        LeafOp::Local(slot) => !facts.fixed(*slot),
        _ => false,
    }
}

fn changes_one(op: &OneOp) -> bool
    ensures { result ≡ changes_one op.now }
{
    matches!(op, OneOp::Field(_) | OneOp::Variable(_))
}

fn is_tuple(t: &Type) -> bool
    ensures { result ≡ is_tuple t.now }
{
    matches!(t.level(), Level::Made(Maker::Tuple, _))
}

fn is_element(op: &TwoOp, t: &Type) -> bool
    ensures { result ≡ is_element op.now t.now }
{
    match op {
        TwoOp::Index => !is_tuple(t),
        _ => false,
    }
}

/// Whether an expression names a place whose value can be changed.
fn is_place<F: Facts>(facts: &F, e: &Expr) -> bool
    ensures { result ≡ is_place (F.known facts.now) e.now }
{
    match e.level() {
        ExprLevel::Leaf(head) => changes_leaf(facts, &head.op),
        ExprLevel::One(head, _) => changes_one(&head.op),
        ExprLevel::Two(head, a, _) => is_element(&head.op, a.ty()) && is_place(facts, a),
        ExprLevel::Three(..) | ExprLevel::Many(..) => false,
    }
}

fn is_fixed_leaf(op: &LeafOp) -> bool
    ensures { result ≡ is_fixed_leaf op.now }
{
    matches!(op, LeafOp::Itself(_) | LeafOp::Current(_))
}

fn is_call(op: &ManyOp) -> bool
    ensures { result ≡ is_call op.now }
{
    !matches!(
        op,
        ManyOp::Tuple | ManyOp::Vector | ManyOp::Set | ManyOp::Map
    )
}

fn is_fixed(e: &Expr) -> bool
    ensures { result ≡ is_fixed e.now }
{
    match e.level() {
        ExprLevel::Leaf(head) => is_fixed_leaf(&head.op),
        ExprLevel::Many(head, _) => is_call(&head.op),
        ExprLevel::One(..) | ExprLevel::Two(..) | ExprLevel::Three(..) => false,
    }
}

/// Whether an expression may be changed.
pub(crate) fn may_change<F: Facts>(facts: &F, e: &Expr) -> bool
    ensures { result ≡ may_change (F.known facts.now) e.now }
{
    is_place(facts, e) || (!e.ty().is_known() && !is_fixed(e))
}

/// Whether an element of what an expression is may be changed.
pub(crate) fn may_change_in<F: Facts>(facts: &F, e: &Expr) -> bool
    ensures { result ≡ may_change_in (F.known facts.now) e.now }
{
    is_place(facts, e) || !e.ty().is_known()
}

fn is_of_self(method: UnitMethod) -> bool
    ensures { result ≡ is_of_self method }
{
    matches!(
        method,
        UnitMethod::Offset | UnitMethod::Input | UnitMethod::SetInput | UnitMethod::Backtrack
    )
}

fn is_itself(e: &Expr) -> bool
    ensures { result ≡ is_itself e.now }
{
    match e.level() {
        ExprLevel::Leaf(head) => matches!(&head.op, LeafOp::Itself(_)),
        _ => false,
    }
}

fn note_receiver<F: Facts>(facts: &F, owner: u32, op: &ManyOp, e: &Expr, least: &mut Option<Fault>)
    ensures { least.new
        ≡ checked least.old (receiver_tests (F.known facts.now) owner op.now e.now) }
{
    match op {
        ManyOp::Method(method, _) => {
            let fixed = method.changes() && !is_place(facts, e);
            note_at(fixed, owner, Rule::NotAssignable, e.span(), least);
        }
        ManyOp::OfUnit(method, name) => {
            let other = is_of_self(*method) && !is_itself(e);
            note_at(other, owner, Rule::SelfOutside, *name, least);
        }
        _ => {}
    }
}

/// Notes what is wrong with a call of a method.
#[tactic(auto, using(crate::proofs::Swept::checked_more))]
pub(crate) fn note_method<F: Facts>(
    facts: &F,
    owner: u32,
    op: &ManyOp,
    span: Span,
    parts: &[Expr],
    least: &mut Option<Fault>,
) -> Result<(), NoMemory>
    ensures { OnOk result (least.new ≡ checked least.old
        (method_tests (F.known facts.now) owner op.now span (exprs parts.now))) }
{
    match parts.split_first() {
        Some((e, arguments)) => {
            let receiver = seen(e)?;
            note_object(owner, e, least);
            note_receiver(facts, owner, op, e, least);
            let noted = note_call(facts, owner, op, span, &receiver, arguments, least);
            drop(receiver);
            noted
        }
        None => Ok(()),
    }
}

/// Notes what can't be called, and what is wrong with the arguments behind it.
pub(crate) fn note_uncalled(owner: u32, parts: &[Expr], least: &mut Option<Fault>)
    ensures { least.new ≡ checked least.old (uncalled_tests owner (exprs parts.now)) }
{
    if let Some((e, arguments)) = parts.split_first() {
        note_value(owner, e, least);
        note_at(knows(e), owner, Rule::TypeMismatch, value_span(e), least);
        note_values(owner, arguments, least);
    }
}
