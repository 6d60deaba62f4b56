// What is no value, what type is asked of an expression, and whether a value goes to a target.
ghost use Rattle.std.specs.Prelude.{◌≡◌, if◌then◌else◌};
ghost use Rattle.sp_rules.specs.Least.{better, checked};
ghost use Rattle.sp_rule_bodies.specs.Values.{is_regex, is_void, is_sink, is_new, is_set, names_no_value, is_set_key, is_no_value, is_no_object, knows, value_goes, value_span, value_tests, object_tests, wrong, right_tests, arrow_tests, condition_tests, target_tests, written_tests};
ghost use Rattle.sp_type_operands.specs.Literals.{is_past};
ghost use Rattle.sp_type_operands.specs.Operands.{is_valueless};

use sp_base::Span;
use sp_rules::{Fault, Rule, note_at};
use sp_type_operands::{is_boolean, is_past, is_valueless};
use sp_typed::{Expr, ExprLevel, LeafOp, TwoOp, Written};
use sp_types::{Level, Maker, Type, Word};

/// Whether a type is that of a regular expression.
pub fn is_regex(t: &Type) -> bool
    ensures { result ≡ is_regex t.now }
{
    matches!(t.level(), Level::Word(Word::Regex))
}

/// Whether a type is that of what gives nothing.
pub(crate) fn is_void(t: &Type) -> bool
    ensures { result ≡ is_void t.now }
{
    matches!(t.level(), Level::Word(Word::Void))
}

/// Whether a type is that of a sink.
fn is_sink(t: &Type) -> bool
    ensures { result ≡ is_sink t.now }
{
    matches!(t.level(), Level::Word(Word::Sink))
}

pub(crate) fn is_new(t: &Type) -> bool
    ensures { result ≡ is_new t.now }
{
    matches!(t.level(), Level::Word(Word::New))
}

pub(crate) fn is_set(t: &Type) -> bool
    ensures { result ≡ is_set t.now }
{
    matches!(t.level(), Level::Made(Maker::Set, _))
}

fn names_no_value(op: &LeafOp) -> bool
    ensures { result ≡ names_no_value op.now }
{
    matches!(
        op,
        LeafOp::Function(_) | LeafOp::TypeName(_) | LeafOp::Decoder | LeafOp::Module
    )
}

fn is_set_key(op: &TwoOp, t: &Type) -> bool
    ensures { result ≡ is_set_key op.now t.now }
{
    match op {
        TwoOp::Index => is_set(t),
        _ => false,
    }
}

/// Whether an expression has no value.
pub(crate) fn is_no_value(e: &Expr) -> bool
    ensures { result ≡ is_no_value e.now }
{
    match e.level() {
        ExprLevel::Leaf(head) => names_no_value(&head.op) || is_valueless(&head.ty),
        ExprLevel::One(head, _) => is_valueless(&head.ty),
        ExprLevel::Two(head, a, _) => is_set_key(&head.op, a.ty()) || is_valueless(&head.ty),
        ExprLevel::Three(head, ..) => is_valueless(&head.ty),
        ExprLevel::Many(head, _) => is_valueless(&head.ty),
    }
}

/// Whether an expression is neither a value nor a sink.
pub(crate) fn is_no_object(e: &Expr) -> bool
    ensures { result ≡ is_no_object e.now }
{
    is_no_value(e) && !is_sink(e.ty())
}

/// Whether the type of an expression is known.
pub(crate) fn knows(e: &Expr) -> bool
    ensures { result ≡ knows e.now }
{
    e.ty().is_known() && !is_past(e)
}

/// Whether a value goes to a target of a type.
pub fn value_goes(to: &Type, e: &Expr) -> bool
    ensures { result ≡ value_goes to.now e.now }
{
    !is_past(e) && e.ty().goes(to)
}

/// Where it is said that an expression has no value, or one of a wrong type.
pub fn value_span(e: &Expr) -> Span
    ensures { result ≡ value_span e.now }
{
    match e.level() {
        ExprLevel::Three(head, _, a, _) => {
            if is_valueless(&head.ty) {
                value_span(a)
            } else {
                head.span
            }
        }
        _ => e.span(),
    }
}

/// Notes what is wrong with an expression that stands as a value: that it has none, or that it is a literal past its type.
pub fn note_value(owner: u32, e: &Expr, least: &mut Option<Fault>)
    ensures { least.new ≡ checked least.old (value_tests owner e.now) }
{
    note_at(
        is_no_value(e),
        owner,
        Rule::TypeMismatch,
        value_span(e),
        least,
    );
    note_at(is_past(e), owner, Rule::LiteralRange, e.span(), least);
}

/// Notes what is wrong with an expression that stands as a value or a sink.
pub(crate) fn note_object(owner: u32, e: &Expr, least: &mut Option<Fault>)
    ensures { least.new ≡ checked least.old (object_tests owner e.now) }
{
    note_at(
        is_no_object(e),
        owner,
        Rule::TypeMismatch,
        value_span(e),
        least,
    );
    note_at(is_past(e), owner, Rule::LiteralRange, e.span(), least);
}

/// Notes a value whose type is known, and is not right.
pub(crate) fn note_wrong(right: bool, owner: u32, e: &Expr, least: &mut Option<Fault>)
    ensures { least.new
        ≡ (if (wrong owner right e.now).0 then better least.old
        (wrong owner right e.now).1 else least.old) }
{
    note_at(
        knows(e) && !right,
        owner,
        Rule::TypeMismatch,
        value_span(e),
        least,
    );
}

/// Notes what is wrong with a value of which something is asked.
pub fn note_right(right: bool, owner: u32, e: &Expr, least: &mut Option<Fault>)
    ensures { least.new ≡ checked least.old (right_tests owner right e.now) }
{
    note_value(owner, e, least);
    note_wrong(right, owner, e, least);
}

/// Notes what is wrong with what stands behind the arrow of a field.
pub fn note_arrow(owner: u32, e: &Expr, least: &mut Option<Fault>)
    ensures { least.new ≡ checked least.old (arrow_tests owner e.now) }
{
    note_object(owner, e, least);
    note_wrong(is_sink(e.ty()), owner, e, least);
}

/// Notes what is wrong with a condition.
pub fn note_condition(owner: u32, e: &Expr, least: &mut Option<Fault>)
    ensures { least.new ≡ checked least.old (condition_tests owner e.now) }
{
    note_right(is_boolean(e.ty()), owner, e, least);
}

/// Notes what is wrong with a value that goes to a target of this type.
pub fn note_target(owner: u32, to: &Type, e: &Expr, least: &mut Option<Fault>)
    ensures { least.new ≡ checked least.old (target_tests owner to.now e.now) }
{
    let known = to.is_known();
    let stays = known && !value_goes(to, e);
    note_at(
        is_no_value(e),
        owner,
        Rule::TypeMismatch,
        value_span(e),
        least,
    );
    note_at(stays, owner, Rule::NotAssignable, value_span(e), least);
    note_at(
        !known && is_past(e),
        owner,
        Rule::LiteralRange,
        e.span(),
        least,
    );
}

/// Notes what can't stand in a type that is written.
pub fn note_written(owner: u32, written: &Written, least: &mut Option<Fault>)
    ensures { least.new ≡ checked least.old (written_tests owner written.now) }
{
    if let Some(span) = written.misplaced {
        note_at(true, owner, Rule::TypeMismatch, span, least);
    }
}
