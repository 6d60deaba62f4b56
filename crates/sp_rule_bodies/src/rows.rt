// The rules over rows of expressions: elements, keys and values.
ghost use Rattle.std.specs.Prelude.{◌≡◌, if◌then◌else◌, true};
ghost use Rattle.sp_rules.specs.Least.{better, checked};
ghost use Rattle.sp_typed.specs.Exprs.{exprs};
ghost use Rattle.sp_rules.specs.Faults.{at};
ghost use Rattle.sp_rule_bodies.specs.ExprTests.{unlike, all_value_tests, element_tests, elements_tests, row_tests, entries_tests, map_tests};

use crate::values::{knows, note_value, note_wrong, value_span};
use sp_base::Span;
use sp_rules::{Fault, Rule, note_at};
use sp_typed::Expr;

/// Whether two are of known types that are not the same.
pub fn unlike(a: &Expr, b: &Expr) -> bool
    ensures { result ≡ unlike a.now b.now }
{
    knows(a) && knows(b) && !a.ty().same(b.ty())
}

/// Notes what is wrong with values.
pub(crate) fn note_values(owner: u32, parts: &[Expr], least: &mut Option<Fault>)
    ensures { least.new ≡ checked least.old (all_value_tests owner (exprs parts.now)) }
{
    for e in parts {
        note_value(owner, e, least);
    }
}

fn note_element(owner: u32, keyed: bool, first: &Expr, e: &Expr, least: &mut Option<Fault>)
    ensures { least.new ≡ checked least.old (element_tests owner keyed first.now e.now) }
{
    note_value(owner, e, least);
    note_wrong(!keyed || e.ty().is_key(), owner, e, least);
    note_at(
        unlike(first, e),
        owner,
        Rule::TypeMismatch,
        value_span(e),
        least,
    );
}

fn note_elements(owner: u32, keyed: bool, first: &Expr, parts: &[Expr], least: &mut Option<Fault>)
    ensures { least.new
        ≡ checked least.old (elements_tests owner keyed first.now (exprs parts.now)) }
{
    for e in parts {
        note_element(owner, keyed, first, e, least);
    }
}

/// Notes what is wrong with the elements of a vector, or of a set, whose elements are keys. The row stands on this slice.
pub(crate) fn note_row(
    owner: u32,
    keyed: bool,
    span: Span,
    parts: &[Expr],
    least: &mut Option<Fault>,
)
    ensures { least.new ≡ checked least.old (row_tests owner keyed span (exprs parts.now)) }
{
    match parts.first() {
        Some(first) => note_elements(owner, keyed, first, parts, least),
        None => note_at(true, owner, Rule::TypeMismatch, span, least),
    }
}

fn note_entries(owner: u32, key: &Expr, value: &Expr, parts: &[Expr], least: &mut Option<Fault>)
    ensures { least.new
        ≡ checked least.old (entries_tests owner true key.now value.now (exprs parts.now)) }
{
    let mut keyed = true;
    for e in parts {
        let first = if keyed { key } else { value };
        note_element(owner, keyed, first, e, least);
        keyed = !keyed;
    }
}

/// Notes what is wrong with the keys and values of a map, which stand in turn. The map stands on this slice.
pub(crate) fn note_map(owner: u32, span: Span, parts: &[Expr], least: &mut Option<Fault>)
    ensures { least.new ≡ checked least.old (map_tests owner span (exprs parts.now)) }
{
    if let Some((key, rest)) = parts.split_first()
        && let Some(value) = rest.first()
    {
        note_entries(owner, key, value, parts, least);
        return;
    }
    note_at(true, owner, Rule::TypeMismatch, span, least);
}
