// Views of expressions, told.
use crate::find::value_of;
use crate::tell::{in_row, named, named_row, one, slice, three, two};
use crate::texts::put;
use sp_ast::{DeclKind, ExprView, Ref};
use std::alloc::{AllocError, Global};

/// Expressions without parts of their own, and with one.
fn small(
    alloc: Global,
    text: &str,
    view: &ExprView<'_>,
    got: &mut String,
) -> Result<(), AllocError> {
    match view {
        ExprView::Path(path) => in_row(text, "Path", path.names(), got),
        ExprView::Itself => got.push_str("Itself"),
        ExprView::Current => got.push_str("Current"),
        ExprView::True => got.push_str("True"),
        ExprView::False => got.push_str("False"),
        ExprView::Number(n) => put(got, format!(in alloc; "Number {n}")),
        ExprView::String(s) => one(got, "String", s),
        ExprView::Bytes(bytes) => {
            let count = bytes.len();
            put(got, format!(in alloc; "Bytes {count}"))
        }
        ExprView::Regex(s) => one(got, "Regex", s),
        ExprView::EmptyVector(element) => one(got, "EmptyVector", slice(text, element)),
        ExprView::EmptySet(element) => one(got, "EmptySet", slice(text, element)),
        ExprView::TypedNumber(_, number) => {
            let n = number.value();
            put(got, format!(in alloc; "TypedNumber {n}"))
        }
        ExprView::Size(operand) => one(got, "Size", slice(text, operand)),
        ExprView::Unary(_, operand) => one(got, "Unary", slice(text, operand)),
        other => rows(text, other, got),
    }
}

/// Expressions with members in a row.
fn rows(text: &str, view: &ExprView<'_>, got: &mut String) -> Result<(), AllocError> {
    match view {
        ExprView::Tuple(members) => in_row(text, "Tuple", members.again(), got),
        ExprView::Vector(elements) => in_row(text, "Vector", elements.again(), got),
        ExprView::Set(elements) => in_row(text, "Set", elements.again(), got),
        ExprView::Map(pairs) => match pairs.get(0) {
            Some(pair) => {
                let pair = pair.view();
                let key = slice(text, &pair.key);
                let value = slice(text, &pair.value);
                drop(pair);
                two(got, ("Map key", key), (", value", value))
            }
            None => got.push_str("Map"),
        },
        ExprView::New(path, arguments) => {
            named(got, "New path", slice(text, path))?;
            named_row(text, ", arguments", arguments.again(), got)
        }
        ExprView::Call(callee, arguments) => {
            named(got, "Call callee", slice(text, callee))?;
            named_row(text, ", arguments", arguments.again(), got)
        }
        other => several(text, other, got),
    }
}

/// Expressions with two or three parts.
fn several(text: &str, view: &ExprView<'_>, got: &mut String) -> Result<(), AllocError> {
    match view {
        ExprView::EmptyMap { key, value } => two(
            got,
            ("EmptyMap key", slice(text, key)),
            (", value", slice(text, value)),
        ),
        ExprView::Cast(target, operand) => two(
            got,
            ("Cast target", slice(text, target)),
            (", operand", slice(text, operand)),
        ),
        ExprView::Choice {
            condition,
            if_true,
            if_false,
        } => three(
            got,
            ("Choice condition", slice(text, condition)),
            (", true", slice(text, if_true)),
            (", false", slice(text, if_false)),
        ),
        ExprView::Member(object, name) => two(
            got,
            ("Member object", slice(text, object)),
            (", name", name.text()),
        ),
        ExprView::SetMember(object, name) => two(
            got,
            ("SetMember object", slice(text, object)),
            (", name", name.text()),
        ),
        ExprView::Index { object, index } => two(
            got,
            ("Index object", slice(text, object)),
            (", index", slice(text, index)),
        ),
        ExprView::Binary(_, left, right) => two(
            got,
            ("Binary left", slice(text, left)),
            (", right", slice(text, right)),
        ),
        _ => got.push_str("?"),
    }
}

/// The value of a constant.
pub fn look(
    alloc: Global,
    text: &str,
    decl: &Ref<'_, DeclKind>,
    got: &mut String,
) -> Result<(), AllocError> {
    match value_of(decl) {
        Some(value) => {
            let view = value.view();
            let said = small(alloc, text, &view, got);
            drop(view);
            said
        }
        None => got.push_str("nothing"),
    }
}
