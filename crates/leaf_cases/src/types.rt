// Views of types, told.
use crate::find::type_of;
use crate::tell::{in_row, one, optional, slice, three, two};
use crate::texts::put;
use sp_ast::{DeclKind, LabelKind, RangeKind, Ref, TypeView};
use std::alloc::{AllocError, Global};

fn label(text: &str, label: &Ref<'_, LabelKind>, got: &mut String) -> Result<(), AllocError> {
    let view = label.view();
    two(
        got,
        ("Enum name", view.name.text()),
        (", value", optional(text, &view.value)),
    )
}

fn range(text: &str, range: &Ref<'_, RangeKind>, got: &mut String) -> Result<(), AllocError> {
    let view = range.view();
    three(
        got,
        ("Bitfield name", view.name.text()),
        (", first", slice(text, &view.first)),
        (", last", optional(text, &view.last)),
    )
}

fn told(
    alloc: Global,
    text: &str,
    view: &TypeView<'_>,
    got: &mut String,
) -> Result<(), AllocError> {
    match view {
        TypeView::Path(path) => in_row(text, "Path", path.names(), got),
        TypeView::Bool => got.push_str("Bool"),
        TypeView::Bytes => got.push_str("Bytes"),
        TypeView::String => got.push_str("String"),
        TypeView::Void => got.push_str("Void"),
        TypeView::Int(of) => {
            let width = of.width();
            put(got, format!(in alloc; "Int {width}"))
        }
        TypeView::Tuple(members) => in_row(text, "Tuple", members.again(), got),
        TypeView::Vector(element) => one(got, "Vector", slice(text, element)),
        TypeView::Set(element) => one(got, "Set", slice(text, element)),
        TypeView::Map { key, value } => two(
            got,
            ("Map key", slice(text, key)),
            (", value", slice(text, value)),
        ),
        TypeView::Enum(labels) => match labels.get(0) {
            Some(first) => label(text, &first, got),
            None => got.push_str("Enum"),
        },
        TypeView::Bitfield { width, ranges } => match ranges.get(0) {
            Some(first) => range(text, &first, got),
            None => one(got, "Bitfield", slice(text, width)),
        },
        TypeView::Unit(unit) => one(got, "Unit", slice(text, unit)),
    }
}

/// The type that is declared.
pub fn look(
    alloc: Global,
    text: &str,
    decl: &Ref<'_, DeclKind>,
    got: &mut String,
) -> Result<(), AllocError> {
    match type_of(decl) {
        Some(type_) => {
            let view = type_.view();
            let said = told(alloc, text, &view, got);
            drop(view);
            said
        }
        None => got.push_str("nothing"),
    }
}
