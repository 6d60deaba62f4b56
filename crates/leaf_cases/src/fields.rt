// Views of fields and what stands in them, told.
use crate::tell::{named, named_row, one, optional, slice};
use crate::texts::put;
use crate::units::hook_body;
use sp_ast::{AttributeKind, BaseKind, BaseView, CountKind, FieldKind, Ref};
use std::alloc::{AllocError, Global};

fn field(text: &str, field: &Ref<'_, FieldKind>, got: &mut String) -> Result<(), AllocError> {
    let view = field.view();
    let condition = optional(text, &view.condition);
    let sink = optional(text, &view.sink);
    named(got, "Field name", optional(text, &view.name))?;
    named(got, ", base", slice(text, &view.base))?;
    named_row(text, ", counts", view.counts, got)?;
    named_row(text, " attributes", view.attributes, got)?;
    named(got, ", condition", condition)?;
    named(got, " sink", sink)?;
    named_row(text, ", hooks", view.hooks, got)
}

fn base(
    alloc: Global,
    text: &str,
    base: &Ref<'_, BaseKind>,
    got: &mut String,
) -> Result<(), AllocError> {
    match base.view() {
        BaseView::Type(type_) => one(got, "Type", slice(text, &type_)),
        BaseView::Unit { path, arguments } => {
            named(got, "Unit path", slice(text, &path))?;
            named_row(text, ", arguments", arguments, got)
        }
        BaseView::Group {
            base,
            counts,
            attributes,
        } => {
            named(got, "Group base", slice(text, &base))?;
            named_row(text, ", counts", counts, got)?;
            named_row(text, ", attributes", attributes, got)
        }
        BaseView::Bytes(bytes) => {
            let count = bytes.len();
            put(got, format!(in alloc; "Bytes {count}"))
        }
        BaseView::Regex(said) => one(got, "Regex", said),
        BaseView::Number(_, number) => one(got, "Number", slice(text, &number)),
    }
}

fn attribute(
    text: &str,
    attribute: &Ref<'_, AttributeKind>,
    got: &mut String,
) -> Result<(), AllocError> {
    let view = attribute.view();
    one(got, "Attribute", optional(text, &view.value))
}

fn count(text: &str, count: &Ref<'_, CountKind>, got: &mut String) -> Result<(), AllocError> {
    one(got, "Count", optional(text, &count.number()))
}

/// What stands in a field.
pub fn in_field(
    alloc: Global,
    text: &str,
    what: &str,
    from: &Ref<'_, FieldKind>,
    got: &mut String,
) -> Result<(), AllocError> {
    let view = from.view();
    match what {
        "field" => field(text, from, got),
        "base" => base(alloc, text, &view.base, got),
        "count" => match view.counts.get(0) {
            Some(first) => count(text, &first, got),
            None => got.push_str("-"),
        },
        "attribute" => match view.attributes.get(0) {
            Some(first) => attribute(text, &first, got),
            None => got.push_str("-"),
        },
        "hook" => match view.hooks.get(0) {
            Some(first) => hook_body(text, &first, got),
            None => got.push_str("-"),
        },
        _ => got.push_str("nothing"),
    }
}
