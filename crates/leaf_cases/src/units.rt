// Views of units and what stands in them, told.
use crate::fields::in_field;
use crate::find::{arm_of, field_of, item_of, part_of, unit_of};
use crate::tell::{named, named_row, one, optional, row, slice, three};
use sp_ast::{
    ArmKind, BodyView, DeclKind, GuardView, HookBodyKind, HookKind, ItemKind, ItemView, PartKind,
    PartView, Ref, TargetKind, TargetView, UnitKind,
};
use std::alloc::{AllocError, Global};

fn unit(text: &str, unit: &Ref<'_, UnitKind>, got: &mut String) -> Result<(), AllocError> {
    let view = unit.view();
    named_row(text, "Unit parameters", view.parameters, got)?;
    named_row(text, ", items", view.items, got)
}

/// Tells the body of a hook.
pub fn hook_body(
    text: &str,
    body: &Ref<'_, HookBodyKind>,
    got: &mut String,
) -> Result<(), AllocError> {
    let view = body.view();
    got.push_str(if view.each { "Each" } else { "Once" })?;
    named(got, " priority", optional(text, &view.priority))?;
    named(got, ", block", slice(text, &view.block))
}

fn hook(text: &str, hook: &Ref<'_, HookKind>, got: &mut String) -> Result<(), AllocError> {
    let view = hook.view();
    let body = view.body;
    named_row(text, ", hook: Hook parameters", view.parameters, got)?;
    got.push_str(", body: ")?;
    hook_body(text, &body, got)
}

/// Tells a target by its name, or by its slice.
fn target(text: &str, target: &Ref<'_, TargetKind>, got: &mut String) -> Result<(), AllocError> {
    match target.view() {
        TargetView::Name(name) => named(got, "On target", name),
        TargetView::Hook(_) => named(got, "On target", slice(text, target)),
    }
}

fn item(text: &str, item: &Ref<'_, ItemKind>, got: &mut String) -> Result<(), AllocError> {
    match item.view() {
        ItemView::Filter => got.push_str("Filter"),
        ItemView::ByteOrder(path) => one(got, "ByteOrder", slice(text, &path)),
        ItemView::MimeType(said) => one(got, "MimeType", said.text()),
        ItemView::Description(said) => one(got, "Description", said.text()),
        ItemView::Variable { name, type_, value } => three(
            got,
            ("Variable name", name.text()),
            (", type", slice(text, &type_)),
            (", value", optional(text, &value)),
        ),
        ItemView::Sink(name) => one(got, "Sink", name.text()),
        ItemView::On {
            target: of,
            hook: on,
        } => {
            target(text, &of, got)?;
            hook(text, &on, got)
        }
        ItemView::Part(part) => one(got, "Part", slice(text, &part)),
    }
}

fn part(text: &str, part: &Ref<'_, PartKind>, got: &mut String) -> Result<(), AllocError> {
    match part.view() {
        PartView::Field(field) => one(got, "Field", slice(text, &field)),
        PartView::Switch { subject, arms } => {
            named(got, "Switch subject", optional(text, &subject))?;
            named_row(text, ", arms", arms, got)
        }
    }
}

fn guard(text: &str, view: GuardView<'_>, got: &mut String) -> Result<(), AllocError> {
    match view {
        GuardView::Otherwise => got.push_str("Otherwise"),
        GuardView::Values(values) => row(text, values, got),
        GuardView::LookAhead => got.push_str("LookAhead"),
    }
}

fn body(text: &str, view: BodyView<'_>, got: &mut String) -> Result<(), AllocError> {
    match view {
        BodyView::Nothing => got.push_str("Nothing"),
        BodyView::One(part) => one(got, "One", slice(text, &part)),
        BodyView::Many(parts) => row(text, parts, got),
    }
}

fn arm(text: &str, arm: &Ref<'_, ArmKind>, got: &mut String) -> Result<(), AllocError> {
    let view = arm.view();
    got.push_str("Arm guard: ")?;
    guard(text, view.guard.view(), got)?;
    got.push_str(", body: ")?;
    body(text, view.body.view(), got)
}

/// The unit, its first item, part or arm.
fn in_unit(
    text: &str,
    what: &str,
    decl: &Ref<'_, DeclKind>,
    got: &mut String,
) -> Result<bool, AllocError> {
    match what {
        "unit" => match unit_of(decl) {
            Some(x) => unit(text, &x, got)?,
            None => return Ok(false),
        },
        "item" => match item_of(decl) {
            Some(x) => item(text, &x, got)?,
            None => return Ok(false),
        },
        "part" => match part_of(decl) {
            Some(x) => part(text, &x, got)?,
            None => return Ok(false),
        },
        "arm" => match arm_of(decl) {
            Some(x) => arm(text, &x, got)?,
            None => return Ok(false),
        },
        _ => return Ok(false),
    }
    Ok(true)
}

/// The unit, its first item, part or arm, and what stands in its first field.
pub fn look(
    alloc: Global,
    text: &str,
    what: &str,
    decl: &Ref<'_, DeclKind>,
    got: &mut String,
) -> Result<(), AllocError> {
    if in_unit(text, what, decl, got)? {
        return Ok(());
    }
    match field_of(decl) {
        Some(x) => in_field(alloc, text, what, &x, got),
        None => got.push_str("nothing"),
    }
}
