// Views of declarations, told.
use crate::tell::{named, named_row, one, optional, slice, three, two};
use sp_ast::{DeclKind, DeclView, Ref};
use std::alloc::AllocError;

/// Tells that what follows is public.
fn put_public(public: bool, got: &mut String) -> Result<(), AllocError> {
    if public {
        got.push_str("Public")
    } else {
        Ok(())
    }
}

fn told(text: &str, view: &DeclView<'_>, got: &mut String) -> Result<(), AllocError> {
    match view {
        DeclView::Import(name) => one(got, "Import", name.text()),
        DeclView::ByteOrder(path) => one(got, "ByteOrder", slice(text, path)),
        DeclView::Version(version) => one(got, "Version", version.text()),
        DeclView::On {
            path,
            hook_name,
            hook,
        } => {
            named_row(text, "On path", path.names(), got)?;
            two(
                got,
                (", name", optional(text, hook_name)),
                (", hook", slice(text, hook)),
            )
        }
        DeclView::Type {
            public,
            name,
            type_,
        } => {
            put_public(*public, got)?;
            two(
                got,
                ("Type name", name.text()),
                (", type", slice(text, type_)),
            )
        }
        DeclView::Const {
            public,
            name,
            type_,
            value,
        } => {
            put_public(*public, got)?;
            three(
                got,
                ("Const name", name.text()),
                (", type", optional(text, type_)),
                (", value", slice(text, value)),
            )
        }
        DeclView::Function {
            public,
            name,
            parameters,
            returns,
            body,
        } => {
            put_public(*public, got)?;
            named(got, "Function name", name.text())?;
            named_row(text, ", parameters", parameters.again(), got)?;
            two(
                got,
                (" returns", optional(text, returns)),
                (", body", slice(text, body)),
            )
        }
    }
}

/// The first declaration.
pub fn declaration(
    text: &str,
    decl: &Ref<'_, DeclKind>,
    got: &mut String,
) -> Result<(), AllocError> {
    let view = decl.view();
    let said = told(text, &view, got);
    drop(view);
    said
}

/// The first parameter of a function.
pub fn parameter(text: &str, decl: &Ref<'_, DeclKind>, got: &mut String) -> Result<(), AllocError> {
    let DeclView::Function { parameters, .. } = decl.view() else {
        return got.push_str("nothing");
    };
    let Some(parameter) = parameters.get(0) else {
        return got.push_str("nothing");
    };
    let view = parameter.view();
    got.push_str(if view.inout { "Inout" } else { "" })?;
    two(
        got,
        ("Parameter name", view.name.text()),
        (", type", slice(text, &view.type_)),
    )
}
