// Views of statements, told.
use crate::find::stmt_of;
use crate::tell::{in_row, named, named_row, one, optional, slice, three, two};
use sp_ast::{BranchKind, CaseKind, DeclKind, Ref, StmtView};
use std::alloc::AllocError;

/// Tells the first branch of an `if`.
fn branch(text: &str, branch: &Ref<'_, BranchKind>, got: &mut String) -> Result<(), AllocError> {
    let branch = branch.view();
    two(
        got,
        ("If condition", slice(text, &branch.condition)),
        (", body", slice(text, &branch.body)),
    )
}

/// Tells the first case of a `switch`.
fn case(text: &str, case: &Ref<'_, CaseKind>, got: &mut String) -> Result<(), AllocError> {
    let case = case.view();
    let body = slice(text, &case.body);
    named_row(text, " values", case.values, got)?;
    named(got, ", body", body)
}

/// Statements with parts in a row.
fn rows(text: &str, view: &StmtView<'_>, got: &mut String) -> Result<(), AllocError> {
    match view {
        StmtView::Block(block) => in_row(text, "Block", block.statements(), got),
        StmtView::If {
            branches,
            otherwise,
        } => match branches.get(0) {
            Some(first) => {
                branch(text, &first, got)?;
                named(got, ", otherwise", optional(text, otherwise))
            }
            None => got.push_str("If"),
        },
        StmtView::Switch {
            subject,
            cases,
            otherwise,
        } => match cases.get(0) {
            Some(first) => {
                named(got, "Switch subject", slice(text, subject))?;
                named(got, ", otherwise", optional(text, otherwise))?;
                case(text, &first, got)
            }
            None => got.push_str("Switch"),
        },
        StmtView::Print(values) => in_row(text, "Print", values.again(), got),
        other => plain(text, other, got),
    }
}

/// Statements without parts in a row.
fn plain(text: &str, view: &StmtView<'_>, got: &mut String) -> Result<(), AllocError> {
    match view {
        StmtView::Local { name, type_, value } => three(
            got,
            ("Local name", name.text()),
            (", type", optional(text, type_)),
            (", value", optional(text, value)),
        ),
        StmtView::While { condition, body } => two(
            got,
            ("While condition", slice(text, condition)),
            (", body", slice(text, body)),
        ),
        StmtView::For {
            name,
            sequence,
            body,
        } => three(
            got,
            ("For name", name.text()),
            (", sequence", slice(text, sequence)),
            (", body", slice(text, body)),
        ),
        StmtView::Assert { condition, message } => {
            named(got, "Assert condition", slice(text, condition))?;
            match message {
                Some(message) => named(got, ", message", message.text()),
                None => named(got, ", message", "-"),
            }
        }
        StmtView::Assign { target, value, .. } => two(
            got,
            ("Assign target", slice(text, target)),
            (", value", slice(text, value)),
        ),
        other => short(text, other, got),
    }
}

/// Statements with one part or none.
fn short(text: &str, view: &StmtView<'_>, got: &mut String) -> Result<(), AllocError> {
    match view {
        StmtView::Return(value) => one(got, "Return", optional(text, value)),
        StmtView::Break => got.push_str("Break"),
        StmtView::Continue => got.push_str("Continue"),
        StmtView::Stop => got.push_str("Stop"),
        StmtView::Confirm => got.push_str("Confirm"),
        StmtView::Reject => got.push_str("Reject"),
        StmtView::Throw(value) => one(got, "Throw", slice(text, value)),
        StmtView::Add(target) => one(got, "Add", slice(text, target)),
        StmtView::Delete(target) => one(got, "Delete", slice(text, target)),
        StmtView::Expr(value) => one(got, "Expr", slice(text, value)),
        _ => got.push_str("?"),
    }
}

/// The first statement of a function.
pub fn look(text: &str, decl: &Ref<'_, DeclKind>, got: &mut String) -> Result<(), AllocError> {
    match stmt_of(decl) {
        Some(stmt) => {
            let view = stmt.view();
            let said = rows(text, &view, got);
            drop(view);
            said
        }
        None => got.push_str("nothing"),
    }
}
