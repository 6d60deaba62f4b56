// The constructs that aren't built yet, apart from fields and hooks.
ghost use Rattle.std.specs.Prelude.{◌≡◌};
ghost use Rattle.sp_unbuilt.specs.First.{noted};
ghost use Rattle.sp_unbuilt.specs.Constructs.{is_late_attribute, is_late_unit_method, is_sink_method, is_late_method, calls_late, is_decoder, expr_tests, stmt_tests, type_tests, item_tests, decl_tests, part_tests};

use crate::first::note_at;
use crate::hooks::{is_for_each, is_late_name, is_late_target};
use sp_ast::{
    DeclKind, DeclView, ExprKind, ExprView, ItemKind, ItemView, PartKind, PartView, PathKind, Ref,
    StmtKind, StmtView, TypeKind, TypeView,
};
use sp_base::Diag;
use sp_words::AttributeName;

pub(crate) fn is_late_attribute(name: AttributeName) -> bool
    ensures { result ≡ is_late_attribute name }
{
    !matches!(name, AttributeName::ByteOrder)
}

fn is_late_unit_method(name: &str) -> bool
    ensures { result ≡ is_late_unit_method name.now }
{
    name == "input"
        || name == "set_input"
        || name == "backtrack"
        || name == "connect_filter"
        || name == "forward"
        || name == "forward_eod"
}

fn is_sink_method(name: &str) -> bool
    ensures { result ≡ is_sink_method name.now }
{
    name == "connect"
        || name == "write"
        || name == "gap"
        || name == "skip"
        || name == "close"
        || name == "set_initial_sequence_number"
}

fn is_late_method(name: &str) -> bool
    ensures { result ≡ is_late_method name.now }
{
    is_late_unit_method(name) || is_sink_method(name)
}

/// Whether what is called is a method that isn't built.
fn calls_late(callee: &Ref<'_, ExprKind>) -> bool
    ensures { result ≡ calls_late callee.now }
{
    match callee.view() {
        ExprView::Member(_, name) => is_late_method(name.text()),
        _ => false,
    }
}

/// Notes a call of a method that isn't built, from its first token on.
pub(crate) fn note_expr(owner: u32, expr: &Ref<'_, ExprKind>, first: &mut Option<Diag>)
    ensures { first.new ≡ noted first.old (expr_tests owner expr.now) }
{
    match expr.view() {
        ExprView::Call(callee, _) => note_at(calls_late(&callee), owner, expr.span(), first),
        _ => {}
    }
}

/// Notes `stop`, `confirm` and `reject`.
pub(crate) fn note_stmt(owner: u32, stmt: &Ref<'_, StmtKind>, first: &mut Option<Diag>)
    ensures { first.new ≡ noted first.old (stmt_tests owner stmt.now) }
{
    match stmt.view() {
        StmtView::Stop | StmtView::Confirm | StmtView::Reject => {
            note_at(true, owner, stmt.span(), first);
        }
        _ => {}
    }
}

/// Whether a path is `filter::Base64Decode`.
fn is_decoder(path: &Ref<'_, PathKind>) -> bool
    ensures { result ≡ is_decoder path.now }
{
    let Some((scope, names)) = path.names().split_first() else {
        return false;
    };
    let Some((name, others)) = names.split_first() else {
        return false;
    };
    match others.split_first() {
        Some(_) => false,
        None => scope.text() == "filter" && name.text() == "Base64Decode",
    }
}

/// Notes the type of a bitfield, and `filter::Base64Decode`.
pub(crate) fn note_type(owner: u32, tree: &Ref<'_, TypeKind>, first: &mut Option<Diag>)
    ensures { first.new ≡ noted first.old (type_tests owner tree.now) }
{
    match tree.view() {
        TypeView::Bitfield { .. } => note_at(true, owner, tree.span(), first),
        TypeView::Path(path) => note_at(is_decoder(&path), owner, tree.span(), first),
        _ => {}
    }
}

/// Notes `%filter`, a sink, and a hook that isn't built.
pub(crate) fn note_item(owner: u32, item: &Ref<'_, ItemKind>, first: &mut Option<Diag>)
    ensures { first.new ≡ noted first.old (item_tests owner item.now) }
{
    match item.view() {
        ItemView::Filter | ItemView::Sink(_) => note_at(true, owner, item.span(), first),
        ItemView::On { target, hook } => {
            let late = is_late_target(&target) || is_for_each(&hook);
            note_at(late, owner, item.span(), first);
        }
        _ => {}
    }
}

/// Notes a hook outside of its unit that isn't built.
pub(crate) fn note_decl(owner: u32, decl: &Ref<'_, DeclKind>, first: &mut Option<Diag>)
    ensures { first.new ≡ noted first.old (decl_tests owner decl.now) }
{
    match decl.view() {
        DeclView::On {
            hook_name,
            hook,
            ..
        } => {
            let late = is_late_name(&hook_name) || is_for_each(&hook);
            note_at(late, owner, decl.span(), first);
        }
        _ => {}
    }
}

/// Notes a switch in a unit.
pub(crate) fn note_part(owner: u32, part: &Ref<'_, PartKind>, first: &mut Option<Diag>)
    ensures { first.new ≡ noted first.old (part_tests owner part.now) }
{
    match part.view() {
        PartView::Field(_) => {}
        PartView::Switch { .. } => note_at(true, owner, part.span(), first),
    }
}
