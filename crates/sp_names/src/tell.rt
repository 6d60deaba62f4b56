// What declarations tell: which name they give, and what they declare.
ghost use Rattle.std.specs.Prelude.{◌≡◌, [], option_copied, IfSome, IfNone};
ghost use Rattle.sp_ast.specs.Trees.{absent};
ghost use Rattle.sp_names.specs.Declarations.{sort_of, type_sort, type_tree_of, module_name, module_declarations};
ghost use Rattle.sp_names.specs.Faults.{is_reserved};
ghost use Rattle.sp_names.specs.Names.{declared_name, import_name, label_name, enum_labels};

use crate::rows::{RowTree, RowView};
use crate::sort::DeclSort;
use sp_ast::{DeclKind, DeclView, LabelKind, Members, Module, Ref, TypeKind, TypeView};

/// The name of a type, a constant or a function.
pub(crate) fn declared_name<'a>(tree: &Ref<'a, DeclKind>) -> Option<&'a str>
    ensures { option_copied result ≡ declared_name tree.now }
{
    match tree.view() {
        DeclView::Type { name, .. }
        | DeclView::Const { name, .. }
        | DeclView::Function { name, .. } => Some(name.text()),
        _ => None,
    }
}

/// The name of a module that is imported.
pub(crate) fn import_name<'a>(tree: &Ref<'a, DeclKind>) -> Option<&'a str>
    ensures { option_copied result ≡ import_name tree.now }
{
    match tree.view() {
        DeclView::Import(name) => Some(name.text()),
        _ => None,
    }
}

/// The name of a label.
pub(crate) fn label_name<'a>(tree: &Ref<'a, LabelKind>) -> Option<&'a str>
    ensures { option_copied result ≡ label_name tree.now }
{
    Some(tree.view().name.text())
}

fn type_sort(tree: &Ref<'_, TypeKind>) -> DeclSort
    ensures { result ≡ type_sort tree.now }
{
    match tree.view() {
        TypeView::Unit(_) => DeclSort::Unit,
        TypeView::Enum(_) => DeclSort::Enum,
        _ => DeclSort::Alias,
    }
}

/// What a declaration declares. An inner unit or enum is one, too.
pub fn sort_of(tree: &RowTree<'_>) -> DeclSort
    ensures { result ≡ sort_of tree.now }
{
    match tree.view() {
        RowView::Declared(DeclView::Import(_)) => DeclSort::Import,
        RowView::Declared(DeclView::ByteOrder(_)) => DeclSort::Property,
        RowView::Declared(DeclView::Version(_)) => DeclSort::Property,
        RowView::Declared(DeclView::On { .. }) => DeclSort::Hook,
        RowView::Declared(DeclView::Type { type_, .. }) => type_sort(&type_),
        RowView::Declared(DeclView::Const { .. }) => DeclSort::Constant,
        RowView::Declared(DeclView::Function { .. }) => DeclSort::Function,
        RowView::Unit(_) => DeclSort::Unit,
        RowView::Enum(_) => DeclSort::Enum,
    }
}

/// The type that a declaration of a type names; an inner unit or enum itself.
pub fn type_of<'a>(tree: &RowTree<'a>) -> Option<Ref<'a, TypeKind>>
    ensures some { IfSome result (λ t. type_tree_of tree.now ≡ t) }
    ensures none { IfNone result (type_tree_of tree.now ≡ absent) }
{
    match tree.view() {
        RowView::Declared(DeclView::Type { type_, .. }) => Some(type_),
        RowView::Declared(_) => None,
        RowView::Unit(_) | RowView::Enum(_) => Some(Ref::new(tree.lend())),
    }
}

/// The declarations of a module.
pub fn declarations_of(whole: &Module) -> Members<'_, DeclKind>
    ensures { result ≡ module_declarations whole.now }
{
    whole.root().view().declarations
}

/// The name of a module.
pub fn name_of(whole: &Module) -> &str
    ensures { result.now ≡ module_name whole.now }
{
    whole.root().view().name.text()
}

/// The labels of a type that is an enum.
fn labels_in<'a>(tree: &Ref<'a, TypeKind>) -> Option<Members<'a, LabelKind>>
    ensures some { IfSome result (λ ls. enum_labels tree.now ≡ ls) }
    ensures none { IfNone result (enum_labels tree.now ≡ []) }
{
    match tree.view() {
        TypeView::Enum(labels) => Some(labels),
        _ => None,
    }
}

/// The labels of a declaration of an enum.
pub fn labels_of<'a>(tree: &RowTree<'a>) -> Option<Members<'a, LabelKind>>
    ensures some { IfSome result (λ ls. enum_labels (type_tree_of tree.now) ≡ ls) }
    ensures none { IfNone result (enum_labels (type_tree_of tree.now) ≡ []) }
{
    match type_of(tree) {
        Some(type_) => labels_in(&type_),
        None => None,
    }
}

/// Whether the library has a module of the name.
pub fn is_reserved(name: &str) -> bool
    ensures { result ≡ is_reserved name.now }
{
    name == "spicy" || name == "filter"
}
