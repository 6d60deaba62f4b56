// The first thing of each kind in a declaration.
use sp_ast::{
    ArmKind, BlockKind, DeclKind, DeclView, ExprKind, FieldKind, ItemKind, ItemView, PartKind,
    PartView, Ref, StmtKind, TypeKind, TypeView, UnitKind,
};

/// The type that is declared.
pub fn type_of<'a>(decl: &Ref<'a, DeclKind>) -> Option<Ref<'a, TypeKind>> {
    match decl.view() {
        DeclView::Type { type_, .. } => Some(type_),
        _ => None,
    }
}

/// The constant's value.
pub fn value_of<'a>(decl: &Ref<'a, DeclKind>) -> Option<Ref<'a, ExprKind>> {
    match decl.view() {
        DeclView::Const { value, .. } => Some(value),
        _ => None,
    }
}

/// The function's block.
pub fn block_of<'a>(decl: &Ref<'a, DeclKind>) -> Option<Ref<'a, BlockKind>> {
    match decl.view() {
        DeclView::Function { body, .. } => Some(body),
        _ => None,
    }
}

/// The first statement of the function.
pub fn stmt_of<'a>(decl: &Ref<'a, DeclKind>) -> Option<Ref<'a, StmtKind>> {
    block_of(decl)?.statements().get(0)
}

/// The unit that is declared.
pub fn unit_of<'a>(decl: &Ref<'a, DeclKind>) -> Option<Ref<'a, UnitKind>> {
    match type_of(decl)?.view() {
        TypeView::Unit(unit) => Some(unit),
        _ => None,
    }
}

/// The first item of the unit.
pub fn item_of<'a>(decl: &Ref<'a, DeclKind>) -> Option<Ref<'a, ItemKind>> {
    unit_of(decl)?.view().items.get(0)
}

/// The part that it is.
pub fn part_of<'a>(decl: &Ref<'a, DeclKind>) -> Option<Ref<'a, PartKind>> {
    match item_of(decl)?.view() {
        ItemView::Part(part) => Some(part),
        _ => None,
    }
}

/// The field that it is.
pub fn field_of<'a>(decl: &Ref<'a, DeclKind>) -> Option<Ref<'a, FieldKind>> {
    match part_of(decl)?.view() {
        PartView::Field(field) => Some(field),
        PartView::Switch { .. } => None,
    }
}

/// The first arm of the switch that it is.
pub fn arm_of<'a>(decl: &Ref<'a, DeclKind>) -> Option<Ref<'a, ArmKind>> {
    match part_of(decl)?.view() {
        PartView::Switch { arms, .. } => arms.get(0),
        PartView::Field(_) => None,
    }
}
