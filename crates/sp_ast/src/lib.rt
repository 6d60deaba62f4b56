//! The trees of the grammar language: types, expressions, statements, units and declarations.
#![tactic(auto)]

mod arena;
mod form_slots;
mod forms;
mod groups;
mod heads;
mod kinds;
mod lent;
mod refs;
mod views;
mod whole;

pub use arena::{Arena, LEFT_OUT, MOST_LEVELS, NO_PARTS};
pub use form_slots::slots;
pub use forms::{
    BaseForm, BodyForm, DeclForm, ExprForm, Form, GuardForm, ItemForm, PartForm, StmtForm,
    TargetForm, TypeForm,
};
pub use groups::{Group, Slot, Sort, is_node};
pub use kinds::{
    ArmKind, AttributeKind, BaseKind, BlockKind, BodyKind, BranchKind, CaseKind, CountKind,
    DeclKind, FieldKind, GuardKind, HookBodyKind, HookKind, HookNameKind, ItemKind, LabelKind,
    NameKind, NumberKind, PairKind, ParameterKind, PartKind, PathKind, RangeKind, StringKind,
    TargetKind, UnitKind,
};
pub use lent::{Level, Parts, TreeRef};
pub use refs::{Members, Ref, is_present};
pub use views::{
    ArmView, AttributeView, BaseView, BodyView, BranchView, CaseView, DeclView, ExprView,
    FieldView, GuardView, HookBodyView, HookView, ItemView, LabelView, ModuleView, PairView,
    ParameterView, PartView, RangeView, StmtView, TargetView, TypeView, UnitView,
};
pub use whole::{
    BoundedTree, Expr, ExprKind, Kind, Module, ModuleKind, Stmt, StmtKind, TypeKind, TypeTree,
    Whole,
};
