// Views of lent trees: one for each kind, whose members are known by name and by what they are.
mod decl;
mod expr;
mod field;
mod leaves;
mod members;
mod stmt;
mod types;
mod unit;

pub use decl::{DeclView, ModuleView};
pub use expr::{ExprView, PairView};
pub use field::{AttributeView, BaseView, FieldView};
pub use stmt::{BranchView, CaseView, StmtView};
pub use types::{LabelView, ParameterView, RangeView, TypeView};
pub use unit::{
    ArmView, BodyView, GuardView, HookBodyView, HookView, ItemView, PartView, TargetView, UnitView,
};
