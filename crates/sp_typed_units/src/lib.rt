//! The typed list's declarations: how fields are read, and the units, functions, hooks, constants, enums and bitfields of a list
//! of modules, with all names looked up and all values typed.
#![tactic(auto)]

mod attributes;
mod declarations;
mod hooks;
mod items;
mod numbers;
mod rare;
mod readings;
mod rows;

pub use attributes::Attribute;
pub use declarations::{
    Alias, BitRange, Bitfield, Constant, ConstantValue, EndlessConversion, Enum, Function, Hook,
    HookOf, Label, LabelNumber, Member, MemberKind, OrderProperty, Parameter, Sink, Typed, Unit,
    Variable,
};
pub use hooks::unit_of;
pub use items::{Arm, Field, Part, PartNode};
pub use numbers::Numbers;
pub use rare::Rare;
pub use readings::{ReadOp, Reading, Spec, SpecNode, TokenOp, UnitOf};
pub use rows::Row;
