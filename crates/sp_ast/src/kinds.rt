// Markers of what a lent tree is, one for each group of alternatives that can stand in one another's place. Those of the
// trees that stand by themselves are beside them.
ghost use Rattle.sp_ast.specs.declared.groups.Group.TheVariants as group_is;

use crate::whole::Kind;

/// Marks names.
#[derive(Drop)]
pub struct NameKind;

/// Marks texts in quotes where no expression stands.
#[derive(Drop)]
pub struct StringKind;

/// Marks numbers where no expression stands.
#[derive(Drop)]
pub struct NumberKind;

/// Marks names of the hooks that each unit has, as `%init`.
#[derive(Drop)]
pub struct HookNameKind;

/// Marks paths.
#[derive(Drop)]
pub struct PathKind;

/// Marks pairs of a map.
#[derive(Drop)]
pub struct PairKind;

/// Marks labels of an enumeration.
#[derive(Drop)]
pub struct LabelKind;

/// Marks ranges of a bitfield.
#[derive(Drop)]
pub struct RangeKind;

/// Marks parameters.
#[derive(Drop)]
pub struct ParameterKind;

/// Marks blocks.
#[derive(Drop)]
pub struct BlockKind;

/// Marks branches of an `if`.
#[derive(Drop)]
pub struct BranchKind;

/// Marks cases of a statement `switch`.
#[derive(Drop)]
pub struct CaseKind;

/// Marks items of a unit.
#[derive(Drop)]
pub struct ItemKind;

/// Marks what a hook in a unit hangs on.
#[derive(Drop)]
pub struct TargetKind;

/// Marks parts of a unit that take input.
#[derive(Drop)]
pub struct PartKind;

/// Marks arms of a switch in a unit.
#[derive(Drop)]
pub struct ArmKind;

/// Marks guards of an arm.
#[derive(Drop)]
pub struct GuardKind;

/// Marks bodies of an arm.
#[derive(Drop)]
pub struct BodyKind;

/// Marks what a field or an element reads.
#[derive(Drop)]
pub struct BaseKind;

/// Marks counts.
#[derive(Drop)]
pub struct CountKind;

/// Marks attributes.
#[derive(Drop)]
pub struct AttributeKind;

/// Marks hooks.
#[derive(Drop)]
pub struct HookKind;

/// Marks what hooks do.
#[derive(Drop)]
pub struct HookBodyKind;

/// Marks units.
#[derive(Drop)]
pub struct UnitKind;

/// Marks fields.
#[derive(Drop)]
pub struct FieldKind;

/// Marks declarations.
#[derive(Drop)]
pub struct DeclKind;

impl Kind for NameKind {
    ghost group = { group_is.Names };
}

impl Kind for StringKind {
    ghost group = { group_is.Strings };
}

impl Kind for NumberKind {
    ghost group = { group_is.Numbers };
}

impl Kind for HookNameKind {
    ghost group = { group_is.HookNames };
}

impl Kind for PathKind {
    ghost group = { group_is.Paths };
}

impl Kind for PairKind {
    ghost group = { group_is.Pairs };
}

impl Kind for LabelKind {
    ghost group = { group_is.Labels };
}

impl Kind for RangeKind {
    ghost group = { group_is.Ranges };
}

impl Kind for ParameterKind {
    ghost group = { group_is.Parameters };
}

impl Kind for BlockKind {
    ghost group = { group_is.Blocks };
}

impl Kind for BranchKind {
    ghost group = { group_is.Branches };
}

impl Kind for CaseKind {
    ghost group = { group_is.Cases };
}

impl Kind for ItemKind {
    ghost group = { group_is.Items };
}

impl Kind for TargetKind {
    ghost group = { group_is.Targets };
}

impl Kind for PartKind {
    ghost group = { group_is.Parts };
}

impl Kind for ArmKind {
    ghost group = { group_is.Arms };
}

impl Kind for GuardKind {
    ghost group = { group_is.Guards };
}

impl Kind for BodyKind {
    ghost group = { group_is.Bodies };
}

impl Kind for BaseKind {
    ghost group = { group_is.Bases };
}

impl Kind for CountKind {
    ghost group = { group_is.Counts };
}

impl Kind for AttributeKind {
    ghost group = { group_is.Attributes };
}

impl Kind for HookKind {
    ghost group = { group_is.Hooks };
}

impl Kind for HookBodyKind {
    ghost group = { group_is.HookBodies };
}

impl Kind for UnitKind {
    ghost group = { group_is.Units };
}

impl Kind for FieldKind {
    ghost group = { group_is.Fields };
}

impl Kind for DeclKind {
    ghost group = { group_is.Declarations };
}
