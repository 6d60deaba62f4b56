// The groups of alternatives that can stand in one another's place, and what may stand where a part is wanted.
ghost use Rattle.std.specs.Prelude.{◌≡◌};
ghost use Rattle.std.specs.List.{list_all};
ghost use Rattle.sp_ast.specs.Groups.{group_number, same_group, group, is_of, fits, is_node};

use crate::forms::Form;
use crate::lent::{Level, Parts, TreeRef};

/// Trees that can stand in one another's place.
#[derive(Clone, Copy, PartialEq, Eq)]
pub enum Group {
    Names,
    Strings,
    Numbers,
    HookNames,
    Paths,
    Expressions,
    Pairs,
    Types,
    Labels,
    Ranges,
    Parameters,
    Statements,
    Blocks,
    Branches,
    Cases,
    Items,
    Targets,
    Parts,
    Arms,
    Guards,
    Bodies,
    Bases,
    Counts,
    Attributes,
    Hooks,
    HookBodies,
    Units,
    Fields,
    Declarations,
    Modules,
}

/// What may stand for a part.
#[derive(Clone, Copy, PartialEq, Eq)]
pub enum Sort {
    /// A tree of the group.
    One(Group),
    /// The same, or nothing.
    Optional(Group),
    /// Trees of the group in a row.
    Rows(Group),
}

/// Parts of a tree that is built.
#[derive(Clone, Copy, PartialEq, Eq)]
pub enum Slot {
    /// One part.
    Part(Sort),
    /// All trees of the group that stand there.
    Several(Group),
}

impl Group {
    fn number(self) -> u8
        ensures { result ≡ group_number self }
    {
        self as u8
    }

    fn is(self, other: Group) -> bool
        ensures { result ≡ same_group self other }
    {
        self.number() == other.number()
    }

    /// The group of an alternative.
    fn of(form: &Form) -> Group
        ensures { result ≡ group form.now }
    {
        match form {
            Form::Name(_) => Group::Names,
            Form::String(_) => Group::Strings,
            Form::Number(_) => Group::Numbers,
            Form::HookName(_) => Group::HookNames,
            Form::Path => Group::Paths,
            Form::Expr(_) => Group::Expressions,
            Form::Pair => Group::Pairs,
            Form::Type(_) => Group::Types,
            Form::Label => Group::Labels,
            Form::Bits => Group::Ranges,
            Form::Parameter { .. } => Group::Parameters,
            Form::Stmt(_) => Group::Statements,
            Form::Block => Group::Blocks,
            Form::Branch => Group::Branches,
            Form::Case => Group::Cases,
            Form::Item(_) => Group::Items,
            Form::Target(_) => Group::Targets,
            Form::Part(_) => Group::Parts,
            Form::Arm => Group::Arms,
            Form::Guard(_) => Group::Guards,
            Form::Body(_) => Group::Bodies,
            Form::Base(_) => Group::Bases,
            Form::Count => Group::Counts,
            Form::Attribute(_) => Group::Attributes,
            Form::Hook => Group::Hooks,
            Form::HookBody { .. } => Group::HookBodies,
            Form::Unit => Group::Units,
            Form::Field => Group::Fields,
            Form::Decl(_) => Group::Declarations,
            Form::Module => Group::Modules,
        }
    }

    /// Whether a tree is of the group.
    pub fn has(self, tree: &TreeRef<'_>) -> bool
        ensures { result ≡ is_of self tree.now }
    {
        match tree.level() {
            Level::Of(form, ..) => self.is(Group::of(form)),
            Level::Absent | Level::Row(_) => false,
        }
    }

    /// Whether all of the trees are of the group.
    fn has_all(self, row: &Parts<'_>) -> bool
        ensures { result ≡ list_all (is_of self) row.now }
    {
        let mut left = row.again();
        while let Some((tree, others)) = left.split_first() {
            if !self.has(&tree) {
                return false;
            }
            left = others;
        }
        true
    }
}

impl Sort {
    /// Whether a tree may stand there.
    #[tactic(auto, using(crate::proofs::Rows::are_all))]
    pub fn fits(self, tree: &TreeRef<'_>) -> bool
        ensures { result ≡ fits self tree.now }
    {
        match self {
            Sort::One(group) => group.has(tree),
            Sort::Optional(group) => matches!(tree.level(), Level::Absent) || group.has(tree),
            Sort::Rows(group) => match tree.level() {
                Level::Row(row) => group.has_all(&row),
                Level::Absent | Level::Of(..) => false,
            },
        }
    }
}

/// Whether a tree is neither left out nor a row.
pub fn is_node(tree: &TreeRef<'_>) -> bool
    ensures { result ≡ is_node tree.now }
{
    matches!(tree.level(), Level::Of(..))
}
