// Trees that stand by themselves, by what they are.
use crate::arena::Arena;
use crate::lent::TreeRef;
use std::marker::{Model, PhantomData};

/// A tree with the arena that holds it. Clauses see the tree. It has the parts of its alternatives and is at most
/// [`MOST_LEVELS`](crate::MOST_LEVELS) levels high.
#[derive(Drop)]
pub struct BoundedTree {
    arena: Arena,
    at: u32,
}

impl Model for BoundedTree {
    ghost use Rattle.std.specs.Coded.{codes};
    ghost use Rattle.sp_ast.specs.Trees.{Tree as Data};
    ghost use Rattle.sp_ast.specs.inside.TreeCodes.{coded_tree};
    ghost use Rattle.sp_ast.specs.Places.{tree_at};

    ghost Value = { Data };

    ghost coded = { coded_tree (Prim.hlevel codes) };

    ghost view = { λ t. tree_at t.arena t.at };
}

impl BoundedTree {
    ghost use Rattle.std.specs.Prelude.{◌≡◌, true};
    ghost use Rattle.sp_ast.specs.Heights.{IsLow};
    ghost use Rattle.sp_ast.specs.Slots.{is_formed};
    ghost use Rattle.sp_ast.specs.Places.{tree_at};

    /// The tree at a place of an arena.
    pub fn at(arena: Arena, at: u32) -> BoundedTree
        ensures { result ≡ tree_at arena at }
    {
        BoundedTree { arena, at }
    }

    pub fn lend(&self) -> TreeRef<'_>
        ensures { result ≡ self.now }
    {
        TreeRef::at(&self.arena, self.at)
    }

    /// The tree is low, and has the parts of its alternatives. It does nothing; a caller's proof has the fact from it.
    pub fn is_sound(&self)
        ensures low { IsLow self.now }
        ensures formed { is_formed self.now ≡ true }
    {
        self.arena.are_sound();
    }
}

/// Marks trees of one group.
pub trait Kind {
    ghost use Rattle.sp_ast.specs.declared.groups.Group.{Group};

    /// the group
    ghost group: { Group };
}

/// A tree that is what its marker says.
#[derive(Drop)]
pub struct Whole<K: Kind> {
    tree: BoundedTree,
    marker: PhantomData<K>,
}

/// Marks expressions.
#[derive(Drop)]
pub struct ExprKind;

/// Marks statements.
#[derive(Drop)]
pub struct StmtKind;

/// Marks types.
#[derive(Drop)]
pub struct TypeKind;

/// Marks modules.
#[derive(Drop)]
pub struct ModuleKind;

impl Kind for ExprKind {
    ghost use Rattle.sp_ast.specs.declared.groups.Group.TheVariants as group_is;

    ghost group = { group_is.Expressions };
}

impl Kind for StmtKind {
    ghost use Rattle.sp_ast.specs.declared.groups.Group.TheVariants as group_is;

    ghost group = { group_is.Statements };
}

impl Kind for TypeKind {
    ghost use Rattle.sp_ast.specs.declared.groups.Group.TheVariants as group_is;

    ghost group = { group_is.Types };
}

impl Kind for ModuleKind {
    ghost use Rattle.sp_ast.specs.declared.groups.Group.TheVariants as group_is;

    ghost group = { group_is.Modules };
}

/// An expression.
pub type Expr = Whole<ExprKind>;

/// A statement.
pub type Stmt = Whole<StmtKind>;

/// A type.
pub type TypeTree = Whole<TypeKind>;

/// A module.
pub type Module = Whole<ModuleKind>;

impl<K: Kind> Model for Whole<K> {
    ghost use Rattle.std.specs.Prelude.{◌≡◌, true};
    ghost use Rattle.std.specs.Coded.{codes};
    ghost use Rattle.sp_ast.specs.Trees.{Tree as Data};
    ghost use Rattle.sp_ast.specs.inside.TreeCodes.{coded_tree};
    ghost use Rattle.sp_ast.specs.Groups.{is_of};

    ghost Value = { Data };

    ghost coded = { coded_tree (Prim.hlevel codes) };

    ghost view = { λ x. x.tree };

    ghost invariant = { λ x. is_of K.group x.tree ≡ true };
}

impl<K: Kind> Whole<K> {
    ghost use Rattle.std.specs.Prelude.{◌≡◌, true};
    ghost use Rattle.sp_ast.specs.Heights.{IsLow};
    ghost use Rattle.sp_ast.specs.Slots.{is_formed};
    ghost use Rattle.sp_ast.specs.Groups.{is_of};

    pub fn new(tree: BoundedTree) -> Whole<K>
        requires { is_of K.group tree ≡ true }
        ensures { result ≡ tree }
    {
        Whole {
            tree,
            marker: PhantomData,
        }
    }

    pub fn lend(&self) -> TreeRef<'_>
        ensures { result ≡ self.now }
    {
        self.tree.lend()
    }

    /// The tree is low, has the parts of its alternatives, and is of its group. It does nothing; a caller's proof has the
    /// fact from it.
    pub fn is_sound(&self)
        ensures low { IsLow self.now }
        ensures formed { is_formed self.now ≡ true }
        ensures group { is_of K.group self.now ≡ true }
    {
        self.tree.is_sound();
    }
}
