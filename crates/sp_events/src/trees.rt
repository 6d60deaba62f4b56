// Lists of trees.
use crate::Tree;
use std::marker::Model;

/// How trees are kept: one alone without memory of its own, since most of what is told are single values.
#[derive(Drop)]
enum Row {
    Alone([Tree; 1]),
    Several(Vec<Tree>),
}

/// Trees in order, seen as their list.
#[derive(Drop)]
pub struct Trees {
    row: Row,
}

impl Model for Trees {
    ghost use Rattle.std.specs.Prelude.{List};
    ghost use Rattle.std.specs.Coded.{codes};
    ghost use Rattle.sp_events.specs.Tree.{TreeData};
    ghost use Rattle.sp_events.specs.TreeRows.{trees_in};
    ghost use Rattle.sp_events.specs.inside.TreeCodes.{coded_tree};

    ghost Value = { List TreeData };

    ghost coded = { Prim.hlevel (codes, coded_tree) };

    ghost view = { λ t. trees_in t.row };
}

impl Trees {
    ghost use Rattle.std.specs.Prelude.{◌≡◌, [], ◌∷◌};

    /// The trees of a list. Takes no memory.
    pub fn new(items: Vec<Tree>) -> Trees
        ensures { result ≡ items.items }
    {
        Trees {
            row: Row::Several(items),
        }
    }

    /// A tree alone. Takes no memory.
    pub fn alone(tree: Tree) -> Trees
        ensures { result ≡ tree ∷ [] }
    {
        Trees {
            row: Row::Alone([tree]),
        }
    }

    pub fn as_slice(&self) -> &[Tree]
        ensures { result.now ≡ self.now }
    {
        match &self.row {
            Row::Alone(tree) => &tree[..],
            Row::Several(items) => items.as_slice(),
        }
    }
}
