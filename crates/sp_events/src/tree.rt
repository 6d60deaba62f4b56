// A value as it is told: plain data, with the fields of units written out.
use crate::copies::copy_tree;
use crate::parting::let_go;
use sp_base::{ByteList, NoMemory, Text};
use std::marker::Model;

/// A value with unit values written out. Trees nest as deep as the values that they tell, and the units in these. A tree is
/// dropped by a loop, whatever its depth; other walks into it call themselves once a level.
#[cycle(tree)]
pub struct Tree {
    pub node: Node,
}

impl Drop for Tree {
    fn drop(self) {
        let Tree { node } = self;
        let_go(node);
    }
}

/// One level of a tree.
#[cycle(tree)]
#[derive(Drop)]
pub enum Node {
    /// what a field without a value holds
    Void,
    Bool(bool),
    Uint(u64),
    Int(i64),
    Bytes(ByteList),
    Str(Text),
    /// a label of an enum, as `E::A`
    Label(Text),
    /// the number of an enum that no label has
    Unlisted(u64),
    /// the numbers of a bitfield's named ranges
    Bits(Vec<(Text, u64)>),
    Tuple(Vec<Tree>),
    Vector(Vec<Tree>),
    /// the members, ascending
    Set(Vec<Tree>),
    /// keys and values, in the order of the keys
    Map(Vec<(Tree, Tree)>),
    /// the fields that are set, by name, in the order in which they were read
    Unit(Vec<(Text, Tree)>),
    /// the place at which an iterator stands, from 0
    Place(u64),
}

impl Model for Tree {
    ghost use Rattle.sp_events.specs.Tree.{TreeData};
    ghost use Rattle.sp_events.specs.inside.TreeCodes.{coded_tree};
    ghost use Rattle.sp_events.specs.TreeSizes.{tree_size};

    ghost Value = { TreeData };

    ghost coded = { coded_tree };

    ghost use Rattle.sp_events.specs.TreeView.{tree_of};

    ghost view = { λ t. tree_of t.node };

    ghost size = { tree_size };

    ghost use Rattle.std.proofs.Common.{arith};
    ghost use Rattle.sp_events.specs.inside.TreeFalls.{deep-Node-le};

    ghost size_decreases = { λ t h. Prim.omega (arith, deep-Node-le t.node) };
}

impl Tree {
    ghost use Rattle.std.specs.Prelude.{◌≡◌, IfOk};
    ghost use Rattle.sp_events.specs.Tree.{unit, fields_of};
    ghost use Rattle.sp_events.specs.TreeView.{tree_of};

    /// The value of a unit with these fields.
    pub fn unit(fields: Vec<(Text, Tree)>) -> Tree
        ensures { result ≡ unit (fields_of fields.items) }
    {
        Tree {
            node: Node::Unit(fields),
        }
    }

    /// The tree's first level, taken out of it.
    pub(crate) fn into_node(self) -> Node
        ensures { tree_of result ≡ self }
    {
        let Tree { node } = self;
        node
    }

    /// An equal tree, which shares nothing with this one.
    pub fn copy(&self) -> Result<Tree, NoMemory>
        ensures { IfOk result (λ copy. copy ≡ self.now) }
    {
        copy_tree(self)
    }
}
