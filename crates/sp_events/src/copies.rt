// Copies of trees.
ghost use Rattle.std.specs.Prelude.{◌≡◌, IfOk};

use crate::tree::{Node, Tree};
use sp_base::{NoMemory, Text, or_drop};

/// An equal tree.
#[cycle(copy_tree)]
pub(crate) fn copy_tree(tree: &Tree) -> Result<Tree, NoMemory>
    ensures { IfOk result (λ copy. copy ≡ tree.now) }
{
    let node = match &tree.node {
        Node::Void => Node::Void,
        Node::Bool(b) => Node::Bool(*b),
        Node::Uint(n) => Node::Uint(*n),
        Node::Int(n) => Node::Int(*n),
        Node::Bytes(bytes) => Node::Bytes(bytes.copy()?),
        Node::Str(text) => Node::Str(text.copy()?),
        Node::Label(name) => Node::Label(name.copy()?),
        Node::Unlisted(n) => Node::Unlisted(*n),
        Node::Bits(ranges) => Node::Bits(copy_ranges(ranges)?),
        Node::Tuple(members) => Node::Tuple(copy_trees(members)?),
        Node::Vector(items) => Node::Vector(copy_trees(items)?),
        Node::Set(members) => Node::Set(copy_trees(members)?),
        Node::Map(pairs) => Node::Map(copy_pairs(pairs)?),
        Node::Unit(fields) => Node::Unit(copy_fields(fields)?),
        Node::Place(at) => Node::Place(*at),
    };
    Ok(Tree { node })
}

fn copy_ranges(ranges: &Vec<(Text, u64)>) -> Result<Vec<(Text, u64)>, NoMemory>
    ensures { IfOk result (λ copies. copies.items ≡ ranges.now.items) }
{
    let mut copies = Vec::new(*ranges.allocator());
    for (name, n) in ranges {
        copies.push((name.copy()?, *n))?;
    }
    Ok(copies)
}

#[cycle(copy_tree)]
fn copy_trees(trees: &Vec<Tree>) -> Result<Vec<Tree>, NoMemory>
    ensures { IfOk result (λ copies. copies.items ≡ trees.now.items) }
{
    let mut copies = Vec::new(*trees.allocator());
    for tree in trees {
        copies.push(copy_tree(tree)?)?;
    }
    Ok(copies)
}

#[cycle(copy_tree)]
fn copy_pairs(pairs: &Vec<(Tree, Tree)>) -> Result<Vec<(Tree, Tree)>, NoMemory>
    ensures { IfOk result (λ copies. copies.items ≡ pairs.now.items) }
{
    let mut copies = Vec::new(*pairs.allocator());
    for (key, value) in pairs {
        let key = copy_tree(key)?;
        let value = or_drop!(copy_tree(value); key);
        copies.push((key, value))?;
    }
    Ok(copies)
}

#[cycle(copy_tree)]
fn copy_fields(fields: &Vec<(Text, Tree)>) -> Result<Vec<(Text, Tree)>, NoMemory>
    ensures { IfOk result (λ copies. copies.items ≡ fields.now.items) }
{
    let mut copies = Vec::new(*fields.allocator());
    for (name, tree) in fields {
        let name = name.copy()?;
        let tree = or_drop!(copy_tree(tree); name);
        copies.push((name, tree))?;
    }
    Ok(copies)
}
