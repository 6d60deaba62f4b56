// How a tree is dropped: by a loop, whatever its depth, and without memory. Only the key of a map is dropped by a call, and no
// key of a run's map has values in it.
ghost use Rattle.std.specs.Prelude.{◌≤◌, ◌<◌, ◌+◌};
ghost use Rattle.sp_events.specs.Tree.{trees_of, pairs_of, fields_of};
ghost use Rattle.sp_events.specs.TreeSizes.{tree_size, trees_size, pairs_size, fields_size};
ghost use Rattle.sp_events.specs.TreeView.{tree_of};
ghost use Rattle.sp_events.specs.inside.Left.{held, left_size, hand_size};

use crate::tree::{Node, Tree};
use sp_base::Text;
use std::mem;

/// Drops a tree. The trees that are open hang in one another, each in the first place of the one that was opened after it.
#[cycle(let_go)]
pub(crate) fn let_go(node: Node) {
    let mut left = open(node, None);
    loop {
        match left {
            None => return,
            Some((tree, above)) => left = open(tree.into_node(), above),
        }
    }
}

/// What is left where there is nothing in hand.
fn close(above: Option<Tree>) -> Option<(Tree, Option<Tree>)>
    ensures { left_size result ≤ held above }
{
    match above {
        Some(tree) => Some((tree, None)),
        None => None,
    }
}

/// Takes a value out of a tree, which becomes the one above it. What is left is the value in hand, and the tree above.
#[cycle(let_go)]
fn open(node: Node, above: Option<Tree>) -> Option<(Tree, Option<Tree>)>
    ensures size { left_size result ≤ tree_size (tree_of node) + 1 + held above }
    ensures falls { tree_size (tree_of node) + 1 + held above ≤ left_size result → hand_size result < tree_size (tree_of node) }
{
    match node {
        Node::Tuple(items) => open_items(items, above),
        Node::Vector(items) => open_items(items, above),
        Node::Set(items) => open_items(items, above),
        Node::Map(pairs) => open_pairs(pairs, above),
        Node::Unit(fields) => open_fields(fields, above),
        Node::Bytes(_) => close(above),
        Node::Str(_) => close(above),
        Node::Label(_) => close(above),
        Node::Bits(_) => close(above),
        Node::Void => close(above),
        Node::Bool(_) => close(above),
        Node::Uint(_) => close(above),
        Node::Int(_) => close(above),
        Node::Unlisted(_) => close(above),
        Node::Place(_) => close(above),
    }
}

fn open_items(items: Vec<Tree>, above: Option<Tree>) -> Option<(Tree, Option<Tree>)>
    ensures size { left_size result ≤ trees_size (trees_of items.items) + 1 + held above }
    ensures falls { trees_size (trees_of items.items) + 1 + held above ≤ left_size result → hand_size result < trees_size (trees_of items.items) }
{
    match above {
        Some(tree) => hang_items(items, tree),
        None => take_item(items),
    }
}

fn hang_items(mut items: Vec<Tree>, mut above: Tree) -> Option<(Tree, Option<Tree>)>
    ensures size { left_size result ≤ trees_size (trees_of items.items) + 1 + (tree_size above + 1) }
    ensures falls { trees_size (trees_of items.items) + 1 + (tree_size above + 1) ≤ left_size result → hand_size result < trees_size (trees_of items.items) }
{
    if items.is_empty() {
        items.destroy_empty();
        return Some((above, None));
    }
    mem::swap(&mut items[0], &mut above);
    Some((
        above,
        Some(Tree {
            node: Node::Vector(items),
        }),
    ))
}

fn take_item(mut items: Vec<Tree>) -> Option<(Tree, Option<Tree>)>
    ensures size { left_size result ≤ trees_size (trees_of items.items) + 1 + 0 }
    ensures falls { trees_size (trees_of items.items) + 1 + 0 ≤ left_size result → hand_size result < trees_size (trees_of items.items) }
{
    match items.pop() {
        Some(tree) => Some((tree, rest_of(items))),
        None => {
            items.destroy_empty();
            None
        }
    }
}

fn rest_of(items: Vec<Tree>) -> Option<Tree>
    ensures { held result ≤ trees_size (trees_of items.items) + 1 }
{
    if items.is_empty() {
        items.destroy_empty();
        return None;
    }
    Some(Tree {
        node: Node::Vector(items),
    })
}

#[cycle(let_go)]
fn open_pairs(pairs: Vec<(Tree, Tree)>, above: Option<Tree>) -> Option<(Tree, Option<Tree>)>
    ensures size { left_size result ≤ pairs_size (pairs_of pairs.items) + 1 + held above }
    ensures falls { pairs_size (pairs_of pairs.items) + 1 + held above ≤ left_size result → hand_size result < pairs_size (pairs_of pairs.items) }
{
    match above {
        Some(tree) => hang_pairs(pairs, tree),
        None => take_pair(pairs),
    }
}

fn hang_pairs(mut pairs: Vec<(Tree, Tree)>, mut above: Tree) -> Option<(Tree, Option<Tree>)>
    ensures size { left_size result ≤ pairs_size (pairs_of pairs.items) + 1 + (tree_size above + 1) }
    ensures falls { pairs_size (pairs_of pairs.items) + 1 + (tree_size above + 1) ≤ left_size result → hand_size result < pairs_size (pairs_of pairs.items) }
{
    if pairs.is_empty() {
        pairs.destroy_empty();
        return Some((above, None));
    }
    let pair = &mut pairs[0];
    mem::swap(&mut pair.1, &mut above);
    Some((
        above,
        Some(Tree {
            node: Node::Map(pairs),
        }),
    ))
}

#[cycle(let_go)]
fn take_pair(mut pairs: Vec<(Tree, Tree)>) -> Option<(Tree, Option<Tree>)>
    ensures size { left_size result ≤ pairs_size (pairs_of pairs.items) + 1 + 0 }
    ensures falls { pairs_size (pairs_of pairs.items) + 1 + 0 ≤ left_size result → hand_size result < pairs_size (pairs_of pairs.items) }
{
    match pairs.pop() {
        Some((key, value)) => {
            let_go(key.into_node());
            Some((value, rest_of_pairs(pairs)))
        }
        None => {
            pairs.destroy_empty();
            None
        }
    }
}

fn rest_of_pairs(pairs: Vec<(Tree, Tree)>) -> Option<Tree>
    ensures { held result ≤ pairs_size (pairs_of pairs.items) + 1 }
{
    if pairs.is_empty() {
        pairs.destroy_empty();
        return None;
    }
    Some(Tree {
        node: Node::Map(pairs),
    })
}

fn open_fields(fields: Vec<(Text, Tree)>, above: Option<Tree>) -> Option<(Tree, Option<Tree>)>
    ensures size { left_size result ≤ fields_size (fields_of fields.items) + 1 + held above }
    ensures falls { fields_size (fields_of fields.items) + 1 + held above ≤ left_size result → hand_size result < fields_size (fields_of fields.items) }
{
    match above {
        Some(tree) => hang_fields(fields, tree),
        None => take_field(fields),
    }
}

fn hang_fields(mut fields: Vec<(Text, Tree)>, mut above: Tree) -> Option<(Tree, Option<Tree>)>
    ensures size { left_size result ≤ fields_size (fields_of fields.items) + 1 + (tree_size above + 1) }
    ensures falls { fields_size (fields_of fields.items) + 1 + (tree_size above + 1) ≤ left_size result → hand_size result < fields_size (fields_of fields.items) }
{
    if fields.is_empty() {
        fields.destroy_empty();
        return Some((above, None));
    }
    let field = &mut fields[0];
    mem::swap(&mut field.1, &mut above);
    Some((
        above,
        Some(Tree {
            node: Node::Unit(fields),
        }),
    ))
}

fn take_field(mut fields: Vec<(Text, Tree)>) -> Option<(Tree, Option<Tree>)>
    ensures size { left_size result ≤ fields_size (fields_of fields.items) + 1 + 0 }
    ensures falls { fields_size (fields_of fields.items) + 1 + 0 ≤ left_size result → hand_size result < fields_size (fields_of fields.items) }
{
    match fields.pop() {
        Some((_, tree)) => Some((tree, rest_of_fields(fields))),
        None => {
            fields.destroy_empty();
            None
        }
    }
}

fn rest_of_fields(fields: Vec<(Text, Tree)>) -> Option<Tree>
    ensures { held result ≤ fields_size (fields_of fields.items) + 1 }
{
    if fields.is_empty() {
        fields.destroy_empty();
        return None;
    }
    Some(Tree {
        node: Node::Unit(fields),
    })
}
