// How nodes come into a ring and go from it.
ghost use Rattle.std.specs.Prelude.{◌≡◌, ◌≢◌, ◌≤◌, IsSome, IsOk, IfOk, IfErr, OnErr};
ghost use Rattle.slab.specs.Slab.{get, HasRoomFor};
ghost use Rattle.sp_chain.specs.Rings.{IsSound, length_in};
ghost use Rattle.sp_chain.specs.inside.Steps.{IsPlace, IsHeld, Inserts, Unlinks, Splices};

use crate::nodes::{
    Content, Node, after_of, before_of, length_of, set_after, set_before, set_length,
};
use slab::Slab;

/// Puts an item into a list, behind the node `before` of its ring.
pub(crate) fn insert_behind<T>(
    nodes: &mut Slab<Node<T>>,
    list: usize,
    before: usize,
    item: T,
) -> Result<usize, T>
    requires sound { IsSound nodes.old }
    requires place { IsPlace nodes.old list before }
    ensures ok { IfOk result (λ slot. Inserts nodes.old nodes.new list before slot item) }
    ensures err { OnErr result (nodes.new.slots ≡ nodes.old.slots) }
    ensures item_returned { IfErr result (λ returned. returned ≡ item) }
    ensures succeeds { HasRoomFor nodes.old 1 → IsOk result }
    ensures had_room { HasRoomFor nodes.old 1 → nodes.new.capacity ≡ nodes.old.capacity }
    ensures places { nodes.old.capacity ≤ nodes.new.capacity }
{
    let after = after_of(nodes, before);
    if nodes.reserve(1).is_err() {
        return Err(item);
    }
    let slot = nodes.insert_reserved(Node {
        before,
        after,
        content: Content::Item(item),
    });
    set_after(nodes, before, slot);
    set_before(nodes, after, slot);
    let length = length_of(nodes, list);
    prove!(length < nodes.len());
    set_length(nodes, list, length + 1);
    Ok(slot)
}

/// Takes an item out of a list, and its node out of the arena.
pub(crate) fn unlink_node<T>(nodes: &mut Slab<Node<T>>, list: usize, slot: usize) -> T
    requires sound { IsSound nodes.old }
    requires held { IsHeld nodes.old list slot }
    ensures { Unlinks nodes.old nodes.new list slot result }
{
    let before = before_of(nodes, slot);
    let after = after_of(nodes, slot);
    set_after(nodes, before, after);
    set_before(nodes, after, before);
    let length = length_of(nodes, list);
    set_length(nodes, list, length - 1);
    let Node {
        before: _,
        after: _,
        content,
    } = nodes.remove(slot);
    match content {
        Content::Item(item) => item,
        Content::List(_) => unreachable!(),
    }
}

/// Puts the items of the list `from` behind those of the list `to`.
pub(crate) fn splice_nodes<T>(nodes: &mut Slab<Node<T>>, to: usize, from: usize)
    requires sound { IsSound nodes.old }
    requires live { IsSome (length_in (get nodes.old to)) }
    requires other_live { IsSome (length_in (get nodes.old from)) }
    requires differ { to ≢ from }
    ensures { Splices nodes.old nodes.new to from }
{
    let count = length_of(nodes, from);
    if count == 0 {
        return;
    }
    let first = after_of(nodes, from);
    let last = before_of(nodes, from);
    let tail = before_of(nodes, to);
    set_after(nodes, tail, first);
    set_before(nodes, first, tail);
    set_after(nodes, last, to);
    set_before(nodes, to, last);
    set_after(nodes, from, from);
    set_before(nodes, from, from);
    let length = length_of(nodes, to);
    prove!(length < nodes.len());
    prove!(count < nodes.len() - length);
    set_length(nodes, to, length + count);
    set_length(nodes, from, 0);
}
