// The nodes of the arena, and how one of them is changed.
ghost use Rattle.std.specs.Prelude.{◌≡◌, ◌≢◌, Some, IsSome};
ghost use Rattle.std.specs.Borrow.{Lends, sem};
ghost use Rattle.slab.specs.Slab.{ContainsKey, get};
ghost use Rattle.sp_chain.specs.Rings.{after_in, before_in, item_in, item_of, length_in};
ghost use Rattle.sp_chain.specs.inside.Lending.{lends_node};
ghost use Rattle.sp_chain.specs.inside.Steps.{SetsAfter, SetsBefore, SetsLength};

use slab::Slab;

/// A node of a ring, with its neighbours by index.
#[derive(Drop)]
pub(crate) struct Node<T> {
    pub(crate) before: usize,
    pub(crate) after: usize,
    pub(crate) content: Content<T>,
}

/// What a node stands for.
#[derive(Drop)]
pub(crate) enum Content<T> {
    /// A list of so many items: its ring begins and ends here.
    List(usize),
    Item(T),
}

impl<T> Content<T> {
    ghost use Rattle.sp_chain.specs.contracts.nodes.Content.{the_row};

    fn item_mut(&mut self) -> &mut T
        requires { IsSome (item_of self.old) }
        ensures* lends { sem 𝓛 (Lends (the_row T.row) T.row self.entry result Content.Item) }
        ensures value { item_of self.old ≡ Some result.now }
    {
        match self {
            Content::Item(item) => item,
            Content::List(_) => unreachable!(),
        }
    }
}

impl<T> Node<T> {
    ghost use Rattle.sp_chain.specs.inside.Lending.{lends_item};

    fn item_mut(&mut self) -> &mut T
        requires { IsSome (item_of self.old.content) }
        ensures* lends { sem 𝓛 (lends_item T.row self.entry result) }
        ensures value { item_of self.old.content ≡ Some result.now }
    {
        let content = &mut self.content;
        content.item_mut()
    }
}

pub(crate) fn after_of<T>(nodes: &Slab<Node<T>>, key: usize) -> usize
    requires { ContainsKey nodes.now key }
    ensures { result ≡ after_in (get nodes.now key) }
{
    nodes[key].after
}

pub(crate) fn before_of<T>(nodes: &Slab<Node<T>>, key: usize) -> usize
    requires { ContainsKey nodes.now key }
    ensures { result ≡ before_in (get nodes.now key) }
{
    nodes[key].before
}

pub(crate) fn length_of<T>(nodes: &Slab<Node<T>>, key: usize) -> usize
    requires { IsSome (length_in (get nodes.now key)) }
    ensures { length_in (get nodes.now key) ≡ Some result }
{
    match nodes[key].content {
        Content::List(length) => length,
        Content::Item(_) => unreachable!(),
    }
}

pub(crate) fn item_of<T>(nodes: &Slab<Node<T>>, key: usize) -> &T
    requires { IsSome (item_in (get nodes.now key)) }
    ensures { item_in (get nodes.now key) ≡ Some result.now }
{
    match &nodes[key].content {
        Content::Item(item) => item,
        Content::List(_) => unreachable!(),
    }
}

pub(crate) fn item_of_mut<T>(nodes: &mut Slab<Node<T>>, key: usize) -> &mut T
    requires { IsSome (item_in (get nodes.old key)) }
    ensures* lends { sem 𝓛 (lends_node T.row nodes.entry key result) }
    ensures value { item_in (get nodes.old key) ≡ Some result.now }
{
    let node = &mut nodes[key];
    node.item_mut()
}

pub(crate) fn set_after<T>(nodes: &mut Slab<Node<T>>, key: usize, after: usize)
    requires { ContainsKey nodes.old key }
    ensures { SetsAfter nodes.old nodes.new key after }
{
    nodes[key].after = after;
}

pub(crate) fn set_before<T>(nodes: &mut Slab<Node<T>>, key: usize, before: usize)
    requires { ContainsKey nodes.old key }
    ensures { SetsBefore nodes.old nodes.new key before }
{
    nodes[key].before = before;
}

pub(crate) fn set_length<T>(nodes: &mut Slab<Node<T>>, key: usize, length: usize)
    requires { IsSome (length_in (get nodes.old key)) }
    ensures { SetsLength nodes.old nodes.new key length }
{
    if let Content::List(old) = &mut nodes[key].content {
        *old = length;
    }
}
