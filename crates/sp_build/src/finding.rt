// The parts of a tree that is built, found on the stack.
ghost use Rattle.std.specs.Prelude.{◌≡◌, ◌<◌, ◌^◌, drop, suc, true, IfSome};
ghost use Rattle.sp_ast.specs.Trees.{span_of};
ghost use Rattle.sp_build.specs.Building.{left, gathered, popped_all};
ghost use Rattle.sp_build.specs.inside.Popping.{passes, IsUnder, IsOnTop, IsFound};
ghost use Rattle.sp_build.specs.Stacks.{last_trees, first_span, AreTrees, AreFound};

use crate::stack::TreeStack;
use sp_ast::{Group, Level, Slot, Sort, TreeRef, is_node};
use sp_base::Span;

/// Which trees are found.
#[derive(Clone, Copy, PartialEq, Eq)]
pub(crate) enum Wanted {
    /// Those of a group.
    Of(Group),
    /// All but those that are left out, and rows.
    Nodes,
}

impl Wanted {
    fn takes(self, tree: &TreeRef<'_>) -> bool
        ensures { result ≡ passes self tree.now }
    {
        match self {
            Wanted::Of(group) => group.has(tree),
            Wanted::Nodes => is_node(tree),
        }
    }
}

/// Whether a tree that is wanted stands under the last trees, so many.
fn is_wanted(stack: &TreeStack, count: usize, wanted: Wanted) -> bool
    requires { AreTrees count stack.now }
    ensures under { IsUnder result (passes wanted) (drop count stack.now)
        (drop (suc count) stack.now) }
    ensures fits { result ≡ true → count < 2 ^ 63 }
{
    match stack.tree_under(count) {
        Some(tree) => wanted.takes(&tree),
        None => false,
    }
}

/// The slice of the text on which a tree stands.
fn span_of(tree: &TreeRef<'_>) -> Span
    ensures { result ≡ span_of tree.now }
{
    match tree.level() {
        Level::Of(_, span, _) => span,
        _ => Span { from: 0, to: 0 },
    }
}

/// The slice of the text on which the first of the last trees, so many, stands.
pub(crate) fn first_span(stack: &TreeStack, count: usize) -> Span
    requires { AreTrees count stack.now }
    ensures { result ≡ first_span (last_trees count stack.now) }
{
    if count == 0 {
        return Span { from: 0, to: 0 };
    }
    match stack.tree_under(count - 1) {
        Some(tree) => span_of(&tree),
        None => Span { from: 0, to: 0 },
    }
}

/// Whether the last tree may stand for such a part.
pub(crate) fn fits_on_top(stack: &TreeStack, sort: Sort) -> bool
    ensures { IsOnTop result sort stack.now }
{
    match stack.tree_under(0) {
        Some(tree) => sort.fits(&tree),
        None => false,
    }
}

/// How many the last trees are, with those that are wanted and stand under the last trees, so many.
fn run_under(stack: &TreeStack, count: usize, wanted: Wanted) -> usize
    requires { AreTrees count stack.now }
    ensures found { gathered (passes wanted) (drop count stack.now) (last_trees count stack.now)
        ≡ left (last_trees result stack.now) (drop result stack.now) }
    ensures last { AreTrees result stack.now }
{
    let mut found = count;
    while is_wanted(stack, found, wanted) {
        found += 1;
    }
    found
}

/// How many the last trees are, with what a slot wants under the last trees, so many.
fn part_under(stack: &TreeStack, count: usize, slot: Slot) -> Option<usize>
    requires { AreTrees count stack.now }
    ensures found { IsFound result slot count stack.now }
    ensures last { IfSome result (λ n. AreTrees n stack.now) }
{
    match slot {
        Slot::Part(sort) => {
            let tree = stack.tree_under(count)?;
            if sort.fits(&tree) {
                Some(count + 1)
            } else {
                None
            }
        }
        Slot::Several(group) => Some(run_under(stack, count, Wanted::Of(group))),
    }
}

/// How many of the last trees are the parts that the slots want.
pub(crate) fn parts(stack: &TreeStack, slots: &[Slot]) -> Option<usize>
    ensures found { AreFound result slots.now stack.now }
    ensures last { IfSome result (λ n. AreTrees n stack.now) }
{
    let mut found = 0;
    let mut left = slots.len();
    while left > 0 {
        left -= 1;
        found = part_under(stack, found, slots[left])?;
    }
    Some(found)
}

/// How many of the last trees are neither left out nor rows.
pub(crate) fn nodes(stack: &TreeStack) -> usize
    ensures found { popped_all stack.now
        ≡ left (last_trees result stack.now) (drop result stack.now) }
    ensures last { AreTrees result stack.now }
{
    run_under(stack, 0, Wanted::Nodes)
}
