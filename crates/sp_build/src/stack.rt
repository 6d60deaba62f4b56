// The stack of trees while a tree is built: the trees stand in an arena, and the stack holds their places.
ghost use Rattle.std.specs.Prelude.{◌≡◌, ◌<◌, ◌^◌, ◌∷◌, ◌++◌, [], ℕ, List, length, take, drop, reverse, suc, true, IfSome, IfNone, OnOk};
ghost use Rattle.sp_ast.specs.Trees.{Tree, absent, in_row, tree, trees, respan};
ghost use Rattle.sp_ast.specs.Slots.{slots, fill};
ghost use Rattle.sp_build.specs.Items.{begun, built};
ghost use Rattle.sp_build.specs.Building.{Stack};
ghost use Rattle.sp_build.specs.declared.stack.Begin.{Begin};
ghost use Rattle.sp_build.specs.Stacks.{floor_of, last_trees, AreTrees, IsFloor, IsBegun, IsNodeOnTop};

use sp_ast::{Arena, BoundedTree, Form, LEFT_OUT, TreeRef};
use sp_base::{NoMemory, Span, or_drop};
use std::alloc::Global;
use std::marker::Model;

/// Where a tree began.
#[derive(Clone, Copy, PartialEq, Eq)]
pub(crate) struct Begin {
    /// How many tokens stand before it.
    token: u32,
    /// How many trees stood on the stack.
    below: usize,
}

/// The stack of trees. Clauses see a list that begins with the last item.
#[derive(Drop)]
pub(crate) struct TreeStack {
    arena: Arena,
    /// The places of the trees that stand on it, the last on top.
    places: Vec<u32>,
    /// Where trees began, the last on top.
    begins: Vec<Begin>,
}

impl Model for TreeStack {
    ghost use Rattle.std.specs.Prelude.{List, reverse};
    ghost use Rattle.std.specs.Coded.{codes, coded_list};
    ghost use Rattle.sp_ast.specs.inside.TreeCodes.{coded_tree};
    ghost use Rattle.sp_build.specs.Items.{Item, coded_item};

    ghost Value = { List Item };

    ghost coded = { coded_list (coded_item (coded_tree (Prim.hlevel codes))) };

    ghost use Rattle.sp_ast.specs.Places.{trees_at};
    ghost use Rattle.sp_build.specs.Stacks.{stack_of, Holds};

    ghost view = { λ s. stack_of (reverse s.begins.items) (trees_at s.arena s.places.items) };

    ghost invariant = { λ s. Holds s.arena s.places.items s.begins.items };
}

/// The last place where a tree began.
fn last_begin(begins: &[Begin]) -> Option<Begin>
    ensures some { IfSome result (λ b. (others : List Begin) × (begins.now ≡ others ++ b ∷ [])) }
    ensures none { IfNone result (begins.now ≡ []) }
{
    let count = begins.len();
    if count == 0 {
        None
    } else {
        Some(begins[count - 1])
    }
}

/// How many trees stand below the last place where a tree began.
#[tactic(auto, using(crate::proofs::Held::floor_of_last))]
fn floor(begins: &[Begin]) -> usize
    ensures { result ≡ floor_of (reverse begins.now) }
{
    match last_begin(begins) {
        Some(begin) => begin.below,
        None => 0,
    }
}

/// The last place.
fn last_place(places: &[u32]) -> u32
    ensures { (others : List ℕ) (at : ℕ) → places.now ≡ others ++ at ∷ [] → result ≡ at }
{
    let count = places.len();
    if count == 0 {
        LEFT_OUT
    } else {
        places[count - 1]
    }
}

/// One place in place of those from an index on.
fn replace_from(places: &mut Vec<u32>, from: usize, at: u32)
    requires { from < length places.old.items }
    ensures { places.new.items ≡ take from places.old.items ++ at ∷ [] }
{
    places[from] = at;
    places.truncate(from + 1);
}

impl TreeStack {
    /// Nothing stands on it. Takes no memory.
    pub(crate) fn new(alloc: Global) -> TreeStack
        ensures { result ≡ [] }
    {
        TreeStack {
            arena: Arena::new(alloc),
            places: Vec::new(alloc),
            begins: Vec::new(alloc),
        }
    }

    /// A tree begins before a token.
    pub(crate) fn begin(&mut self, token: u32) -> Result<(), NoMemory>
        ensures { OnOk result (self.new ≡ begun token ∷ self.old) }
    {
        let below = self.places.len();
        self.begins.push(Begin { token, below })?;
        Ok(())
    }

    /// A part is left out.
    pub(crate) fn leave_out(&mut self) -> Result<(), NoMemory>
        ensures { OnOk result (self.new ≡ built absent ∷ self.old) }
    {
        self.arena.are_sound();
        self.places.push(LEFT_OUT)?;
        Ok(())
    }

    /// The tree under the last trees, so many.
    pub(crate) fn tree_under(&self, count: usize) -> Option<TreeRef<'_>>
        requires { AreTrees count self.now }
        ensures some { IfSome result (λ t. drop count self.now
            ≡ built t ∷ drop (suc count) self.now) }
        ensures fits { IfSome result (λ t. count < 2 ^ 63) }
        ensures none { IfNone result (IsFloor (drop count self.now)) }
    {
        let left = self.places.len() - count;
        if left > floor(&self.begins) {
            Some(TreeRef::at(&self.arena, self.places[left - 1]))
        } else {
            None
        }
    }

    /// The place where a tree began, if that stands under the last trees, so many.
    pub(crate) fn begun_under(&self, count: usize) -> Option<u32>
        requires { AreTrees count self.now }
        ensures { IsBegun result count self.now }
    {
        let begin = last_begin(&self.begins)?;
        if begin.below == self.places.len() - count {
            Some(begin.token)
        } else {
            None
        }
    }

    /// A tree of the last trees, so many, in their place.
    pub(crate) fn join(&mut self, count: usize, form: Form, span: Span) -> Result<(), NoMemory>
        requires last { AreTrees count self.old }
        requires fill { fill (slots form) (trees (last_trees count self.old)) ≡ true }
        ensures { OnOk result (self.new
            ≡ built (tree form span (last_trees count self.old)) ∷ drop count self.old) }
    {
        self.arena.are_sound();
        let end = self.places.len();
        let from = end - count;
        or_drop!(self.places.push(LEFT_OUT); form);
        let at = self.arena.push(form, span, &self.places[from..end])?;
        self.arena.are_sound();
        replace_from(&mut self.places, from, at);
        Ok(())
    }

    /// The last trees, so many, in a row in their place.
    pub(crate) fn join_row(&mut self, count: usize) -> Result<(), NoMemory>
        requires { AreTrees count self.old }
        ensures { OnOk result (self.new
            ≡ built (in_row (last_trees count self.old)) ∷ drop count self.old) }
    {
        self.arena.are_sound();
        let end = self.places.len();
        let from = end - count;
        self.places.push(LEFT_OUT)?;
        let at = self.arena.push_row(&self.places[from..end])?;
        self.arena.are_sound();
        replace_from(&mut self.places, from, at);
        Ok(())
    }

    /// The last tree stands for the one that began before it.
    pub(crate) fn end(&mut self)
        ensures { (t : Tree) (at : ℕ) (s : Stack) → self.old ≡ built t ∷ begun at ∷ s
            → self.new ≡ built t ∷ s }
    {
        let count = self.begins.len();
        if count > 0 {
            self.begins.truncate(count - 1);
        }
    }

    /// The last tree, which isn't left out and no row, on another slice of the text.
    pub(crate) fn respan(&mut self, span: Span)
        requires { IsNodeOnTop self.old }
        ensures { (t : Tree) (s : Stack) → self.old ≡ built t ∷ s
            → self.new ≡ built (respan span t) ∷ s }
    {
        self.arena.are_sound();
        self.arena.respan_last(span);
    }

    /// The last tree.
    pub(crate) fn into_tree(self) -> BoundedTree
        ensures { (t : Tree) (s : Stack) → self ≡ built t ∷ s → result ≡ t }
    {
        let at = last_place(&self.places);
        BoundedTree::at(self.arena, at)
    }
}
