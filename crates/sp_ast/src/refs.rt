// Lent trees of which it is known what they are.
ghost use Rattle.std.specs.Prelude.{◌≡◌, ◌==◌, ◌≤◌, ◌<◌, ◌∷◌, [], length, true, IfSome, IfNone};
ghost use Rattle.std.proofs.Common.{get_or};
ghost use Rattle.sp_ast.specs.Trees.{absent, span_of, tree, trees};
ghost use Rattle.sp_ast.specs.Views.{optional_tree, present};
ghost use Rattle.sp_ast.specs.Groups.{same_group, group, is_of, are_of};
ghost use Rattle.sp_ast.specs.Heights.{IsLow};
ghost use Rattle.sp_ast.specs.Slots.{slots, fill, is_formed};

use crate::forms::Form;
use crate::lent::{Level, Parts, TreeRef};
use crate::whole::{Kind, Whole};
use sp_base::Span;
use std::marker::{Model, PhantomData};

/// A lent tree that is what its marker says. Clauses see the tree. It has the parts of its alternatives, and is low.
#[derive(Drop)]
pub struct Ref<'a, K: Kind> {
    tree: TreeRef<'a>,
    marker: PhantomData<K>,
}

/// Lent trees, in the order of the text, each of which is what the marker says. Clauses see the list of trees.
#[derive(Drop)]
pub struct Members<'a, K: Kind> {
    parts: Parts<'a>,
    marker: PhantomData<K>,
}

impl<'a, K: Kind> Model for Ref<'a, K> {
    ghost use Rattle.std.specs.Prelude.{◌≡◌, true};
    ghost use Rattle.std.specs.Coded.{codes};
    ghost use Rattle.sp_ast.specs.Trees.{Tree as Data};
    ghost use Rattle.sp_ast.specs.inside.TreeCodes.{coded_tree};
    ghost use Rattle.sp_ast.specs.Groups.{is_of};

    ghost Value = { Data };

    ghost coded = { coded_tree (Prim.hlevel codes) };

    ghost view = { λ x. x.tree };

    ghost invariant = { λ x. is_of K.group x.tree ≡ true };
}

impl<'a, K: Kind> Model for Members<'a, K> {
    ghost use Rattle.std.specs.Prelude.{◌≡◌, List, true};
    ghost use Rattle.std.specs.Coded.{codes, coded_list};
    ghost use Rattle.sp_ast.specs.Trees.{Tree as Data, trees};
    ghost use Rattle.sp_ast.specs.inside.TreeCodes.{coded_tree};
    ghost use Rattle.sp_ast.specs.Groups.{are_of};

    ghost Value = { List Data };

    ghost coded = { coded_list (coded_tree (Prim.hlevel codes)) };

    ghost view = { λ x. x.parts };

    ghost invariant = { λ x. are_of K.group (trees x.parts) ≡ true };
}

impl<'a, K: Kind> Ref<'a, K> {
    /// A tree that is known to be of the group.
    pub fn new(tree: TreeRef<'a>) -> Ref<'a, K>
        requires { is_of K.group tree ≡ true }
        ensures { result ≡ tree.entry }
    {
        Ref {
            tree,
            marker: PhantomData,
        }
    }

    /// The same tree, lent once more.
    pub fn again(&self) -> Ref<'a, K>
        ensures { result ≡ self.now }
    {
        Ref {
            tree: self.tree.again(),
            marker: PhantomData,
        }
    }

    /// The tree, whatever it is.
    pub fn lend(&self) -> TreeRef<'a>
        ensures { result ≡ self.now }
    {
        self.tree.again()
    }

    /// The slice of the text on which it stands.
    pub fn span(&self) -> Span
        ensures { result ≡ span_of self.now }
    {
        match self.tree.level() {
            Level::Of(_, span, _) => span,
            Level::Absent | Level::Row(_) => unreachable!(),
        }
    }

    /// The alternative that it is of, and its parts.
    pub(crate) fn alternative(&self) -> (&'a Form, Parts<'a>)
        ensures tree { self.now ≡ tree result.0.now (span_of self.now) result.1 }
        ensures group { same_group K.group (group result.0.now) ≡ true }
        ensures fill { fill (slots result.0.now) (trees result.1) ≡ true }
    {
        self.tree.is_sound();
        match self.tree.level() {
            Level::Of(form, _, parts) => (form, parts),
            Level::Absent | Level::Row(_) => unreachable!(),
        }
    }

    /// The tree is low, has the parts of its alternatives, and is of its group. It does nothing; a caller's proof has the
    /// fact from it.
    pub fn is_sound(&self)
        ensures low { IsLow self.now }
        ensures formed { is_formed self.now ≡ true }
        ensures group { is_of K.group self.now ≡ true }
    {
        self.tree.is_sound();
    }
}

/// The part that may be left out is the one that is lent, if it is. It does nothing; a caller's proof has the fact from it.
pub fn is_present<K: Kind>(part: &Option<Ref<'_, K>>)
    ensures { present (optional_tree part.now) ≡ part.now }
{
    match part {
        Some(tree) => tree.is_sound(),
        None => {}
    }
}

impl<'a, K: Kind> Members<'a, K> {
    /// Trees that are known to be of the group.
    pub fn new(parts: Parts<'a>) -> Members<'a, K>
        requires { are_of K.group (trees parts) ≡ true }
        ensures { result ≡ parts.entry }
    {
        Members {
            parts,
            marker: PhantomData,
        }
    }

    /// The same trees, lent once more.
    pub fn again(&self) -> Members<'a, K>
        ensures { result ≡ self.now }
    {
        Members {
            parts: self.parts.again(),
            marker: PhantomData,
        }
    }

    /// How many they are.
    pub fn len(&self) -> usize
        ensures { result ≡ length self.now }
    {
        self.parts.len()
    }

    /// Whether there are none.
    pub fn is_empty(&self) -> bool
        ensures { result ≡ (length self.now == 0) }
    {
        self.parts.is_empty()
    }

    /// The tree before which so many stand.
    #[tactic(auto, using(crate::proofs::Several::member_is_of))]
    pub fn get(&self, index: usize) -> Option<Ref<'a, K>>
        ensures some { IfSome result (λ t. (index < length self.now)
            × (t ≡ get_or self.now index absent)) }
        ensures none { IfNone result (length self.now ≤ index) }
    {
        match self.parts.get(index) {
            Some(tree) => Some(Ref::new(tree)),
            None => None,
        }
    }

    /// The first tree, and those behind it.
    pub fn split_first(&self) -> Option<(Ref<'a, K>, Members<'a, K>)>
        ensures some { IfSome result (λ x. self.now ≡ x.0 ∷ x.1) }
        ensures none { IfNone result (self.now ≡ []) }
    {
        match self.parts.split_first() {
            Some((first, others)) => Some((Ref::new(first), Members::new(others))),
            None => None,
        }
    }

    /// Each tree is low and has the parts of its alternatives, and all are of the group. It does nothing; a caller's proof
    /// has the fact from it.
    pub fn are_sound(&self)
        ensures { are_of K.group (trees self.now) ≡ true }
    {
        let _ = &self.parts;
    }
}

impl<'a, K: Kind> Iterator for Members<'a, K> {
    ghost use Rattle.std.specs.Iterator.{YieldsFirst, item_count};

    type Item = Ref<'a, K>;

    ghost next_gives = { YieldsFirst (λ s. s) };

    ghost remaining = { item_count (λ s. s) };

    fn next(&mut self) -> Option<Ref<'a, K>> {
        let (first, others) = self.split_first()?;
        *self = others;
        Some(first)
    }
}

impl<K: Kind> Whole<K> {
    /// The tree, lent as what it is.
    pub fn root(&self) -> Ref<'_, K>
        ensures { result ≡ self.now }
    {
        self.is_sound();
        Ref::new(self.lend())
    }
}
