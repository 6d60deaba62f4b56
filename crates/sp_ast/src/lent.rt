// Trees that an arena lends.
ghost use Rattle.std.specs.Prelude.{◌≡◌, ◌<◌, ◌≤◌, ◌==◌, ◌∷◌, [], length, true, IfSome, IfNone};
ghost use Rattle.std.proofs.Common.{get_or};
ghost use Rattle.sp_ast.specs.Trees.{absent, span_of};
ghost use Rattle.sp_ast.specs.Places.{tree_at, trees_at};
ghost use Rattle.sp_ast.specs.Levels.{level_tree};
ghost use Rattle.sp_ast.specs.Slots.{is_formed};
ghost use Rattle.sp_ast.specs.Groups.{is_node};
ghost use Rattle.sp_ast.specs.Heights.{IsLow};

use crate::arena::Arena;
use crate::forms::Form;
use sp_base::Span;
use std::marker::Model;

/// A tree that an arena lends. Clauses see the tree.
#[derive(Drop)]
pub struct TreeRef<'a> {
    arena: &'a Arena,
    at: u32,
}

/// Parts of a tree, in the order of the text, that an arena lends. Clauses see the list of trees.
#[derive(Drop)]
pub struct Parts<'a> {
    arena: &'a Arena,
    places: &'a [u32],
}

/// One level of a tree.
#[derive(Drop)]
pub enum Level<'a> {
    /// A part is left out.
    Absent,
    /// Parts in a row.
    Row(Parts<'a>),
    /// The alternative, the slice of the text, and the parts.
    Of(&'a Form, Span, Parts<'a>),
}

impl<'a> Model for TreeRef<'a> {
    ghost use Rattle.std.specs.Coded.{codes};
    ghost use Rattle.sp_ast.specs.Trees.{Tree as Data};
    ghost use Rattle.sp_ast.specs.inside.TreeCodes.{coded_tree};
    ghost use Rattle.sp_ast.specs.Places.{tree_at};

    ghost Value = { Data };

    ghost coded = { coded_tree (Prim.hlevel codes) };

    ghost view = { λ t. tree_at t.arena.now t.at };
}

impl<'a> Model for Parts<'a> {
    ghost use Rattle.std.specs.Prelude.{List};
    ghost use Rattle.std.specs.Coded.{codes, coded_list};
    ghost use Rattle.sp_ast.specs.Trees.{Tree as Data};
    ghost use Rattle.sp_ast.specs.inside.TreeCodes.{coded_tree};
    ghost use Rattle.sp_ast.specs.Places.{trees_at};

    ghost Value = { List Data };

    ghost coded = { coded_list (coded_tree (Prim.hlevel codes)) };

    ghost view = { λ p. trees_at p.arena.now p.places.now };
}

impl<'a> TreeRef<'a> {
    /// The tree at a place.
    pub fn at(arena: &'a Arena, at: u32) -> TreeRef<'a>
        ensures { result ≡ tree_at arena.now at }
    {
        TreeRef { arena, at }
    }

    /// The same tree, lent once more.
    pub fn again(&self) -> TreeRef<'a>
        ensures { result ≡ self.now }
    {
        TreeRef {
            arena: self.arena,
            at: self.at,
        }
    }

    /// Its first level.
    pub fn level(&self) -> Level<'a>
        ensures { level_tree result ≡ self.now }
    {
        self.arena.level(self.at)
    }

    /// The slice of the text on which it stands. A part that is left out, and parts in a row, have none.
    pub fn span(&self) -> Span
        requires { is_node self.now ≡ true }
        ensures { result ≡ span_of self.now }
    {
        match self.level() {
            Level::Of(_, span, _) => span,
            Level::Absent | Level::Row(_) => unreachable!(),
        }
    }

    /// It is low, and has the parts of its alternatives. It does nothing; a caller's proof has the fact from it.
    pub fn is_sound(&self)
        ensures low { IsLow self.now }
        ensures formed { is_formed self.now ≡ true }
    {
        self.arena.are_sound();
    }
}

impl<'a> Parts<'a> {
    /// The trees at places.
    pub fn at(arena: &'a Arena, places: &'a [u32]) -> Parts<'a>
        ensures { result ≡ trees_at arena.now places.now }
    {
        Parts { arena, places }
    }

    /// The same parts, lent once more.
    pub fn again(&self) -> Parts<'a>
        ensures { result ≡ self.now }
    {
        Parts {
            arena: self.arena,
            places: self.places,
        }
    }

    /// No parts: those behind the last.
    pub fn end(&self) -> Parts<'a>
        ensures { result ≡ [] }
    {
        Parts {
            arena: self.arena,
            places: &[],
        }
    }

    pub fn len(&self) -> usize
        ensures { result ≡ length self.now }
    {
        self.places.len()
    }

    pub fn is_empty(&self) -> bool
        ensures { result ≡ (length self.now == 0) }
    {
        self.places.is_empty()
    }

    /// The part before which so many stand.
    pub fn get(&self, index: usize) -> Option<TreeRef<'a>>
        ensures some { IfSome result (λ t. (index < length self.now)
            × (t ≡ get_or self.now index absent)) }
        ensures none { IfNone result (length self.now ≤ index) }
    {
        match self.places.get(index) {
            Some(at) => Some(TreeRef::at(self.arena, *at)),
            None => None,
        }
    }

    /// The first part, and those behind it.
    pub fn split_first(&self) -> Option<(TreeRef<'a>, Parts<'a>)>
        ensures some { IfSome result (λ x. self.now ≡ x.0 ∷ x.1) }
        ensures none { IfNone result (self.now ≡ []) }
    {
        match self.places {
            [first, others @ ..] => Some((
                TreeRef::at(self.arena, *first),
                Parts::at(self.arena, others),
            )),
            [] => None,
        }
    }
}

impl<'a> Iterator for Parts<'a> {
    ghost use Rattle.std.specs.Iterator.{YieldsFirst, item_count};

    type Item = TreeRef<'a>;

    ghost next_gives = { YieldsFirst (λ s. s) };

    ghost remaining = { item_count (λ s. s) };

    fn next(&mut self) -> Option<TreeRef<'a>> {
        let (first, others) = self.split_first()?;
        *self = others;
        Some(first)
    }
}
