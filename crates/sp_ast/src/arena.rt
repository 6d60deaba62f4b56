// Trees in an arena: entries in the order in which they are built, each naming its parts by their places.
ghost use Rattle.std.specs.Prelude.{◌≡◌, ◌≤◌, ◌<◌, ◌++◌, ◌∷◌, [], List, length, max, true, ◌↔◌, IfOk, IsErrOf, OnErr};
ghost use Rattle.std.proofs.Common.{get_or};
ghost use Rattle.sp_base.specs.declared.resources.ResourceError.TheVariants.{LimitExceeded};
ghost use Rattle.sp_ast.specs.Trees.{Tree, in_row, tree, trees, respan};
ghost use Rattle.sp_ast.specs.Heights.{height, list_height, most_levels};
ghost use Rattle.sp_ast.specs.Slots.{slots, fill, is_formed};
ghost use Rattle.sp_ast.specs.Places.{tree_at, trees_at, ArePlaces, IsPlace, AreSound, no_parts};
ghost use Rattle.sp_ast.specs.Arenas.{headed};
ghost use Rattle.sp_ast.specs.Levels.{level_tree};

use crate::forms::Form;
use crate::heads::{Head, Heads};
use crate::lent::{Level, Parts};
use sp_base::{NoMemory, ResourceError, Span, or_drop};
use std::alloc::Global;
use std::marker::Model;

/// The most levels of a tree, which is how often a walk over it calls itself: the machine's stack is memory too, and a
/// sender chooses how high the trees of a text are.
pub const MOST_LEVELS: u16 = 1000;

/// The place of a part that is left out.
pub const LEFT_OUT: u32 = 4294967295;

/// The place of parts in a row, of which there are none.
pub const NO_PARTS: u32 = 4294967294;

/// A tree of the arena.
#[derive(Clone, Copy)]
pub(crate) struct Entry {
    /// Where its root stands among the heads.
    pub(crate) head: u32,
    /// Where the places of its parts begin among all places, and how many they are.
    pub(crate) from: u32,
    pub(crate) count: u32,
    /// The slice of the text on which it stands, unless it is a row.
    pub(crate) span: Span,
    pub(crate) levels: u16,
}

/// Trees in the order in which they were built, named by their places. A tree's parts are trees before it. Each tree has
/// the parts that its alternative asks for, and is at most [`MOST_LEVELS`] levels high.
#[derive(Drop)]
pub struct Arena {
    heads: Heads,
    places: Vec<u32>,
    entries: Vec<Entry>,
}

impl Model for Arena {
    ghost use Rattle.std.specs.Prelude.{◌≤◌, List, [], length};
    ghost use Rattle.std.specs.Coded.{codes, coded_list};
    ghost use Rattle.sp_ast.specs.Trees.{Tree as Data};
    ghost use Rattle.sp_ast.specs.inside.TreeCodes.{coded_tree};

    ghost Value = { List Data };

    ghost coded = { coded_list (coded_tree (Prim.hlevel codes)) };

    ghost use Rattle.sp_ast.specs.Places.{AreSound, no_parts};
    ghost use Rattle.sp_ast.specs.Arenas.{arena_trees, Stands};

    ghost view = { λ a. arena_trees a.heads a.places.items a.entries.items };

    ghost invariant = { λ a. Stands a.heads a.places.items a.entries.items };
}

/// The higher of two heights.
fn higher(a: u16, b: u16) -> u16
    ensures { result ≡ max a b }
{
    if a < b { b } else { a }
}

impl Arena {
    /// No trees. Takes no memory.
    pub fn new(alloc: Global) -> Arena
        ensures { result ≡ [] }
    {
        Arena {
            heads: Heads::new(alloc),
            places: Vec::new(alloc),
            entries: Vec::new(alloc),
        }
    }

    /// How many trees there are, which is the place of the next one.
    pub fn count(&self) -> u32
        ensures { result ≡ length self.now }
    {
        self.entries.len() as u32
    }

    /// How high a tree is.
    fn levels(&self, at: u32) -> u16
        requires { IsPlace self.now at }
        ensures { result ≡ height (tree_at self.now at) }
    {
        match self.entries.get(at as usize) {
            Some(entry) => entry.levels,
            None => 0,
        }
    }

    /// How high the highest of the trees at these places is.
    fn highest(&self, parts: &[u32]) -> u16
        requires { ArePlaces self.now parts.now }
        ensures { result ≡ list_height (trees_at self.now parts.now) }
    {
        let mut most = 0;
        for at in parts {
            most = higher(most, self.levels(*at));
        }
        most
    }

    /// One more tree, with the parts at these places. It answers its place.
    fn put(&mut self, head: Head, span: Span, levels: u16, parts: &[u32]) -> Result<u32, NoMemory>
        requires places { ArePlaces self.old parts.now }
        requires levels { levels ≡ height (headed head span (trees_at self.old parts.now)) }
        requires low { levels ≤ most_levels }
        requires formed { is_formed (headed head span (trees_at self.old parts.now)) ≡ true }
        ensures ok { IfOk result (λ at. (at ≡ length self.old) × (at < no_parts)
            × (self.new ≡ self.old ++ headed head span (trees_at self.old parts.now) ∷ [])) }
        ensures err { OnErr result (self.new ≡ self.old) }
    {
        let at = self.count();
        let Ok(from) = u32::try_from(self.places.len()) else {
            drop(head);
            return Err(NoMemory);
        };
        let Ok(count) = u32::try_from(parts.len()) else {
            drop(head);
            return Err(NoMemory);
        };
        if at >= NO_PARTS {
            drop(head);
            return Err(NoMemory);
        }
        or_drop!(self.places.extend_from_slice(parts); head);
        let head = self.heads.keep(head)?;
        self.entries.push(Entry {
            head,
            from,
            count,
            span,
            levels,
        })?;
        Ok(at)
    }

    /// One more tree: of an alternative, on this slice of the text, with the parts at these places. It answers its place,
    /// or that the tree would be higher than [`MOST_LEVELS`].
    pub fn push(&mut self, form: Form, span: Span, parts: &[u32]) -> Result<u32, ResourceError>
        requires places { ArePlaces self.old parts.now }
        requires fill { fill (slots form) (trees (trees_at self.old parts.now)) ≡ true }
        ensures ok { IfOk result (λ at. (at ≡ length self.old) × (at < no_parts)
            × (self.new ≡ self.old ++ tree form span (trees_at self.old parts.now) ∷ [])) }
        ensures err { OnErr result (self.new ≡ self.old) }
        ensures limit { IsErrOf result LimitExceeded
            ↔ (most_levels < height (tree form span (trees_at self.old parts.now))) }
    {
        self.are_sound();
        let highest = self.highest(parts);
        if highest >= MOST_LEVELS {
            return Err(ResourceError::LimitExceeded);
        }
        Ok(self.put(Head::Of(form), span, highest + 1, parts)?)
    }

    /// One more tree: the parts at these places in a row. It answers its place, which is [`NO_PARTS`] where there are
    /// none.
    pub fn push_row(&mut self, parts: &[u32]) -> Result<u32, NoMemory>
        requires places { ArePlaces self.old parts.now }
        ensures ok { IfOk result (λ at. (tree_at self.new at ≡ in_row (trees_at self.old parts.now))
            × IsPlace self.new at) }
        ensures stay { IfOk result (λ at. (ts : List Tree) × (self.new ≡ self.old ++ ts)) }
        ensures err { OnErr result (self.new ≡ self.old) }
    {
        if parts.is_empty() {
            return Ok(NO_PARTS);
        }
        self.are_sound();
        let highest = self.highest(parts);
        self.put(Head::Row, Span { from: 0, to: 0 }, highest, parts)
    }

    /// The last tree on another slice of the text, as where parentheses stand round it.
    pub fn respan_last(&mut self, span: Span)
        ensures { (ts : List Tree) (t : Tree) → self.old ≡ ts ++ t ∷ []
            → self.new ≡ ts ++ respan span t ∷ [] }
    {
        let count = self.entries.len();
        if count > 0 {
            self.entries[count - 1].span = span;
        }
    }

    /// One level of the tree at a place.
    pub(crate) fn level(&self, at: u32) -> Level<'_>
        ensures { level_tree result ≡ tree_at self.now at }
    {
        if at == NO_PARTS {
            return Level::Row(Parts::at(self, &[]));
        }
        let Some(entry) = self.entries.get(at as usize) else {
            return Level::Absent;
        };
        let from = entry.from as usize;
        let parts = Parts::at(self, &self.places[from..from + entry.count as usize]);
        match self.heads.get(entry.head) {
            Head::Row => Level::Row(parts),
            Head::Of(form) => Level::Of(form, entry.span, parts),
        }
    }

    /// All trees are low and formed, and there are not too many to have places. It does nothing; a caller's proof has the
    /// facts from it.
    pub fn are_sound(&self)
        ensures sound { AreSound self.now }
        ensures few { length self.now ≤ no_parts }
    {
        let _ = &self.entries;
    }
}
