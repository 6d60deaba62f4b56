// The arena, its lists and their slots.
ghost use Rattle.std.specs.Prelude.{◌≡◌, ◌≢◌, ◌≤◌, [], ◌∷◌, ◌++◌, ℕ, List, Some, None, IfOk, IfErr, IsOk, OnErr, ◌==◌, if◌then◌else◌};
ghost use Rattle.sp_chain.specs.Chains.{list_of, IsLive, HasSlot, Holds, first_slot, Updates, Splices, EachSlotOnce, HasFree};

use crate::links::{insert_behind, splice_nodes, unlink_node};
use crate::nodes::{Content, Node, after_of, before_of, item_of, item_of_mut};
use slab::Slab;
use sp_base::NoMemory;
use std::alloc::Global;
use std::marker::Model;

/// The number of a list.
#[derive(Clone, Copy, PartialEq, Eq)]
pub struct ListId {
    index: usize,
}

impl Model for ListId {
    ghost Value = { ℕ };

    ghost view = { λ l. l.index };

    ghost inverse = { λ n. record { index = n } };
}

/// The place of an item. It stays the same for as long as the item is in a list.
#[derive(Clone, Copy, Debug, PartialEq, Eq)]
pub struct Slot {
    index: usize,
}

impl Model for Slot {
    ghost Value = { ℕ };

    ghost view = { λ s. s.index };

    ghost inverse = { λ n. record { index = n } };
}

/// Doubly linked lists in one arena, linked by index. A call changes the lists alone that it names, and takes a time
/// that does not grow with them, but for `drop_list`, which drops each item.
///
/// Each list is a ring of nodes that begins and ends at a node of its own, whose index is the list's number.
#[derive(Drop)]
pub struct Chains<T> {
    nodes: Slab<Node<T>>,
}

impl<T> Model for Chains<T> {
    ghost use Rattle.sp_chain.specs.Chains.{Chains as Lists, chains_code};

    ghost Value = { Lists T };

    ghost coded = { chains_code T.code };

    ghost use Rattle.sp_chain.specs.Rings.{lists_in, IsSound};

    ghost view = { λ a. record { lists = lists_in a.nodes; places = a.nodes.capacity } };

    ghost invariant = { λ a. IsSound a.nodes };
}

impl<T> Chains<T> {
    ghost use Rattle.std.specs.Borrow.{sem};
    ghost use Rattle.sp_chain.specs.Lent.{lends_slot};

    /// An arena without lists. Takes no memory.
    pub fn new(alloc: Global) -> Chains<T>
        ensures empty { result.lists ≡ [] }
        ensures no_places { result.places ≡ 0 }
    {
        Chains {
            nodes: Slab::new(alloc),
        }
    }

    /// A slot stands once, in one list and at one place. Does nothing.
    pub fn each_slot_once(&self)
        ensures { EachSlotOnce self.now }
    {
        let _nodes = &self.nodes;
    }

    /// Makes a list without items.
    pub fn new_list(&mut self) -> Result<ListId, NoMemory>
        ensures fresh { IfOk result (λ l. list_of self.old l ≡ None) }
        ensures ok { IfOk result (λ l. Updates self.old self.new l (Some [])) }
        ensures err { OnErr result (self.new.lists ≡ self.old.lists) }
        ensures succeeds { HasFree self.old 1 → IsOk result }
        ensures had_free { HasFree self.old 1 → self.new.places ≡ self.old.places }
    {
        self.nodes.reserve(1)?;
        let key = self.nodes.vacant_key();
        let index = self.nodes.insert_reserved(Node {
            before: key,
            after: key,
            content: Content::List(0),
        });
        Ok(ListId { index })
    }

    /// Puts an item at the end of a list, or hands it back where there is no memory.
    pub fn push_back(&mut self, l: ListId, x: T) -> Result<Slot, T>
        requires { IsLive self.old l }
        ensures ok { (c : List (ℕ × T)) → list_of self.old l ≡ Some c
            → IfOk result (λ s. Updates self.old self.new l (Some (c ++ (s, x) ∷ []))) }
        ensures err { OnErr result (self.new.lists ≡ self.old.lists) }
        ensures item_returned { IfErr result (λ returned. returned ≡ x) }
        ensures succeeds { HasFree self.old 1 → IsOk result }
        ensures had_free { HasFree self.old 1 → self.new.places ≡ self.old.places }
    {
        let last = before_of(&self.nodes, l.index);
        let index = insert_behind(&mut self.nodes, l.index, last, x)?;
        Ok(Slot { index })
    }

    /// Puts an item at the front of a list, or hands it back where there is no memory.
    pub fn push_front(&mut self, l: ListId, x: T) -> Result<Slot, T>
        requires { IsLive self.old l }
        ensures ok { (c : List (ℕ × T)) → list_of self.old l ≡ Some c
            → IfOk result (λ s. Updates self.old self.new l (Some ((s, x) ∷ c))) }
        ensures err { OnErr result (self.new.lists ≡ self.old.lists) }
        ensures item_returned { IfErr result (λ returned. returned ≡ x) }
        ensures succeeds { HasFree self.old 1 → IsOk result }
        ensures had_free { HasFree self.old 1 → self.new.places ≡ self.old.places }
    {
        let index = insert_behind(&mut self.nodes, l.index, l.index, x)?;
        Ok(Slot { index })
    }

    /// Puts an item into a list behind the one of the slot `s`, or hands it back where there is no memory.
    pub fn insert_after(&mut self, l: ListId, s: Slot, x: T) -> Result<Slot, T>
        requires { HasSlot self.old l s }
        ensures ok { (d e : List (ℕ × T)) (y : T) → Holds self.old l d s y e
            → IfOk result (λ t. Updates self.old self.new l (Some (d ++ (s, y) ∷ (t, x) ∷ e))) }
        ensures err { OnErr result (self.new.lists ≡ self.old.lists) }
        ensures item_returned { IfErr result (λ returned. returned ≡ x) }
        ensures succeeds { HasFree self.old 1 → IsOk result }
        ensures had_free { HasFree self.old 1 → self.new.places ≡ self.old.places }
    {
        let index = insert_behind(&mut self.nodes, l.index, s.index, x)?;
        Ok(Slot { index })
    }

    /// Takes the item of a slot out of its list. The slot is free then.
    pub fn unlink(&mut self, l: ListId, s: Slot) -> T
        requires { HasSlot self.old l s }
        ensures { (d e : List (ℕ × T)) (y : T) → Holds self.old l d s y e
            → (result ≡ y) × Updates self.old self.new l (Some (d ++ e))
            × (self.new.places ≡ self.old.places) }
    {
        unlink_node(&mut self.nodes, l.index, s.index)
    }

    /// Takes the last item out of a list, if it has one.
    pub fn pop_back(&mut self, l: ListId) -> Option<T>
        requires { IsLive self.old l }
        ensures empty { list_of self.old l ≡ Some [] → (result ≡ None) × (self.new ≡ self.old) }
        ensures last { (d : List (ℕ × T)) (s : ℕ) (y : T) → Holds self.old l d s y []
            → (result ≡ Some y) × Updates self.old self.new l (Some d)
            × (self.new.places ≡ self.old.places) }
    {
        let last = before_of(&self.nodes, l.index);
        if last == l.index {
            return None;
        }
        Some(unlink_node(&mut self.nodes, l.index, last))
    }

    /// Puts the items of the list `from` behind those of the list `to`, which leaves `from` without items.
    pub fn splice(&mut self, to: ListId, from: ListId)
        requires live { IsLive self.old to }
        requires other_live { IsLive self.old from }
        requires differ { to ≢ from }
        ensures { (c d : List (ℕ × T)) → list_of self.old to ≡ Some c
            → list_of self.old from ≡ Some d
            → Splices self.old self.new to (c ++ d) from × (self.new.places ≡ self.old.places) }
    {
        splice_nodes(&mut self.nodes, to.index, from.index);
    }

    /// The slot of the first item.
    pub fn first(&self, l: ListId) -> Option<Slot>
        requires { IsLive self.now l }
        ensures { (c : List (ℕ × T)) → list_of self.now l ≡ Some c → result ≡ first_slot c }
    {
        slot_at(after_of(&self.nodes, l.index), l.index)
    }

    /// The slot of the item behind that of the slot `s`.
    pub fn next(&self, l: ListId, s: Slot) -> Option<Slot>
        requires { HasSlot self.now l s }
        ensures { (d e : List (ℕ × T)) (y : T) → Holds self.now l d s y e → result ≡ first_slot e }
    {
        slot_at(after_of(&self.nodes, s.index), l.index)
    }

    /// The item of a slot.
    pub fn get(&self, l: ListId, s: Slot) -> &T
        requires { HasSlot self.now l s }
        ensures { (d e : List (ℕ × T)) (y : T) → Holds self.now l d s y e → result.now ≡ y }
    {
        item_of(&self.nodes, s.index)
    }

    /// The item of a slot, for writing.
    pub fn get_mut(&mut self, l: ListId, s: Slot) -> &mut T
        requires { HasSlot self.old l s }
        ensures* lends { sem 𝓛 (lends_slot T.row self.entry l s result) }
        ensures value { (d e : List (ℕ × T)) (y : T) → Holds self.old l d s y e → result.now ≡ y }
    {
        item_of_mut(&mut self.nodes, s.index)
    }
}

impl<T: Drop> Chains<T> {
    /// Drops the items of a list, and the list. Its places are free then.
    pub fn drop_list(&mut self, l: ListId)
        requires { IsLive self.old l }
        ensures list { Updates self.old self.new l None }
        ensures places { self.new.places ≡ self.old.places }
    {
        'items: while let Some(_) = self.pop_back(l) {}
        self.nodes.remove(l.index);
    }
}

/// The slot of a node, unless it is the node of the list.
fn slot_at(index: usize, list: usize) -> Option<Slot>
    ensures { result ≡ (if index == list then None else Some index) }
{
    if index == list {
        None
    } else {
        Some(Slot { index })
    }
}
