// What is pending: pieces in order, with an index from where each begins.
ghost use Rattle.std.specs.Prelude.{◌≡◌, ℕ, ◌+◌, ◌<◌, ◌≤◌, ◌^◌, List, [], ◌∷◌, Some, None, IfSome, OnOk, OnErr, nat_le, if◌then◌else◌};
ghost use Rattle.sp_reasm.specs.declared.piece.Piece.{Piece as PieceData};
ghost use Rattle.sp_reasm.specs.Pieces.{owner_of, has, past_of, size_of, AreOrdered, IsSpot, begins_below};
ghost use Rattle.sp_reasm.specs.Listed.{IsFloor};
ghost use Rattle.sp_reasm.specs.Owners.{or_else};
ghost use Rattle.sp_reasm.specs.inside.Filling.{without};

use crate::piece::{Piece, Spot};
use crate::piece_list::PieceList;
use sp_base::NoMemory;
use sp_chain::Slot;
use std::alloc::Global;
use std::collections::BTreeMap;
use std::marker::Model;

/// Pieces in order, seen as their list. A step to a piece takes a time that grows as the logarithm of their number.
#[derive(Drop)]
pub(crate) struct Pending {
    list: PieceList,
    index: BTreeMap<u64, Slot>,
}

impl Model for Pending {
    ghost use Rattle.std.specs.Prelude.{List};
    ghost use Rattle.sp_reasm.specs.declared.piece.Piece.{Piece as PieceData};
    ghost use Rattle.sp_reasm.specs.Listed.{pieces_of, IsIndexed};

    ghost Value = { List PieceData };

    ghost view = { λ p. pieces_of p.list };

    ghost invariant = { λ p. IsIndexed p.list p.index.entries };
}

impl Pending {
    /// Nothing pending. Takes no memory.
    pub(crate) fn new(alloc: Global) -> Pending
        ensures { result ≡ [] }
    {
        Pending {
            list: PieceList::new(alloc),
            index: BTreeMap::new(alloc),
        }
    }

    /// The pieces are in order. Does nothing.
    pub(crate) fn are_ordered(&self)
        ensures { AreOrdered 0 self.now }
    {
        let _list = &self.list;
    }

    /// What is pending at a number and behind it.
    pub(crate) fn spot(&self, at: u64) -> Spot<'_>
        ensures { IsSpot (owner_of self.now) at result }
    {
        let Some(slot) = floor(&self.index, at) else {
            return Spot::Free(self.list.room(self.list.first(), at));
        };
        let piece = self.list.get(slot);
        let past = at - piece.start;
        if past < piece.size() {
            return piece.from(past);
        }
        Spot::Free(self.list.room(self.list.next(slot), at))
    }

    /// Puts a piece between the others, or changes nothing.
    pub(crate) fn insert(&mut self, piece: Piece) -> Result<(), NoMemory>
        requires some { 0 < size_of piece.content }
        requires fits { past_of piece ≤ 2 ^ 62 }
        requires free { (q : ℕ) → piece.start ≤ q → q < past_of piece → owner_of self.old q ≡ None }
        ensures ok { OnOk result ((q : ℕ)
            → owner_of self.new q ≡ or_else (owner_of self.old q) (has piece q)) }
        ensures back { OnOk result (without piece.start self.new ≡ self.old) }
        ensures err { OnErr result (self.new ≡ self.old) }
    {
        let start = piece.start;
        let before = floor(&self.index, start);
        let slot = self.list.insert(before, piece)?;
        match self.index.insert(start, slot) {
            Ok(_) => Ok(()),
            Err(_) => {
                self.list.remove(slot);
                Err(NoMemory)
            }
        }
    }

    /// Takes the piece that begins at a number away.
    pub(crate) fn remove(&mut self, start: u64)
        ensures { self.new ≡ without start self.old }
    {
        if let Some(slot) = self.index.remove(&start) {
            self.list.remove(slot);
        }
    }

    /// Whether the first piece begins below a number.
    fn begins_below(&self, to: u64) -> bool
        ensures { result ≡ begins_below self.now to }
    {
        match self.index.first_key_value() {
            Some((start, _)) => *start < to,
            None => false,
        }
    }

    /// Drops the first piece.
    fn drop_first(&mut self)
        ensures { (p : PieceData) (ps : List PieceData) → self.old ≡ p ∷ ps → self.new ≡ ps }
    {
        if let Some((_, slot)) = self.index.pop_first() {
            self.list.remove(slot);
        }
    }

    /// Drops the pieces below a number that has no owner.
    pub(crate) fn drop_below(&mut self, to: u64)
        requires { owner_of self.old to ≡ None }
        ensures kept { (q : ℕ) → to ≤ q → owner_of self.new q ≡ owner_of self.old q }
        ensures dropped { (q : ℕ) → q < to → owner_of self.new q ≡ None }
    {
        while self.begins_below(to) {
            self.are_ordered();
            self.drop_first();
        }
        self.are_ordered();
    }

    /// Drops all pieces.
    pub(crate) fn clear(&mut self)
        ensures { self.new ≡ [] }
    {
        self.list.clear();
        self.index.clear();
    }
}

/// The slot of the last key up to this one.
fn floor(index: &BTreeMap<u64, Slot>, at: u64) -> Option<Slot>
    ensures { IsFloor index.now.entries at result }
{
    if index.is_empty() {
        return None;
    }
    match index.range(..=at).next_back() {
        Some((_, slot)) => Some(*slot),
        None => None,
    }
}
