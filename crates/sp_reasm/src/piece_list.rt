// Pieces in a list of an arena, which is made when the first piece comes.
ghost use Rattle.std.specs.Prelude.{◌≡◌, ℕ, List, [], ◌∷◌, ◌++◌, Some, None, IfOk, IfSome, OnErr};
ghost use Rattle.sp_chain.specs.Chains.{first_slot, IsLive};
ghost use Rattle.sp_reasm.specs.declared.piece.Piece.{Piece as PieceData};
ghost use Rattle.sp_reasm.specs.Listed.{IsSlotIn, StandsIn, items_of, IsThere, room_to};

use crate::piece::Piece;
use sp_base::NoMemory;
use sp_chain::{Chains, ListId, Slot};
use std::alloc::Global;
use std::marker::Model;

/// Pieces in order, each with its slot.
#[derive(Drop)]
pub(crate) struct PieceList {
    chains: Chains<Piece>,
    list: Option<ListId>,
}

impl Model for PieceList {
    ghost use Rattle.std.specs.Prelude.{ℕ, List};
    ghost use Rattle.sp_reasm.specs.declared.piece.Piece.{Piece as PieceData};
    ghost use Rattle.sp_reasm.specs.Listed.{items_of, IsThere};

    ghost Value = { List (ℕ × PieceData) };

    ghost view = { λ p. items_of p.chains p.list };

    ghost invariant = { λ p. IsThere p.chains p.list };
}

impl PieceList {
    /// No pieces. Takes no memory.
    pub(crate) fn new(alloc: Global) -> PieceList
        ensures { result ≡ [] }
    {
        PieceList {
            chains: Chains::new(alloc),
            list: None,
        }
    }

    /// Puts a piece at the front.
    fn push_front(&mut self, piece: Piece) -> Result<Slot, NoMemory>
        ensures ok { IfOk result (λ t. self.new ≡ (t, piece) ∷ self.old) }
        ensures err { OnErr result (self.new ≡ self.old) }
    {
        let list = made(&mut self.chains, self.list)?;
        self.list = Some(list);
        match self.chains.push_front(list, piece) {
            Ok(slot) => Ok(slot),
            Err(_) => Err(NoMemory),
        }
    }

    /// Puts a piece behind the one of a slot.
    fn insert_after(&mut self, slot: Slot, piece: Piece) -> Result<Slot, NoMemory>
        requires { IsSlotIn self.old slot }
        ensures ok { (d e : List (ℕ × PieceData)) (x : PieceData) → StandsIn self.old d slot x e
            → IfOk result (λ t. self.new ≡ d ++ (slot, x) ∷ (t, piece) ∷ e) }
        ensures err { OnErr result (self.new ≡ self.old) }
    {
        let Some(list) = self.list else {
            unreachable!();
        };
        match self.chains.insert_after(list, slot, piece) {
            Ok(slot) => Ok(slot),
            Err(_) => Err(NoMemory),
        }
    }

    /// Puts a piece behind the one of a slot, or at the front.
    pub(crate) fn insert(&mut self, before: Option<Slot>, piece: Piece) -> Result<Slot, NoMemory>
        requires { IfSome before (λ s. IsSlotIn self.old s) }
        ensures front { before ≡ None → IfOk result (λ t. self.new ≡ (t, piece) ∷ self.old) }
        ensures behind { (d e : List (ℕ × PieceData)) (s : ℕ) (x : PieceData) → before ≡ Some s
            → StandsIn self.old d s x e
            → IfOk result (λ t. self.new ≡ d ++ (s, x) ∷ (t, piece) ∷ e) }
        ensures err { OnErr result (self.new ≡ self.old) }
    {
        match before {
            Some(slot) => self.insert_after(slot, piece),
            None => self.push_front(piece),
        }
    }

    /// Takes the piece of a slot away.
    pub(crate) fn remove(&mut self, slot: Slot)
        requires { IsSlotIn self.old slot }
        ensures { (d e : List (ℕ × PieceData)) (x : PieceData) → StandsIn self.old d slot x e
            → self.new ≡ d ++ e }
    {
        if let Some(list) = self.list {
            self.chains.unlink(list, slot);
        }
    }

    /// Takes all pieces away.
    pub(crate) fn clear(&mut self)
        ensures { self.new ≡ [] }
    {
        if let Some(list) = self.list {
            self.chains.drop_list(list);
            self.list = None;
        }
    }

    /// The slot of the first piece.
    pub(crate) fn first(&self) -> Option<Slot>
        ensures { result ≡ first_slot self.now }
    {
        match self.list {
            Some(list) => self.chains.first(list),
            None => None,
        }
    }

    /// The slot of the piece behind that of a slot.
    pub(crate) fn next(&self, slot: Slot) -> Option<Slot>
        requires { IsSlotIn self.now slot }
        ensures { (d e : List (ℕ × PieceData)) (x : PieceData) → StandsIn self.now d slot x e
            → result ≡ first_slot e }
    {
        match self.list {
            Some(list) => self.chains.next(list, slot),
            None => None,
        }
    }

    /// The piece of a slot.
    pub(crate) fn get(&self, slot: Slot) -> &Piece
        requires { IsSlotIn self.now slot }
        ensures { (d e : List (ℕ × PieceData)) (x : PieceData) → StandsIn self.now d slot x e
            → result.now ≡ x }
    {
        match self.list {
            Some(list) => self.chains.get(list, slot),
            None => unreachable!(),
        }
    }

    /// How far it is from a number to the piece of a slot, or to the greatest number.
    pub(crate) fn room(&self, slot: Option<Slot>, at: u64) -> u64
        requires { IfSome slot (λ s. IsSlotIn self.now s) }
        ensures { (d e : List (ℕ × PieceData)) → self.now ≡ d ++ e → slot ≡ first_slot e
            → result ≡ room_to e at }
    {
        match slot {
            Some(slot) => self.get(slot).start.saturating_sub(at),
            None => u64::MAX - at,
        }
    }
}

/// The list, which is made if there is none.
fn made(chains: &mut Chains<Piece>, list: Option<ListId>) -> Result<ListId, NoMemory>
    requires { IsThere chains.old list }
    ensures live { IfOk result (λ l. IsLive chains.new l) }
    ensures same { IfOk result (λ l. items_of chains.new (Some l) ≡ items_of chains.old list) }
    ensures err { OnErr result (chains.new.lists ≡ chains.old.lists) }
{
    match list {
        Some(list) => Ok(list),
        None => chains.new_list(),
    }
}
