// Pieces of bytes in memory that are taken from the front.
ghost use Rattle.std.specs.Prelude.{◌≡◌, ◌≤◌, ◌<◌, ◌↔◌, [], ◌++◌, length, drop, take, Ok, IfOk, IfErr, OnOk, OnErr};
ghost use Rattle.sp_io.specs.Held.{unused, passed, first_piece, IsUsedWithin};
ghost use Rattle.sp_io.specs.declared.traits.Took.TheVariants as took;
ghost use Rattle.sp_io.specs.declared.traits.SourceFault.TheVariants as source_fault;

use crate::traits::{SourceFault, Took};
use sp_base::{ByteList, NoMemory};
use std::alloc::Global;
use std::marker::Model;

/// Pieces of bytes, the first of them used up to a place, seen as what is left of them.
#[derive(Drop)]
pub struct Pieces {
    pieces: Vec<ByteList>,
    // The piece that is being used, and how many of its bytes were taken.
    index: usize,
    used: usize,
}

impl Model for Pieces {
    ghost use Rattle.std.specs.Prelude.{ℕ, List, drop};
    ghost use Rattle.sp_io.specs.Held.{unused, IsUsedWithin};

    ghost Value = { List (List ℕ) };

    ghost view = { λ p. unused p.used (drop p.index p.pieces.items) };

    ghost invariant = { λ p. IsUsedWithin p.used (drop p.index p.pieces.items) };
}

impl Pieces {
    /// Copies of these pieces, of which nothing is used.
    pub fn new(alloc: Global, pieces: &[ByteList]) -> Result<Pieces, NoMemory>
        ensures { IfOk result (λ held. held ≡ pieces.now) }
    {
        let mut copies = Vec::new(alloc);
        for piece in pieces {
            copies.push(piece.copy()?)?;
        }
        Ok(Pieces {
            pieces: copies,
            index: 0,
            used: 0,
        })
    }

    /// Appends what is left of the first piece that isn't used up, at most `most` bytes, or answers `End` where all
    /// are used up.
    pub fn take(&mut self, most: u64, into: &mut ByteList) -> Result<Took, SourceFault>
        requires { 1 ≤ most }
        ensures bytes { OnOk result (into.new ≡ into.old ++ take most
            (first_piece (passed self.old))) }
        ensures pieces { OnOk result (self.new ≡ unused most (passed self.old)) }
        ensures end { (result ≡ Ok took.End) ↔ (passed self.old ≡ []) }
        ensures err { OnErr result ((self.new ≡ self.old) × (into.new ≡ into.old)) }
        ensures cause { IfErr result (λ fault. fault ≡ source_fault.NoMemory) }
    {
        let (index, used) = first_unused(self.pieces.as_slice(), self.index, self.used);
        let Some(piece) = self.pieces.get(index) else {
            self.index = index;
            self.used = used;
            return Ok(Took::End);
        };
        let rest = &piece.as_slice()[used..];
        let count = (most as usize).min(rest.len());
        into.append(&rest[..count])
            .map_err(|_| SourceFault::NoMemory)?;
        self.index = index;
        self.used = used + count;
        Ok(Took::Some)
    }
}

/// The first piece from `index` on that isn't used up, and how much of it is used; `used` tells that of the first.
fn first_unused(pieces: &[ByteList], index: usize, used: usize) -> (usize, usize)
    requires { IsUsedWithin used (drop index pieces.now) }
    ensures same { unused result.1 (drop result.0 pieces.now) ≡ passed
        (unused used (drop index pieces.now)) }
    ensures within { IsUsedWithin result.1 (drop result.0 pieces.now) }
{
    let (mut at, mut taken) = (index, used);
    while at < pieces.len() && taken == pieces[at].len() {
        at += 1;
        taken = 0;
    }
    (at, taken)
}
