// What is read of an open group, or of the whole text.
ghost use Rattle.std.specs.Prelude.{◌≡◌, IfOk, OnOk};
ghost use Rattle.sp_regex.specs.Trees.{never, empty, either, followed};
ghost use Rattle.sp_regex.specs.Levels.{opened};

use crate::tree::Regex;
use sp_base::NoMemory;
use std::alloc::Global;
use std::marker::Model;

/// The alternatives that have ended, and the pieces so far of the one that has not.
#[derive(Drop)]
pub struct Level {
    earlier: Vec<Regex>,
    pieces: Vec<Regex>,
}

impl Model for Level {
    ghost use Rattle.sp_regex.specs.Trees.{sequence, alternatives};
    ghost use Rattle.sp_regex.specs.Levels.{Opened, opened};
    ghost use Rattle.std.specs.Coded.{codes};
    ghost use Rattle.sp_regex.specs.inside.SyntaxCodes.{coded_syntax};

    ghost Value = { Opened };

    ghost coded = { Prim.hlevel (codes, coded_syntax) };

    ghost view = { λ l. opened (alternatives l.earlier.items) (sequence l.pieces.items) };
}

impl Level {
    pub fn new(alloc: Global) -> Level
        ensures { result ≡ opened never empty }
    {
        Level {
            earlier: Vec::new(alloc),
            pieces: Vec::new(alloc),
        }
    }

    /// One piece more.
    pub fn push(&mut self, piece: Regex) -> Result<(), NoMemory>
        ensures { OnOk result (self.new
            ≡ opened self.old.earlier (followed self.old.pieces piece)) }
    {
        self.pieces.push(piece)?;
        Ok(())
    }

    /// The pieces so far are an alternative.
    pub fn end_alternative(&mut self) -> Result<(), NoMemory>
        ensures { OnOk result (self.new ≡ opened (either self.old.earlier self.old.pieces) empty) }
    {
        let none = Vec::new(*self.pieces.allocator());
        let pieces = std::mem::replace(&mut self.pieces, none);
        self.earlier.push(Regex::sequence(pieces))?;
        Ok(())
    }

    /// The pieces so far are the last alternative.
    pub fn finish(mut self) -> Result<Regex, NoMemory>
        ensures { IfOk result (λ r. r ≡ either self.earlier self.pieces) }
    {
        self.end_alternative()?;
        Ok(Regex::alternatives(self.earlier))
    }
}
