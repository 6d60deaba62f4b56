// Sources in memory.
ghost use Rattle.std.specs.Prelude.{◌≡◌, ◌≤◌, ◌↔◌, ◌++◌, take, Some, Err, IfOk, IfErr, OnOk, OnErr, MatchResult, Contains};
ghost use Rattle.std.specs.List.{concat};
ghost use Rattle.sp_io.specs.Causes.{SourceCause};
ghost use Rattle.sp_io.specs.Held.{IsNextCall, unused, passed, first_piece};
ghost use Rattle.sp_io.specs.Moved.{Takes};
ghost use Rattle.sp_io.specs.declared.traits.SourceFault.TheVariants as source_fault;

use crate::calls::FailingCalls;
use crate::pieces::Pieces;
use crate::traits::{Source, SourceFault, Took};
use sp_base::{ByteList, NoMemory};
use std::alloc::Global;
use std::marker::Model;

/// A source in memory. Listed calls of `take` fail; each other one gives what is left of the first piece that
/// isn't used up, at most `most` bytes. Empty pieces are passed over.
#[derive(Drop)]
pub struct MemSource {
    pieces: Pieces,
    calls: FailingCalls,
}

impl Model for MemSource {
    ghost use Rattle.sp_io.specs.Held.{SourceState};

    ghost Value = { SourceState };

    ghost view = { λ s. record { pieces = s.pieces; calls = s.calls } };
}

impl MemSource {
    /// Holds copies of these pieces. `fails` lists the calls of `take`, counted from 0, that fail.
    pub fn new(alloc: Global, pieces: &[ByteList], fails: &[u64]) -> Result<MemSource, NoMemory>
        ensures pieces { IfOk result (λ source. source.pieces ≡ pieces.now) }
        ensures calls { IfOk result (λ source. source.calls
            ≡ record { next = 0; fails = fails.now; faults = 0 }) }
    {
        let calls = FailingCalls::new(alloc, fails)?;
        Ok(MemSource {
            pieces: Pieces::new(alloc, pieces)?,
            calls,
        })
    }
}

impl Source for MemSource {
    ghost left = { λ s. Some (concat s.pieces) };

    ghost faults = { λ s. s.calls.faults };

    fn take(&mut self, most: u64, into: &mut ByteList) -> Result<Took, SourceFault>
        requires { 1 ≤ most }
        ensures takes { Takes most (Some (concat self.old.pieces)) (Some (concat self.new.pieces))
            into.old into.new result }
        ensures cause { MatchResult result (λ _. self.new.calls.faults ≡ self.old.calls.faults)
            (SourceCause self.old.calls.faults self.new.calls.faults) }

        // One piece at most, and all of it that fits.
        ensures bytes { OnOk result (into.new ≡ into.old ++ take most
            (first_piece (passed self.old.pieces))) }
        ensures pieces { OnOk result (self.new.pieces ≡ unused most (passed self.old.pieces)) }
        ensures err { OnErr result (self.new.pieces ≡ self.old.pieces) }
        ensures listed { (result ≡ Err source_fault.Failed)
            ↔ Contains self.old.calls.fails self.old.calls.next }
        ensures next { IsNextCall self.old.calls self.new.calls }
    {
        if self.calls.next_fails() {
            return Err(SourceFault::Failed);
        }
        self.pieces.take(most, into)
    }
}

/// A source in memory that never fails. A take gives what is left of the first piece that isn't used up, at most
/// `most` bytes. Empty pieces are passed over.
#[derive(Drop)]
pub struct SureSource {
    pieces: Pieces,
}

impl Model for SureSource {
    ghost use Rattle.std.specs.Prelude.{ℕ, List};

    ghost Value = { List (List ℕ) };

    ghost view = { λ s. s.pieces };
}

impl SureSource {
    /// Holds copies of these pieces.
    pub fn new(alloc: Global, pieces: &[ByteList]) -> Result<SureSource, NoMemory>
        ensures { IfOk result (λ source. source ≡ pieces.now) }
    {
        Ok(SureSource {
            pieces: Pieces::new(alloc, pieces)?,
        })
    }
}

impl Source for SureSource {
    ghost left = { λ s. Some (concat s) };

    ghost faults = { λ _. 0 };

    fn take(&mut self, most: u64, into: &mut ByteList) -> Result<Took, SourceFault>
        requires { 1 ≤ most }
        ensures takes { Takes most (Some (concat self.old)) (Some (concat self.new))
            into.old into.new result }
        ensures cause { IfErr result (λ fault. fault ≡ source_fault.NoMemory) }

        // One piece at most, and all of it that fits.
        ensures bytes { OnOk result (into.new ≡ into.old ++ take most
            (first_piece (passed self.old))) }
        ensures pieces { OnOk result (self.new ≡ unused most (passed self.old)) }
        ensures err { OnErr result (self.new ≡ self.old) }
    {
        self.pieces.take(most, into)
    }
}
