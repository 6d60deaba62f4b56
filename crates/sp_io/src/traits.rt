// What a program asks of its outside, and the call that puts a whole piece.
// Each object counts its faults. The count never falls, and `Failed` comes only where it rose or stands at its end.
ghost use Rattle.std.specs.Prelude.{◌≡◌, ◌≢◌, ◌≤◌, ◌<◌, ◌-◌, ◌^◌, ◌↔◌, ℕ, List, [], ◌∷◌, Option, Some, None, Result, Ok, Err, length, take, IfOk, IfErr, OnOk, OnErr, MatchResult};
ghost use Rattle.sp_io.specs.Asked.{also_asked};
ghost use Rattle.sp_io.specs.Causes.{OutCause, SourceCause, ModulesCause};
ghost use Rattle.sp_io.specs.Moved.{appended, Takes};
ghost use Rattle.sp_io.specs.declared.traits.OutFault.TheVariants as out_fault;

use sp_base::ByteList;
use thiserror::Error;

/// Why a module could not be read.
#[derive(Clone, Copy, Debug, PartialEq, Eq, Error)]
pub enum ModulesFault {
    #[error("the module could not be read")]
    Failed,
    #[error("out of memory")]
    NoMemory,
}

/// Why nothing could be taken.
#[derive(Clone, Copy, Debug, PartialEq, Eq, Error)]
pub enum SourceFault {
    #[error("the input could not be read")]
    Failed,
    #[error("out of memory")]
    NoMemory,
}

/// Why nothing could be put.
#[derive(Clone, Copy, Debug, PartialEq, Eq, Error)]
pub enum OutFault {
    #[error("the output could not be written")]
    Failed,
    #[error("out of memory")]
    NoMemory,
}

/// Whether a take gave bytes, or found the end.
#[derive(Clone, Copy, PartialEq, Eq)]
pub enum Took {
    Some,
    End,
}

/// Where the texts of modules come from.
pub trait Modules {
    /// The map from paths to contents, where it tells one.
    ghost files: { Self → Option (List ℕ → Option (List ℕ)) };

    /// The paths of the calls of `read` that were answered, in order, where it tells them.
    ghost asked: { Self → Option (List (List ℕ)) };

    /// How often it failed.
    ghost faults: { Self → ℕ };

    /// The contents of the file at this path, or `None` where there is no such file.
    /// Of a file longer than 1,048,577 bytes an adapter gives the first 1,048,577 bytes.
    fn read(&mut self, path: &str) -> Result<Option<ByteList>, ModulesFault>
        ensures content { (map : List ℕ → Option (List ℕ)) → files self.old ≡ Some map
            → IfOk result (λ answer. answer ≡ map path.now) }
        ensures files { files self.new ≡ files self.old }
        ensures asked { MatchResult result (λ _. asked self.new
            ≡ also_asked (asked self.old) (path.now ∷ []))
            (λ _. asked self.new ≡ asked self.old) }
        ensures cause { MatchResult result (λ _. faults self.new ≡ faults self.old)
            (ModulesCause (faults self.old) (faults self.new)) };
}

/// Where the bytes of an input come from.
pub trait Source {
    /// The bytes that are left, where it tells them.
    ghost left: { Self → Option (List ℕ) };

    /// How often it failed.
    ghost faults: { Self → ℕ };

    /// Appends 1 to `most` bytes to `into`, or answers `End` and appends none. A refusal takes nothing.
    fn take(&mut self, most: u64, into: &mut ByteList) -> Result<Took, SourceFault>
        requires { 1 ≤ most }
        ensures takes { Takes most (left self.old) (left self.new) into.old into.new result }
        ensures cause { MatchResult result (λ _. faults self.new ≡ faults self.old)
            (SourceCause (faults self.old) (faults self.new)) };
}

/// Where bytes are written to.
pub trait Out {
    /// All bytes that it took, where it tells them.
    ghost held: { Self → Option (List ℕ) };

    /// How often it failed.
    ghost faults: { Self → ℕ };

    /// Appends a front of the piece and answers its length, at least 1. A refusal appends nothing.
    fn put(&mut self, piece: &[u8]) -> Result<u64, OutFault>
        requires { piece.now ≢ [] }
        ensures count { IfOk result (λ n. (1 ≤ n) × (n ≤ length piece.now)) }
        ensures held { IfOk result (λ n. held self.new ≡ appended (held self.old)
            (take n piece.now)) }
        ensures err { OnErr result (held self.new ≡ held self.old) }
        ensures cause { MatchResult result (λ _. faults self.new ≡ faults self.old)
            (OutCause (faults self.old) (faults self.new)) };
}

/// Puts all bytes of the piece, in as many puts as that takes. After a refusal a front of the piece was put.
#[tactic(auto, using(crate::proofs::Moves::put_step))]
pub fn put_all<O: Out>(out: &mut O, piece: &[u8]) -> Result<(), OutFault>
    requires { O.faults out.old < 2 ^ 64 - 1 }
    ensures held { OnOk result (O.held out.new ≡ appended (O.held out.old) piece.now) }
    ensures part { OnErr result ((n : ℕ) × (n ≤ length piece.now)
        × (O.held out.new ≡ appended (O.held out.old) (take n piece.now))) }
    ensures cause { MatchResult result (λ _. O.faults out.new ≡ O.faults out.old)
        (OutCause (O.faults out.old) (O.faults out.new)) }
    ensures failed { (result ≡ Err out_fault.Failed) ↔ (O.faults out.old < O.faults out.new) }
{
    let mut at: usize = 0;
    while at < piece.len() {
        let taken = out.put(&piece[at..])?;
        at += taken as usize;
    }
    Ok(())
}
