// Outputs in memory.
ghost use Rattle.std.specs.Prelude.{◌≡◌, ◌↔◌, [], ◌++◌, Some, Err, length, IfOk, IfErr, OnOk, OnErr, MatchResult, Contains};
ghost use Rattle.sp_io.specs.Causes.{OutCause};
ghost use Rattle.sp_io.specs.Held.{IsNextCall};
ghost use Rattle.sp_io.specs.declared.traits.OutFault.TheVariants as out_fault;

use crate::calls::FailingCalls;
use crate::traits::{Out, OutFault};
use sp_base::{ByteList, NoMemory};
use std::alloc::Global;
use std::marker::Model;

/// An output in memory. Listed calls of `put` fail; each other one takes the whole piece.
#[derive(Drop)]
pub struct MemOut {
    bytes: ByteList,
    calls: FailingCalls,
}

impl Model for MemOut {
    ghost use Rattle.sp_io.specs.Held.{OutState};

    ghost Value = { OutState };

    ghost view = { λ out. record { held = out.bytes; calls = out.calls } };
}

impl MemOut {
    /// Holds nothing yet. `fails` lists the calls of `put`, counted from 0, that fail.
    pub fn new(alloc: Global, fails: &[u64]) -> Result<MemOut, NoMemory>
        ensures held { IfOk result (λ out. out.held ≡ []) }
        ensures calls { IfOk result (λ out. out.calls
            ≡ record { next = 0; fails = fails.now; faults = 0 }) }
    {
        let calls = FailingCalls::new(alloc, fails)?;
        Ok(MemOut {
            bytes: ByteList::new(alloc),
            calls,
        })
    }

    /// All bytes that it took. Takes no memory.
    pub fn written(&self) -> &[u8]
        ensures { result.now ≡ self.now.held }
    {
        self.bytes.as_slice()
    }
}

impl Out for MemOut {
    ghost held = { λ out. Some out.held };

    ghost faults = { λ out. out.calls.faults };

    fn put(&mut self, piece: &[u8]) -> Result<u64, OutFault>
        ensures whole { IfOk result (λ n. n ≡ length piece.now) }
        ensures held { OnOk result (self.new.held ≡ self.old.held ++ piece.now) }
        ensures err { OnErr result (self.new.held ≡ self.old.held) }
        ensures cause { MatchResult result (λ _. self.new.calls.faults ≡ self.old.calls.faults)
            (OutCause self.old.calls.faults self.new.calls.faults) }
        ensures listed { (result ≡ Err out_fault.Failed)
            ↔ Contains self.old.calls.fails self.old.calls.next }
        ensures next { IsNextCall self.old.calls self.new.calls }
    {
        if self.calls.next_fails() {
            return Err(OutFault::Failed);
        }
        match self.bytes.append(piece) {
            Ok(()) => Ok(piece.len() as u64),
            Err(NoMemory) => Err(OutFault::NoMemory),
        }
    }
}

/// An output in memory that never fails.
#[derive(Drop)]
pub struct SureOut {
    bytes: ByteList,
}

impl Model for SureOut {
    ghost use Rattle.std.specs.Prelude.{ℕ, List};

    ghost Value = { List ℕ };

    ghost view = { λ out. out.bytes };
}

impl SureOut {
    /// Holds nothing yet.
    pub fn new(alloc: Global) -> Result<SureOut, NoMemory>
        ensures { IfOk result (λ out. out ≡ []) }
    {
        Ok(SureOut {
            bytes: ByteList::new(alloc),
        })
    }

    /// All bytes that it took. Takes no memory.
    pub fn written(&self) -> &[u8]
        ensures { result.now ≡ self.now }
    {
        self.bytes.as_slice()
    }
}

impl Out for SureOut {
    ghost held = { λ out. Some out };

    ghost faults = { λ _. 0 };

    fn put(&mut self, piece: &[u8]) -> Result<u64, OutFault>
        ensures whole { IfOk result (λ n. n ≡ length piece.now) }
        ensures held { OnOk result (self.new ≡ self.old ++ piece.now) }
        ensures err { OnErr result (self.new ≡ self.old) }
        ensures cause { IfErr result (λ fault. fault ≡ out_fault.NoMemory) }
    {
        match self.bytes.append(piece) {
            Ok(()) => Ok(piece.len() as u64),
            Err(NoMemory) => Err(OutFault::NoMemory),
        }
    }
}
