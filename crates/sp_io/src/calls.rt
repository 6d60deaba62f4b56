// The calls of an object in memory, of which listed ones fail.
ghost use Rattle.std.specs.Prelude.{◌≡◌, ◌↔◌, IfOk, IsTrue, Contains};
ghost use Rattle.std.specs.Bool.{OnTrue, OnFalse};
ghost use Rattle.sp_io.specs.Causes.{Rose};
ghost use Rattle.sp_io.specs.Held.{IsNextCall};

use sp_base::NoMemory;
use std::alloc::Global;
use std::marker::Model;

/// The calls of an object in memory, counted from 0, of which the listed ones fail.
#[derive(Drop)]
pub struct FailingCalls {
    next: u64,
    fails: Vec<u64>,
    faults: u64,
}

impl Model for FailingCalls {
    ghost use Rattle.sp_io.specs.Held.{Calls};

    ghost Value = { Calls };

    ghost view = { λ calls. record {
      next = calls.next;
      fails = calls.fails.items;
      faults = calls.faults;
    } };
}

impl FailingCalls {
    /// No call yet. `fails` lists the numbers of those that will fail.
    pub fn new(alloc: Global, fails: &[u64]) -> Result<FailingCalls, NoMemory>
        ensures { IfOk result (λ calls. calls
            ≡ record { next = 0; fails = fails.now; faults = 0 }) }
    {
        Ok(FailingCalls {
            next: 0,
            fails: Vec::from_slice(alloc, fails)?,
            faults: 0,
        })
    }

    /// Begins a call, and answers whether it fails. Then the count of faults rises, unless it stands at its end.
    pub fn next_fails(&mut self) -> bool
        ensures listed { IsTrue result ↔ Contains self.old.fails self.old.next }
        ensures next { IsNextCall self.old self.new }
        ensures counted { OnTrue result (Rose self.old.faults self.new.faults) }
        ensures uncounted { OnFalse result (self.new.faults ≡ self.old.faults) }
    {
        let call = self.next;
        self.next = call.saturating_add(1);
        let fails = self.fails.contains(&call);
        if fails {
            self.faults = self.faults.saturating_add(1);
        }
        fails
    }
}
