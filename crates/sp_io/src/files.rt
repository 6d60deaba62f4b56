// Modules in memory.
ghost use Rattle.std.specs.Prelude.{◌≡◌, ◌↔◌, ◌++◌, ◌∷◌, [], List, ℕ, Some, Err, IfOk, MatchResult, Contains};
ghost use Rattle.sp_io.specs.Causes.{ModulesCause};
ghost use Rattle.sp_io.specs.Held.{IsNextCall};
ghost use Rattle.sp_io.specs.Stored.{lookup};
ghost use Rattle.sp_io.specs.declared.traits.ModulesFault.TheVariants as modules_fault;

use crate::calls::FailingCalls;
use crate::traits::{Modules, ModulesFault};
use sp_base::{ByteList, NoMemory, Text};
use std::alloc::Global;
use std::marker::Model;

/// Modules in memory. Listed calls of `read` fail. Of two files of one path the first counts. The paths of answered calls are kept.
#[derive(Drop)]
pub struct MemModules {
    alloc: Global,
    files: Vec<(Text, ByteList)>,
    asked: Vec<Text>,
    calls: FailingCalls,
}

impl Model for MemModules {
    ghost use Rattle.sp_io.specs.Held.{ModulesState};

    ghost Value = { ModulesState };

    ghost view = { λ m. record {
      files = m.files.items;
      asked = m.asked.items;
      calls = m.calls;
    } };
}

impl MemModules {
    /// Holds copies of these files. `fails` lists the calls of `read`, counted from 0, that fail.
    pub fn new(
        alloc: Global,
        files: &[(Text, ByteList)],
        fails: &[u64],
    ) -> Result<MemModules, NoMemory>
        ensures files { IfOk result (λ modules. modules.files ≡ files.now) }
        ensures asked { IfOk result (λ modules. modules.asked ≡ []) }
        ensures calls { IfOk result (λ modules. modules.calls
            ≡ record { next = 0; fails = fails.now; faults = 0 }) }
    {
        let calls = FailingCalls::new(alloc, fails)?;
        Ok(MemModules {
            alloc,
            files: copies_of(alloc, files)?,
            asked: Vec::new(alloc),
            calls,
        })
    }
}

/// Equal files.
fn copies_of(alloc: Global, files: &[(Text, ByteList)]) -> Result<Vec<(Text, ByteList)>, NoMemory>
    ensures { IfOk result (λ copies. copies.items ≡ files.now) }
{
    let mut copies = Vec::new(alloc);
    for file in files {
        copies.push((file.0.copy()?, file.1.copy()?))?;
    }
    Ok(copies)
}

/// The contents of the first file of that path.
fn find(files: &[(Text, ByteList)], path: &str) -> Result<Option<ByteList>, NoMemory>
    ensures { IfOk result (λ answer. answer ≡ lookup files.now path.now) }
{
    for file in files {
        if file.0.as_str() == path {
            return Ok(Some(file.1.copy()?));
        }
    }
    Ok(None)
}

/// The answer to a path, which is noted as asked.
fn answer(
    alloc: Global,
    files: &[(Text, ByteList)],
    asked: &mut Vec<Text>,
    path: &str,
) -> Result<Option<ByteList>, NoMemory>
    ensures content { IfOk result (λ answer. answer ≡ lookup files.now path.now) }
    ensures asked { MatchResult result (λ _. asked.new.items ≡ asked.old.items ++ path.now ∷ [])
        (λ _. asked.new.items ≡ asked.old.items) }
{
    let found = find(files, path)?;
    asked.push(Text::new(alloc, path)?)?;
    Ok(found)
}

impl Modules for MemModules {
    ghost files = { λ m. Some (lookup m.files) };

    ghost asked = { λ m. Some m.asked };

    ghost faults = { λ m. m.calls.faults };

    fn read(&mut self, path: &str) -> Result<Option<ByteList>, ModulesFault>
        ensures content { IfOk result (λ answer. answer ≡ lookup self.old.files path.now) }
        ensures files { self.new.files ≡ self.old.files }
        ensures asked { MatchResult result (λ _. self.new.asked ≡ self.old.asked ++ path.now ∷ [])
            (λ _. self.new.asked ≡ self.old.asked) }
        ensures cause { MatchResult result (λ _. self.new.calls.faults ≡ self.old.calls.faults)
            (ModulesCause self.old.calls.faults self.new.calls.faults) }
        ensures listed { (result ≡ Err modules_fault.Failed)
            ↔ Contains self.old.calls.fails self.old.calls.next }
        ensures next { IsNextCall self.old.calls self.new.calls }
    {
        if self.calls.next_fails() {
            return Err(ModulesFault::Failed);
        }
        match answer(self.alloc, self.files.as_slice(), &mut self.asked, path) {
            Ok(answer) => Ok(answer),
            Err(NoMemory) => Err(ModulesFault::NoMemory),
        }
    }
}

/// Modules in memory that never fail. Of two files of one path the first counts. The paths of answered calls are kept.
#[derive(Drop)]
pub struct SureModules {
    alloc: Global,
    files: Vec<(Text, ByteList)>,
    asked: Vec<Text>,
}

impl Model for SureModules {
    ghost use Rattle.sp_io.specs.Held.{SureState};

    ghost Value = { SureState };

    ghost view = { λ m. record { files = m.files.items; asked = m.asked.items } };
}

impl SureModules {
    /// Holds copies of these files.
    pub fn new(alloc: Global, files: &[(Text, ByteList)]) -> Result<SureModules, NoMemory>
        ensures { IfOk result (λ modules. modules ≡ record { files = files.now; asked = [] }) }
    {
        Ok(SureModules {
            alloc,
            files: copies_of(alloc, files)?,
            asked: Vec::new(alloc),
        })
    }
}

impl Modules for SureModules {
    ghost files = { λ m. Some (lookup m.files) };

    ghost asked = { λ m. Some m.asked };

    ghost faults = { λ _. 0 };

    fn read(&mut self, path: &str) -> Result<Option<ByteList>, ModulesFault> {
        match answer(self.alloc, self.files.as_slice(), &mut self.asked, path) {
            Ok(answer) => Ok(answer),
            Err(NoMemory) => Err(ModulesFault::NoMemory),
        }
    }
}
