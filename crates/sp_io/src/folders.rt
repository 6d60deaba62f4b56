// Modules in the real folders. They tell no content and no path that was asked; each error raises the count of faults.
ghost use Rattle.std.specs.Prelude.{◌≡◌, None, take, IfOk, IfSome};
ghost use Rattle.std.specs.IoError.{error_kind};
ghost use Rattle.sp_io.specs.inside.Opening.{unopened, unread};

use crate::traits::{Modules, ModulesFault};
use sp_base::{ByteList, NoMemory};
use std::alloc::Global;
use std::fs::File;
use std::io;
use std::io::{ErrorKind, Read};
use std::marker::Model;
use std::rt::Files;

/// How many bytes of a module are read at most: one more than a module may have.
const LONGEST: u64 = 1_048_577;

/// Modules in the real folders.
#[derive(Drop)]
pub struct DirModules<'r, R> {
    rt: &'r R,
    alloc: Global,
    faults: u64,
}

impl<'r, R> Model for DirModules<'r, R> {
    ghost use Rattle.sp_io.specs.Held.{FolderState};

    ghost Value = { FolderState };

    ghost view = { λ m. record { faults = m.faults } };
}

impl<'r, R> DirModules<'r, R> {
    /// Reads files by their paths through this runtime.
    pub fn new(alloc: Global, rt: &'r R) -> DirModules<'r, R>
        ensures { result.faults ≡ 0 }
    {
        DirModules {
            rt,
            alloc,
            faults: 0,
        }
    }
}

impl<'r, R: Files> Modules for DirModules<'r, R> {
    ghost files = { λ _. None };

    ghost asked = { λ _. None };

    ghost faults = { λ m. m.faults };

    fn read(&mut self, path: &str) -> Result<Option<ByteList>, ModulesFault> {
        match front_of_file(self.alloc, self.rt, path) {
            Err(ModulesFault::Failed) => {
                self.faults = self.faults.saturating_add(1);
                Err(ModulesFault::Failed)
            }
            answer => answer,
        }
    }
}

/// The first `LONGEST` bytes of this file, or `None` where there is no such file.
fn front_of_file<R: Files>(
    alloc: Global,
    rt: &R,
    path: &str,
) -> Result<Option<ByteList>, ModulesFault> {
    match File::open(rt, path) {
        Ok(file) => Ok(Some(front_of(alloc, file)?)),
        Err(error) => unopened(&error),
    }
}

/// The first `LONGEST` bytes that the reader has left, or all where it has no more.
fn front_of<R: Read + Drop>(alloc: Global, reader: R) -> Result<ByteList, ModulesFault>
    ensures { IfOk result (λ front. IfSome (R.remaining reader) (λ left.
        front ≡ take 1048577 left)) }
{
    let mut bytes = Vec::new(alloc);
    let mut front = reader.take(LONGEST);
    if let Err(error) = front.read_to_end(&mut bytes) {
        return Err(unread(&error));
    }
    match ByteList::from_slice(alloc, bytes.as_slice()) {
        Ok(front) => Ok(front),
        Err(NoMemory) => Err(ModulesFault::NoMemory),
    }
}

/// What is answered where a file could not be opened: that there is none at this path, or a fault.
fn unopened(error: &io::Error) -> Result<Option<ByteList>, ModulesFault>
    ensures { result ≡ unopened (error_kind error.now) }
{
    match error.kind() {
        ErrorKind::NotFound | ErrorKind::NotADirectory | ErrorKind::InvalidFilename => Ok(None),
        _ => Err(unread(error)),
    }
}

/// Why a file could not be read.
fn unread(error: &io::Error) -> ModulesFault
    ensures { result ≡ unread (error_kind error.now) }
{
    match error.kind() {
        ErrorKind::OutOfMemory => ModulesFault::NoMemory,
        _ => ModulesFault::Failed,
    }
}
