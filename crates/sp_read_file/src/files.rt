// A file is read as a module.
ghost use Rattle.std.specs.Prelude.{◌≡◌, ◌≤◌, ◌<◌, ◌+◌, ◌-◌, ◌^◌, length, IfOk, IfErr, MatchResult};
ghost use Rattle.sp_lex.specs.Faults.{OnDiag, most_bytes};
ghost use Rattle.sp_read_file.specs.Files.{IsModuleOf, IsUnreadable, Reads, IsStopped};
ghost use Rattle.sp_read_file.specs.Loads.{IsRefusalOrNoMemory, IsTextUnread, UnreadCause};

use crate::unread::Unread;
use sp_ast::Module;
use sp_base::{MKind, Place, Text, place_of};
use sp_command::Refusal;
use sp_io::{Modules, ModulesFault};
use sp_lex::{ReadFault, lex};
use sp_read_unit::read_module;
use std::alloc::Global;

/// A refusal, or want of memory for its path.
pub fn refused(alloc: Global, path: &str, place: Place, kind: MKind) -> Unread
    ensures { IsRefusalOrNoMemory path.now place kind result }
{
    match Text::new(alloc, path) {
        Ok(path) => Unread::Refused(Refusal { path, place, kind }),
        Err(_) => Unread::NoMemory,
    }
}

/// The module of a text. Where it is none the fault is the first of its tokens, or else that of the module.
fn module_of(alloc: Global, text: &[u8]) -> Result<Module, ReadFault>
    ensures module { IfOk result (λ m. IsModuleOf text.now m) }
    ensures inside { IfErr result (OnDiag (λ span _. (span.from ≤ length text.now)
        × (span.from ≤ most_bytes + 1))) }
    ensures unreadable { IfErr result (OnDiag (IsUnreadable text.now)) }
{
    let tokens = lex(alloc, text)?;
    let module = read_module(alloc, &tokens)?;
    Ok(module)
}

/// The module of the text of the file at the path.
pub fn read_text(alloc: Global, path: &str, text: &[u8]) -> Result<Module, Unread>
    ensures module { IfOk result (λ m. IsModuleOf text.now m) }
    ensures unread { IfErr result (IsTextUnread path.now text.now) }
{
    match module_of(alloc, text) {
        Ok(module) => Ok(module),
        Err(ReadFault::Diag(span, kind)) => {
            Err(refused(alloc, path, place_of(text, span.from), kind))
        }
        Err(ReadFault::NoMemory) => Err(Unread::NoMemory),
    }
}

/// The module of the file at the path.
pub fn read_file<M: Modules>(alloc: Global, path: &str, modules: &mut M) -> Result<Module, Unread>
    requires { M.faults modules.old < 2 ^ 64 - 1 }
    ensures reads { IfOk result (λ m. Reads (M.files modules.old) path.now m) }
    ensures unread { IfErr result (IsStopped (M.files modules.old) path.now) }
    ensures files { M.files modules.new ≡ M.files modules.old }
    ensures cause { MatchResult result (λ _. M.faults modules.new ≡ M.faults modules.old)
        (UnreadCause (M.faults modules.old) (M.faults modules.new)) }
{
    match modules.read(path) {
        Ok(Some(text)) => read_text(alloc, path, text.as_slice()),
        Ok(None) => {
            let nowhere = Place { line: 0, col: 0 };
            Err(refused(alloc, path, nowhere, MKind::ModuleNotFound))
        }
        Err(ModulesFault::Failed) => Err(Unread::ModulesFault),
        Err(ModulesFault::NoMemory) => Err(Unread::NoMemory),
    }
}
