// The named files, and what a text is as a file.
ghost use Rattle.std.specs.Prelude.{◌≡◌, ◌≤◌, ◌<◌, ◌+◌, ◌-◌, ◌^◌, ◌++◌, ◌∷◌, [], length, take, List, None, Some, IfOk, IfErr, OnOk, MatchResult};
ghost use Rattle.sp_io.specs.Asked.{also_asked};
ghost use Rattle.sp_command.specs.Files.{Holds};
ghost use Rattle.sp_names.specs.Faults.{is_reserved};
ghost use Rattle.sp_read_file.specs.Loads.{UnreadCause};
ghost use Rattle.sp_read_file.specs.Files.{refused_at};
ghost use Rattle.sp_front.specs.declared.entries.Entry.{Entry};
ghost use Rattle.sp_front.specs.declared.entries.Entry.TheVariants as entry_is;
ghost use Rattle.sp_front.specs.Lists.{Files, at, is_taken, most_modules, name_place, nowhere, IsNamed, AreNamedFiles};
ghost use Rattle.sp_front.specs.inside.Asking.{IsPart};
ghost use Rattle.sp_front.specs.inside.Files.{IsFileOf, IsNoRefusal, named_module};
ghost use Rattle.sp_front.specs.inside.Seen.{AreSeen};

use crate::entries::{Entry, ModuleFile};
use crate::paths::read;
use crate::places::place_in;
use crate::seen::Seen;
use sp_ast::Module;
use sp_base::{ByteList, MKind, NoMemory, Place, Text};
use sp_command::Refusal;
use sp_io::Modules;
use sp_names::{is_reserved, name_of};
use sp_read_file::{Unread, read_text};
use std::alloc::Global;

/// A list has at most so many modules.
pub(crate) const MOST_MODULES: usize = 256;

/// A refusal at a place in the text of a file.
pub(crate) fn refusal_at(file: &ModuleFile, from: u32, kind: MKind) -> Result<Refusal, NoMemory>
    ensures { IfOk result (λ r. r ≡ at file.now from kind) }
{
    let place = place_in(file.text.as_slice(), from)?;
    let path = file.path.copy()?;
    Ok(Refusal { path, place, kind })
}

/// What a text is, as the file at a path.
pub(crate) fn file_of(
    alloc: Global,
    path: Text,
    text: ByteList,
) -> Result<Result<ModuleFile, Refusal>, NoMemory>
    ensures { IfOk result (IsFileOf path text) }
{
    match read_text(alloc, path.as_str(), text.as_slice()) {
        Ok(module) => Ok(Ok(ModuleFile { path, text, module })),
        Err(Unread::Refused(refusal)) => Ok(Err(refusal)),
        Err(_) => Err(NoMemory),
    }
}

/// Whether the module of a named file has a name of the library or of an entry before it.
fn is_taken(file: &ModuleFile, seen: &Seen) -> bool
    ensures { (before : List Entry) → AreSeen seen.now before → result ≡ is_taken before file.now }
{
    let name = name_of(&file.module);
    is_reserved(name) || seen.has(name)
}

/// The place of the name of a module.
fn name_place(whole: &Module) -> u32
    ensures { result ≡ name_place whole.now }
{
    whole.root().view().name.span().from
}

/// A named file that holds a module, which may have the name of one before it.
fn named_module(alloc: Global, file: ModuleFile, seen: &mut Seen) -> Result<Entry, NoMemory>
    ensures entry { IfOk result (λ e. (before : List Entry) → AreSeen seen.old before
        → e ≡ named_module before file) }
    ensures seen { IfOk result (λ e. (before : List Entry) → AreSeen seen.old before
        → AreSeen seen.new (before ++ e ∷ [])) }
{
    if is_taken(&file, seen) {
        let refusal = refusal_at(&file, name_place(&file.module), MKind::ModuleTwice)?;
        return Ok(Entry::Refused(None, refusal));
    }
    seen.note(alloc, name_of(&file.module))?;
    Ok(Entry::Held(file))
}

/// The refusal of a file that has no text.
fn without_text(path: &Text, kind: MKind) -> Result<Entry, NoMemory>
    ensures { IfOk result (λ e. e ≡ entry_is.Refused None (refused_at path.now nowhere kind)) }
{
    let path = path.copy()?;
    let place = Place { line: 0, col: 0 };
    Ok(Entry::Refused(None, Refusal { path, place, kind }))
}

pub(crate) fn push_entry(entries: &mut Vec<Entry>, entry: Entry) -> Result<(), NoMemory>
    ensures { OnOk result (entries.new.items ≡ entries.old.items ++ entry ∷ []) }
{
    entries.push(entry)?;
    Ok(())
}

/// What a named file with this text is, behind those before it.
fn entry_of(alloc: Global, path: &Text, text: ByteList, seen: &mut Seen) -> Result<Entry, NoMemory>
    ensures { IfOk result (λ e. (files : Files) (before : List Entry)
        → Holds files path.now (Some text) → AreSeen seen.old before
        → IsNamed files before path.now e × AreSeen seen.new (before ++ e ∷ [])) }
{
    match file_of(alloc, path.copy()?, text)? {
        Ok(file) => Ok(named_module(alloc, file, seen)?),
        Err(refusal) => Ok(Entry::Refused(None, refusal)),
    }
}

/// What a named file is, behind those before it.
fn read_one<M: Modules>(
    alloc: Global,
    modules: &mut M,
    path: &Text,
    seen: &mut Seen,
) -> Result<Entry, Unread>
    requires { M.faults modules.old < 2 ^ 64 - 1 }
    ensures named { IfOk result (λ e. (before : List Entry) → AreSeen seen.old before
        → IsNamed (M.files modules.old) before path.now e × AreSeen seen.new (before ++ e ∷ [])) }
    ensures unread { IfErr result IsNoRefusal }
    ensures asks { IfOk result (λ _. M.asked modules.new
        ≡ also_asked (M.asked modules.old) (path.now ∷ [])) }
    ensures asks_part { IfErr result (λ _. IsPart (M.asked modules.old) (M.asked modules.new)
        (path.now ∷ [])) }
    ensures files { M.files modules.new ≡ M.files modules.old }
    ensures cause { MatchResult result (λ _. M.faults modules.new ≡ M.faults modules.old)
        (UnreadCause (M.faults modules.old) (M.faults modules.new)) }
{
    match read(modules, path.as_str())? {
        Some(text) => Ok(entry_of(alloc, path, text, seen)?),
        None => Ok(without_text(path, MKind::ModuleNotFound)?),
    }
}

/// The first entries of a list: what the named files are.
pub(crate) fn read_named<M: Modules>(
    alloc: Global,
    modules: &mut M,
    names: &[Text],
    seen: &mut Seen,
) -> Result<Vec<Entry>, Unread>
    requires faults { M.faults modules.old < 2 ^ 64 - 1 }
    requires nothing { AreSeen seen.old [] }
    ensures named { IfOk result (λ es. AreNamedFiles (M.files modules.old) names.now es.items) }
    ensures most { IfOk result (λ es. length es.items ≤ most_modules + 1) }
    ensures seen { IfOk result (λ es. AreSeen seen.new es.items) }
    ensures unread { IfErr result IsNoRefusal }
    ensures asks { IfOk result (λ _. M.asked modules.new
        ≡ also_asked (M.asked modules.old) (take most_modules names.now)) }
    ensures asks_part { IfErr result (λ _. IsPart (M.asked modules.old) (M.asked modules.new)
        (take most_modules names.now)) }
    ensures files { M.files modules.new ≡ M.files modules.old }
    ensures cause { MatchResult result (λ _. M.faults modules.new ≡ M.faults modules.old)
        (UnreadCause (M.faults modules.old) (M.faults modules.new)) }
{
    let mut entries = Vec::new(alloc);
    for path in names {
        if entries.len() == MOST_MODULES {
            push_entry(&mut entries, without_text(path, MKind::TooMany)?)?;
            return Ok(entries);
        }
        let entry = read_one(alloc, modules, path, seen)?;
        push_entry(&mut entries, entry)?;
    }
    Ok(entries)
}
