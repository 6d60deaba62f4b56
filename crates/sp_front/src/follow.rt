// Imports are followed: the file of each whose module is missing is the next entry.
ghost use Rattle.std.specs.Prelude.{◌≡◌, ◌≤◌, ◌<◌, ◌-◌, ◌^◌, ◌+◌, ◌++◌, ◌∷◌, [], length, Some, List, IfOk, IfErr, OnOk, MatchResult, slice_get};
ghost use Rattle.sp_read_file.specs.Loads.{UnreadCause};
ghost use Rattle.sp_front.specs.declared.entries.Entry.{Entry as Data};
ghost use Rattle.sp_front.specs.declared.entries.Entry.TheVariants as entry_is;
ghost use Rattle.sp_front.specs.declared.entries.ModuleFile.{ModuleFile as File};
ghost use Rattle.sp_front.specs.Asked.{asked_for, asked_behind};
ghost use Rattle.sp_front.specs.Lists.{at, most_modules, is_missing, stop, clear, refused, IsImported, IsAskedInVain};
ghost use Rattle.sp_front.specs.inside.Asking.{Asked, AskedPart, FollowedAsking, StuckAsking, StoppedAsking};
ghost use Rattle.sp_front.specs.inside.Follow.{IsClear, IsDue, IsFollowed, IsStuckBy, IsRefusedBy};
ghost use Rattle.sp_front.specs.inside.Seen.{AreSeen};

use crate::entries::{Entry, Import};
use crate::imports::{missing, read_import};
use crate::named::{MOST_MODULES, push_entry, refusal_at};
use crate::seen::Seen;
use sp_base::{MKind, NoMemory, Text};
use sp_command::Refusal;
use sp_io::Modules;
use sp_names::is_reserved;
use sp_read_file::Unread;
use std::alloc::Global;

/// The refusal of an import of the entry at a place.
fn refused_import(
    entries: &[Entry],
    place: usize,
    import: &Import,
    kind: MKind,
) -> Result<Refusal, NoMemory>
    requires { (file : File) × (slice_get entries.now place ≡ Some (entry_is.Held file)) }
    ensures { IfOk result (λ r. (file : File)
        → slice_get entries.now place ≡ Some (entry_is.Held file) → r ≡ at file import.now.at kind) }
{
    match entries.get(place) {
        Some(Entry::Held(file)) => refusal_at(file, import.at, kind),
        _ => unreachable!(),
    }
}

/// Whether the module of an import is missing.
fn is_missing(import: &Import, seen: &Seen) -> bool
    ensures { (es : List Data) → AreSeen seen.now es → result ≡ is_missing es import.now }
{
    !is_reserved(import.name.as_str()) && !seen.has(import.name.as_str())
}

/// The file of an import of the entry at a place is the next entry.
fn add_import<M: Modules>(
    alloc: Global,
    modules: &mut M,
    directories: &[Text],
    entries: &mut Vec<Entry>,
    seen: &mut Seen,
    place: usize,
    import: &Import,
) -> Result<(), Unread>
    requires faults { M.faults modules.old < 2 ^ 64 - 1 }
    requires held { (file : File) × (slice_get entries.old.items place
        ≡ Some (entry_is.Held file)) }
    requires seen { AreSeen seen.old entries.old.items }
    ensures room { OnOk result (length entries.old.items < most_modules) }
    ensures added { OnOk result ((e : Data)
        × IsImported (M.files modules.old) directories.now import.now.name e
        × (entries.new.items ≡ entries.old.items ++ e ∷ [])) }
    ensures seen { OnOk result (AreSeen seen.new entries.new.items) }
    ensures vain { IfErr result (λ u. (file : File)
        → slice_get entries.old.items place ≡ Some (entry_is.Held file)
        → IsRefusedBy (IsAskedInVain (M.files modules.old) directories.now entries.old.items file
        import.now) u) }
    ensures asks { IfOk result (λ _. Asked (M.files modules.old) (M.asked modules.old)
        (M.asked modules.new) (λ files. asked_for files directories.now import.now.name)) }
    ensures asks_part { IfErr result (λ _. AskedPart (M.files modules.old) (M.asked modules.old)
        (M.asked modules.new) (λ files. asked_behind files directories.now
        (length entries.old.items) import.now.name)) }
    ensures asks_vain { IfErr result (IsRefusedBy (λ _. Asked (M.files modules.old)
        (M.asked modules.old) (M.asked modules.new) (λ files. asked_behind files directories.now
        (length entries.old.items) import.now.name))) }
    ensures files { M.files modules.new ≡ M.files modules.old }
    ensures cause { MatchResult result (λ _. M.faults modules.new ≡ M.faults modules.old)
        (UnreadCause (M.faults modules.old) (M.faults modules.new)) }
{
    if entries.len() >= MOST_MODULES {
        let refusal = refused_import(entries, place, import, MKind::TooMany)?;
        return Err(Unread::Refused(refusal));
    }
    let Some(entry) = read_import(alloc, modules, directories, &import.name)? else {
        let refusal = refused_import(entries, place, import, MKind::ModuleNotFound)?;
        return Err(Unread::Refused(refusal));
    };
    seen.note(alloc, import.name.as_str())?;
    push_entry(entries, entry)?;
    Ok(())
}

/// The files of those imports of the entry at a place whose modules are missing are the next entries.
fn follow<M: Modules>(
    alloc: Global,
    modules: &mut M,
    directories: &[Text],
    entries: &mut Vec<Entry>,
    seen: &mut Seen,
    place: usize,
    imports: &[Import],
) -> Result<(), Unread>
    requires faults { M.faults modules.old < 2 ^ 64 - 1 }
    requires due { IsDue entries.old.items place imports.now }
    requires seen { AreSeen seen.old entries.old.items }
    requires most { length entries.old.items ≤ most_modules + 1 }
    ensures followed { OnOk result (IsFollowed (M.files modules.old) directories.now
        entries.old.items entries.new.items) }
    ensures due { OnOk result (IsDue entries.new.items place []) }
    ensures seen { OnOk result (AreSeen seen.new entries.new.items) }
    ensures most { OnOk result (length entries.new.items ≤ most_modules + 1) }
    ensures stuck { IfErr result (IsStuckBy (M.files modules.old) directories.now
        entries.old.items) }
    ensures asks { IfOk result (λ _. FollowedAsking (M.files modules.old) directories.now
        entries.old.items entries.new.items (M.asked modules.old) (M.asked modules.new)) }
    ensures asks_part { IfErr result (λ _. StuckAsking (M.files modules.old) directories.now
        entries.old.items (M.asked modules.old) (M.asked modules.new)) }
    ensures asks_stopped { IfErr result (IsRefusedBy (StoppedAsking (M.files modules.old)
        directories.now entries.old.items (M.asked modules.old) (M.asked modules.new))) }
    ensures files { M.files modules.new ≡ M.files modules.old }
    ensures cause { MatchResult result (λ _. M.faults modules.new ≡ M.faults modules.old)
        (UnreadCause (M.faults modules.old) (M.faults modules.new)) }
{
    for import in imports {
        if !is_missing(import, seen) {
            continue;
        }
        add_import(alloc, modules, directories, entries, seen, place, import)?;
    }
    Ok(())
}

fn copied(refusal: &Refusal) -> Result<Refusal, NoMemory>
    ensures { IfOk result (λ r. r ≡ refusal.now) }
{
    Ok(Refusal {
        path: refusal.path.copy()?,
        place: refusal.place,
        kind: refusal.kind,
    })
}

/// The imports that are asked of the entry at a place, or its refusal.
fn due_at(
    alloc: Global,
    entries: &[Entry],
    seen: &Seen,
    place: usize,
) -> Result<Result<Vec<Import>, Refusal>, NoMemory>
    requires inside { place < length entries.now }
    requires seen { AreSeen seen.now entries.now }
    requires clear { IsClear entries.now place }
    ensures { IfOk result (λ due. MatchResult due (λ is. IsDue entries.now place is.items)
        (λ r. stop entries.now ≡ refused r)) }
{
    match &entries[place] {
        Entry::Refused(_, refusal) => Ok(Err(copied(refusal)?)),
        Entry::Held(file) => {
            if entries.len() > MOST_MODULES {
                Ok(Ok(Vec::new(alloc)))
            } else {
                Ok(Ok(missing(alloc, file, seen)?))
            }
        }
    }
}

/// All imports are followed that are asked of entries, also of those that are added.
pub(crate) fn complete<M: Modules>(
    alloc: Global,
    modules: &mut M,
    directories: &[Text],
    entries: &mut Vec<Entry>,
    seen: &mut Seen,
) -> Result<(), Unread>
    requires faults { M.faults modules.old < 2 ^ 64 - 1 }
    requires seen { AreSeen seen.old entries.old.items }
    requires most { length entries.old.items ≤ most_modules + 1 }
    ensures followed { OnOk result (IsFollowed (M.files modules.old) directories.now
        entries.old.items entries.new.items) }
    ensures clear { OnOk result (stop entries.new.items ≡ clear) }
    ensures stuck { IfErr result (IsStuckBy (M.files modules.old) directories.now
        entries.old.items) }
    ensures asks { IfOk result (λ _. FollowedAsking (M.files modules.old) directories.now
        entries.old.items entries.new.items (M.asked modules.old) (M.asked modules.new)) }
    ensures asks_part { IfErr result (λ _. StuckAsking (M.files modules.old) directories.now
        entries.old.items (M.asked modules.old) (M.asked modules.new)) }
    ensures asks_stopped { IfErr result (IsRefusedBy (StoppedAsking (M.files modules.old)
        directories.now entries.old.items (M.asked modules.old) (M.asked modules.new))) }
    ensures cause { MatchResult result (λ _. M.faults modules.new ≡ M.faults modules.old)
        (UnreadCause (M.faults modules.old) (M.faults modules.new)) }
{
    let mut place = 0;
    while place < entries.len() {
        let imports = match due_at(alloc, entries, seen, place)? {
            Ok(imports) => imports,
            Err(refusal) => return Err(Unread::Refused(refusal)),
        };
        follow(alloc, modules, directories, entries, seen, place, &imports)?;
        place += 1;
    }
    Ok(())
}
