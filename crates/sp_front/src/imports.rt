// The imports of a file whose modules are missing, and the file of one.
ghost use Rattle.std.specs.Prelude.{◌≡◌, ◌<◌, ◌-◌, ◌^◌, List, ◌++◌, IfOk, IfErr, OnOk, MatchResult};
ghost use Rattle.sp_read_file.specs.Loads.{UnreadCause};
ghost use Rattle.sp_front.specs.declared.entries.Entry.{Entry};
ghost use Rattle.sp_front.specs.Asked.{asked_for};
ghost use Rattle.sp_front.specs.Imports.{import_of, imports_of};
ghost use Rattle.sp_front.specs.Lists.{missing};
ghost use Rattle.sp_front.specs.inside.Asking.{Asked, AskedPart};
ghost use Rattle.sp_front.specs.inside.Files.{IsImport, IsNoRefusal};
ghost use Rattle.sp_front.specs.inside.Seen.{AreSeen};

use crate::entries::{Entry, Import, ModuleFile};
use crate::named::file_of;
use crate::paths::find;
use crate::seen::Seen;
use sp_ast::{DeclKind, DeclView, Ref};
use sp_base::{NoMemory, Text};
use sp_io::Modules;
use sp_names::{declarations_of, is_reserved, name_of};
use sp_read_file::Unread;
use std::alloc::Global;

/// Notes the import that a declaration is, if its module is missing.
fn note_import(
    alloc: Global,
    declaration: &Ref<'_, DeclKind>,
    seen: &Seen,
    imports: &mut Vec<Import>,
) -> Result<(), NoMemory>
    ensures { OnOk result ((es : List Entry) → AreSeen seen.now es
        → imports.new.items ≡ imports.old.items ++ missing es (import_of declaration.now)) }
{
    if let DeclView::Import(name) = declaration.view() {
        if !is_reserved(name.text()) && !seen.has(name.text()) {
            imports.push(Import {
                name: Text::new(alloc, name.text())?,
                at: name.span().from,
            })?;
        }
    }
    Ok(())
}

/// The imports of a file whose modules are missing, in the order of the text.
pub(crate) fn missing(
    alloc: Global,
    file: &ModuleFile,
    seen: &Seen,
) -> Result<Vec<Import>, NoMemory>
    ensures { IfOk result (λ is. (es : List Entry) → AreSeen seen.now es
        → is.items ≡ missing es (imports_of file.now.«module»)) }
{
    let mut imports = Vec::new(alloc);
    for declaration in declarations_of(&file.module) {
        note_import(alloc, &declaration, seen, &mut imports)?;
    }
    Ok(imports)
}

/// The file of an import, if it is there and holds no other module.
pub(crate) fn read_import<M: Modules>(
    alloc: Global,
    modules: &mut M,
    directories: &[Text],
    name: &Text,
) -> Result<Option<Entry>, Unread>
    requires { M.faults modules.old < 2 ^ 64 - 1 }
    ensures found { IfOk result (IsImport (M.files modules.old) directories.now name.now) }
    ensures unread { IfErr result IsNoRefusal }
    ensures asks { IfOk result (λ _. Asked (M.files modules.old) (M.asked modules.old)
        (M.asked modules.new) (λ files. asked_for files directories.now name.now)) }
    ensures asks_part { IfErr result (λ _. AskedPart (M.files modules.old) (M.asked modules.old)
        (M.asked modules.new) (λ files. asked_for files directories.now name.now)) }
    ensures files { M.files modules.new ≡ M.files modules.old }
    ensures cause { MatchResult result (λ _. M.faults modules.new ≡ M.faults modules.old)
        (UnreadCause (M.faults modules.old) (M.faults modules.new)) }
{
    let Some((path, text)) = find(alloc, modules, directories, name.as_str())? else {
        return Ok(None);
    };
    match file_of(alloc, path, text)? {
        Ok(file) => {
            if name_of(&file.module) == name.as_str() {
                Ok(Some(Entry::Held(file)))
            } else {
                Ok(None)
            }
        }
        Err(refusal) => Ok(Some(Entry::Refused(Some(name.copy()?), refusal))),
    }
}
