// A list of modules, by its parts.
ghost use Rattle.std.specs.Prelude.{◌≡◌, IfOk};
ghost use Rattle.sp_load.specs.Loads.{sources_of, trees_of};

use crate::sources::Source;
use sp_ast::Module;
use sp_base::{NoMemory, or_drop};
use sp_front::ModuleFile;
use sp_typed_units::Typed;
use std::alloc::Global;

/// A list of modules that is checked: the paths and texts of their files, their trees in the same order, and what is typed of them.
#[derive(Drop)]
pub struct Loaded {
    pub sources: Vec<Source>,
    pub modules: Vec<Module>,
    pub typed: Typed,
}

/// The files of a list by their parts: the trees, which the checker wants side by side, and the rest.
#[derive(Drop)]
pub(crate) struct Parts {
    pub(crate) sources: Vec<Source>,
    pub(crate) modules: Vec<Module>,
}

/// The files of a list, by their parts. No tree and no text is copied.
pub(crate) fn parts_of(alloc: Global, files: Vec<ModuleFile>) -> Result<Parts, NoMemory>
    ensures sources { IfOk result (λ l. l.sources.items ≡ sources_of files.items) }
    ensures modules { IfOk result (λ l. l.modules.items ≡ trees_of files.items) }
{
    let mut sources = Vec::new(alloc);
    let mut modules = Vec::new(alloc);
    for file in files {
        let ModuleFile { path, text, module } = file;
        or_drop!(sources.push(Source { path, text }); sources, modules, module);
        or_drop!(modules.push(module); sources, modules);
    }
    Ok(Parts { sources, modules })
}
