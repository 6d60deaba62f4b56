// The names of the entries of a list.
ghost use Rattle.std.specs.Prelude.{◌≡◌, ◌||◌, ℕ, List, false, OnOk};
ghost use Rattle.std.specs.Str.{bytes_eq};
ghost use Rattle.sp_front.specs.inside.Seen.{told};

use indexmap::IndexMap;
use sp_base::NoMemory;
use std::alloc::Global;

/// The names of the entries of a list.
#[derive(Drop)]
pub(crate) struct Seen {
    names: IndexMap<String, ()>,
}

impl Seen {
    pub(crate) fn new(alloc: Global) -> Seen
        ensures { (x : List ℕ) → told result x ≡ false }
    {
        Seen {
            names: IndexMap::new(alloc),
        }
    }

    /// Whether an entry has the name.
    pub(crate) fn has(&self, name: &str) -> bool
        ensures { result ≡ told self.now name.now }
    {
        self.names.get(name).is_some()
    }

    /// Notes the name of an entry.
    pub(crate) fn note(&mut self, alloc: Global, name: &str) -> Result<(), NoMemory>
        ensures { OnOk result ((x : List ℕ) → told self.new x ≡ (bytes_eq x name.now || told self.old x)) }
    {
        self.names.insert(String::from_str(alloc, name)?, ())?;
        Ok(())
    }
}
