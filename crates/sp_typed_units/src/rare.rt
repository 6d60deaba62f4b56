// What is mostly left out, seen as an option.
ghost use Rattle.std.specs.Prelude.{◌≡◌, Option, None, option_copied, IfOk};
ghost use Rattle.sp_typed_units.specs.Rares.{kept};

use sp_base::NoMemory;
use std::alloc::Global;
use std::marker::Model;

/// Something that is mostly left out, and takes little room then. Clauses see the option.
#[derive(Drop)]
pub struct Rare<T> {
    inner: Option<Box<T>>,
}

impl<T> Model for Rare<T> {
    ghost Value = { Option T };

    ghost view = { λ r. kept r.inner };
}

impl<T> Rare<T> {
    /// Nothing. Takes no memory.
    pub fn none() -> Rare<T>
        ensures { result ≡ None }
    {
        Rare { inner: None }
    }

    /// It as an option. It copies nothing.
    pub fn get(&self) -> Option<&T>
        ensures { option_copied result ≡ self.now }
    {
        match &self.inner {
            Some(item) => Some(item),
            None => None,
        }
    }
}

impl<T: Drop> Rare<T> {
    /// What may be left out, moved. It takes memory only where it is there.
    pub fn new(alloc: Global, item: Option<T>) -> Result<Rare<T>, NoMemory>
        ensures { IfOk result (λ r. r ≡ item) }
    {
        match item {
            Some(item) => {
                let inner = Box::new(alloc, item)?;
                Ok(Rare { inner: Some(inner) })
            }
            None => Ok(Rare { inner: None }),
        }
    }
}
