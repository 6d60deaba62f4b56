// A row of places, of which it is asked whether a place stands in it.
ghost use Rattle.std.specs.Prelude.{◌≡◌, ◌||◌, false, IfOk, OnOk};
ghost use Rattle.sp_base.specs.declared.places.Span.{Span as At};
ghost use Rattle.sp_type_modules.specs.Taken.{same_place, has_place};
ghost use Rattle.sp_type_member_names.specs.inside.Places.{has_told};

use indexmap::IndexSet;
use sp_base::{NoMemory, Span, or_drop};
use std::alloc::Global;
use std::marker::Model;

/// Places by their ends.
#[derive(Drop)]
pub(crate) struct PlaceSet {
    pub(crate) ends: IndexSet<(u32, u32)>,
}

fn add(set: &mut PlaceSet, place: Span) -> Result<(), NoMemory>
    ensures { OnOk result ((at : At) → has_told set.new at
        ≡ (has_told set.old at || same_place place at)) }
{
    set.ends.insert((place.from, place.to))?;
    Ok(())
}

fn set_of(alloc: Global, places: &[Span]) -> Result<PlaceSet, NoMemory>
    ensures { IfOk result (λ s. (at : At) → has_told s at ≡ has_place at places.now) }
{
    let mut set = PlaceSet {
        ends: IndexSet::new(alloc),
    };
    for i in 0..places.len() {
        or_drop!(add(&mut set, places[i]); set);
    }
    Ok(set)
}

/// A row of places. Clauses see the row, and a look-up doesn't hang on how many there are.
#[derive(Drop)]
pub struct Places {
    row: Vec<Span>,
    set: PlaceSet,
}

impl Model for Places {
    ghost use Rattle.std.specs.Prelude.{◌≡◌, List};
    ghost use Rattle.sp_base.specs.declared.places.Span.{Span as At};
    ghost use Rattle.sp_type_modules.specs.Taken.{has_place};
    ghost use Rattle.sp_type_member_names.specs.inside.Places.{has_told};

    ghost Value = { List At };

    ghost view = { λ p. p.row.items };

    ghost invariant = { λ p. (at : At) → has_told p.set at ≡ has_place at p.row.items };
}

impl Places {
    /// These places.
    pub fn new(alloc: Global, row: Vec<Span>) -> Result<Places, NoMemory>
        ensures { IfOk result (λ p. p ≡ row.items) }
    {
        let set = set_of(alloc, &row)?;
        Ok(Places { row, set })
    }

    /// Whether this place is one of them.
    pub fn has(&self, at: Span) -> bool
        ensures { result ≡ has_place at self.now }
    {
        self.set.ends.contains(&(at.from, at.to))
    }
}
