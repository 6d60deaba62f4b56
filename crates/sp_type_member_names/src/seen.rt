// What a walk through a unit has seen.
ghost use Rattle.std.specs.Prelude.{◌≡◌, ◌++◌, ◌||◌, ℕ, true, [], OnOk, List};
ghost use Rattle.sp_type_modules.specs.Taken.{place_if};
ghost use Rattle.sp_type_member_names.specs.inside.Seen.{told_count, is_counted, number_told};
ghost use Rattle.sp_type_member_names.specs.inside.Passing.{IsSeen, PassedName, PassedKept};

use crate::near::{NearTable, is_near, nothing_near, raise};
use crate::stored::{StoredTable, is_other, keep, nothing_stored};
use sp_base::{NoMemory, Span};
use sp_types::Type;
use std::alloc::Global;

/// What a walk through a unit has seen.
#[derive(Drop)]
pub(crate) struct Seen {
    pub(crate) near: NearTable,
    pub(crate) kept: StoredTable,
    /// The members that were named, in the order of the text, since the arm began.
    pub(crate) trail: Vec<u32>,
    /// The places of the names that come twice.
    pub(crate) places: Vec<Span>,
}

pub(crate) fn nothing_seen(alloc: Global) -> Seen
    ensures seen { IsSeen [] [] result }
    ensures places { result.places.items ≡ [] }
{
    Seen {
        near: nothing_near(alloc),
        kept: nothing_stored(alloc),
        trail: Vec::new(alloc),
        places: Vec::new(alloc),
    }
}

fn note(places: &mut Vec<Span>, taken: bool, at: Span) -> Result<(), NoMemory>
    ensures { OnOk result (places.new.items ≡ places.old.items ++ place_if taken at) }
{
    if taken {
        places.push(at)?;
    }
    Ok(())
}

/// A variable or a sink of this number stands here.
pub(crate) fn pass_name(seen: &mut Seen, number: Option<u32>, at: Span) -> Result<(), NoMemory>
    ensures { OnOk result (PassedName number at seen.old seen.new) }
{
    let taken = is_near(&seen.near, number);
    note(&mut seen.places, taken, at)?;
    if let Some(number) = number {
        raise(&mut seen.near, number)?;
        seen.trail.push(number)?;
    }
    Ok(())
}

fn is_taken(seen: &Seen, number: Option<u32>, ty: &Type) -> bool
    ensures { result ≡ (is_counted seen.now.near number || number_told seen.now.kept number ty.now) }
{
    is_near(&seen.near, number) || is_other(&seen.kept, number, ty)
}

/// A field of this number stands here, which stores this.
pub(crate) fn pass_kept(
    seen: &mut Seen,
    number: Option<u32>,
    ty: Type,
    at: Span,
) -> Result<(), NoMemory>
    ensures { OnOk result (PassedKept number ty at seen.old seen.new) }
{
    let taken = is_taken(seen, number, &ty);
    note(&mut seen.places, taken, at)?;
    if let Some(number) = number {
        keep(&mut seen.kept, number, ty)?;
        raise(&mut seen.near, number)?;
        seen.trail.push(number)?;
    }
    Ok(())
}
