// The types of type declarations, as questions whose answers hang on each other.
ghost use Rattle.std.specs.Prelude.{◌≡◌, ◌++◌, ◌+◌, Some, None, ℕ, Option, length, take, slice_get, is_some, IfOk, OnOk};
ghost use Rattle.sp_types.specs.Types.{Ty};
ghost use Rattle.sp_solver.specs.Told.{told};
ghost use Rattle.sp_names.specs.Declarations.{rows, declaration_at, sort_of};
ghost use Rattle.sp_names.specs.Aliases.{first_open, sort_asks, asks, sort_type, declaration_type, tries, ready, IsAsked, IsResolved};
ghost use Rattle.sp_names.specs.Tables.{Each};

use crate::mentions::add_mentions;
use sp_base::NoMemory;
use sp_name_tables::number;
use sp_names::{DeclSort, Declaration, Names, sort_of, type_of};
use sp_solver::{Attempt, Questions, answers};
use sp_types::{Type, Word};
use std::alloc::Global;

fn is_known(known: &[Option<Type>], declaration: u32) -> bool
    ensures { result ≡ is_some (told known.now declaration) }
{
    match known.get(declaration as usize) {
        Some(Some(_)) => true,
        _ => false,
    }
}

/// The first of some declarations that has no answer; all before the cursor have one.
#[tactic(auto, using(crate::proofs::Opens::open_step_at, crate::proofs::Opens::open_found_at, crate::proofs::Opens::open_all_at))]
fn next_open(list: &[u32], known: &[Option<Type>], cursor: &mut usize) -> Option<u32>
    requires { first_open (told known.now) (take cursor.old list.now) ≡ None }
    ensures open { result ≡ first_open (told known.now) list.now }
    ensures begun { first_open (told known.now) (take cursor.new list.now) ≡ None }
{
    while *cursor < list.len() {
        let declaration = list[*cursor];
        if !is_known(known, declaration) {
            return Some(declaration);
        }
        *cursor += 1;
    }
    None
}

/// Puts the declarations on the list on which the type of one hangs.
fn add_asks(names: &Names<'_>, list: &mut Vec<u32>, row: &Declaration<'_>) -> Result<(), NoMemory>
    ensures { OnOk result (list.new.items ≡ list.old.items
        ++ sort_asks names.now row.now (sort_of row.now.tree)) }
{
    match sort_of(&row.tree) {
        DeclSort::Alias => match type_of(&row.tree) {
            Some(type_) => add_mentions(names, list, row.module, &type_),
            None => Ok(()),
        },
        _ => Ok(()),
    }
}

fn asks_of(alloc: Global, names: &Names<'_>, row: &Declaration<'_>) -> Result<Vec<u32>, NoMemory>
    ensures { IfOk result (λ v. v.items ≡ asks names.now (Some row.now)) }
{
    let mut list = Vec::new(alloc);
    add_asks(names, &mut list, row)?;
    Ok(list)
}

fn all_asks(alloc: Global, names: &Names<'_>) -> Result<Vec<Vec<u32>>, NoMemory>
    ensures all { IfOk result (λ v. length v.items ≡ length (rows names.now)) }
    ensures each { IfOk result (λ v. Each (IsAsked names.now) v.items) }
{
    let rows = names.rows();
    let mut all = Vec::new(alloc);
    for g in 0..rows.len() {
        all.push(asks_of(alloc, names, &rows[g])?)?;
    }
    Ok(all)
}

/// The type of a declaration, where those on which it hangs are answered.
fn row_type(
    alloc: Global,
    names: &Names<'_>,
    known: &[Option<Type>],
    declaration: u32,
    row: &Declaration<'_>,
) -> Result<Type, NoMemory>
    requires { declaration_at names.now declaration ≡ Some row.now }
    ensures { IfOk result (λ t. t ≡ sort_type names.now (told known.now) declaration
        row.now (sort_of row.now.tree)) }
{
    match sort_of(&row.tree) {
        DeclSort::Unit => Ok(Type::word(Word::Unit(names.number(declaration)))),
        DeclSort::Enum => Ok(Type::word(Word::Enum(names.number(declaration)))),
        DeclSort::Alias => match type_of(&row.tree) {
            Some(type_) => names.type_in(alloc, known, row.module, &type_),
            None => Ok(Type::word(Word::Unknown)),
        },
        _ => Ok(Type::word(Word::Unknown)),
    }
}

fn declaration_type(
    alloc: Global,
    names: &Names<'_>,
    known: &[Option<Type>],
    declaration: usize,
) -> Result<Type, NoMemory>
    ensures { IfOk result (λ t. t ≡ declaration_type names.now (told known.now) declaration
        (declaration_at names.now declaration)) }
{
    match names.rows().get(declaration) {
        Some(row) => row_type(alloc, names, known, number(declaration)?, row),
        None => Ok(Type::word(Word::Unknown)),
    }
}

/// A question for each declaration: which type it is.
#[derive(Drop)]
struct System<'b, 'a> {
    names: &'b Names<'a>,
    asks: Vec<Vec<u32>>,
    ghost all: { length asks.items ≡ length (rows names.now) },
    ghost each: { Each (IsAsked names.now) asks.items },
}

impl<'b, 'a> Questions for System<'b, 'a> {
    ghost use Rattle.sp_names.specs.AliasLaws.{is_fair, is_outside, is_inside, is_first, is_later};

    type Answer = Type;

    ghost amount = { λ s. length (rows s.names.now) };

    ghost tries = { λ s. tries s.names.now };

    ghost ready = { λ s. ready s.names.now };

    fn count(&self) -> usize {
        self.names.rows().len()
    }

    fn attempt(
        &self,
        alloc: Global,
        known: &[Option<Type>],
        i: usize,
        cursor: &mut usize,
    ) -> Result<Attempt<Type>, NoMemory> {
        match next_open(&self.asks[i], known, cursor) {
            Some(next) => Ok(Attempt::Waits(next as usize)),
            None => {
                let found = declaration_type(alloc, self.names, known, i)?;
                Ok(Attempt::Done(found))
            }
        }
    }

    ghost fair = { λ s. is_fair s.names.now };

    ghost outside = { λ s. is_outside s.names.now };

    ghost inside = { λ s. is_inside s.names.now };

    ghost at_first = { λ s. is_first s.names.now };

    ghost later = { λ s. is_later s.names.now };
}

/// The types of all type declarations, by their numbers: of a unit, an enum and a bitfield its own, of another what is
/// written, through all aliases; `Unknown` for what is no type. An alias that is made of itself, or of one that is, has none.
pub fn resolve_types(alloc: Global, names: &Names<'_>) -> Result<Vec<Option<Type>>, NoMemory>
    ensures { IfOk result (λ v. IsResolved names.now v.items) }
{
    let asks = all_asks(alloc, names)?;
    answers(alloc, &System { names, asks })
}
