// The types of bitfields, which stand anywhere, in the order of the text.
ghost use Rattle.std.specs.Prelude.{◌≡◌, ◌++◌, length, drop, IfOk, OnOk};
ghost use Rattle.sp_ast.specs.Trees.{trees};
ghost use Rattle.sp_names.specs.Types.{if_bitfield, bitfields, bitfields_of, bitfields_in, bitfields_among};
ghost use Rattle.sp_names.specs.Tables.{ArePlaced, Each, IsPlaced, IsPlaces, placed_by, trees_of};

use crate::rows::Bitfield;
use indexmap::IndexMap;
use sp_ast::{Form, Level, Module, Parts, Ref, TreeRef, TypeForm};
use sp_base::NoMemory;
use sp_name_tables::number;
use std::alloc::Global;

/// The number of the first bitfield whose type begins at each place of a module's text.
#[derive(Drop)]
pub(crate) struct PlaceTable {
    first: IndexMap<u32, u32>,
}

/// Puts a tree on the list where it is the type of a bitfield.
fn add_itself<'a>(
    list: &mut Vec<Bitfield<'a>>,
    owner: u32,
    tree: &TreeRef<'a>,
) -> Result<(), NoMemory>
    ensures { OnOk result (list.new.items ≡ list.old.items
        ++ bitfields_of owner (if_bitfield tree.now)) }
{
    match tree.level() {
        Level::Of(Form::Type(TypeForm::Bitfield), ..) => {
            list.push(Bitfield {
                module: owner,
                tree: Ref::new(tree.again()),
            })?;
            Ok(())
        }
        _ => Ok(()),
    }
}

/// Puts all types of bitfields in a tree on the list.
#[cycle(add)]
fn add_bitfields<'a>(
    list: &mut Vec<Bitfield<'a>>,
    owner: u32,
    tree: &TreeRef<'a>,
) -> Result<(), NoMemory>
    ensures { OnOk result (list.new.items ≡ list.old.items
        ++ bitfields_of owner (bitfields_in tree.now)) }
{
    match tree.level() {
        Level::Absent => Ok(()),
        Level::Row(parts) => add_among(list, owner, parts),
        Level::Of(_, _, parts) => {
            add_itself(list, owner, tree)?;
            add_among(list, owner, parts)
        }
    }
}

#[cycle(add)]
fn add_among<'a>(list: &mut Vec<Bitfield<'a>>, owner: u32, parts: Parts<'a>) -> Result<(), NoMemory>
    ensures { OnOk result (list.new.items ≡ list.old.items
        ++ bitfields_of owner (bitfields_among (trees parts.entry))) }
{
    for tree in parts {
        add_bitfields(list, owner, &tree)?;
    }
    Ok(())
}

/// Notes the number of a place, unless it has one.
fn note_place(table: &mut PlaceTable, place: u32, number: u32) -> Result<(), NoMemory>
    ensures { OnOk result (IsPlaced (placed_by table.old) (placed_by table.new) place number) }
{
    if table.first.contains_key(&place) {
        return Ok(());
    }
    table.first.insert(place, number)?;
    Ok(())
}

/// The number of the bitfield whose type begins at a place.
pub(crate) fn number_at(table: &PlaceTable, place: u32) -> Option<u32>
    ensures { result ≡ placed_by table.now place }
{
    table.first.get(&place).copied()
}

/// The places of bitfields from one on.
fn place_table(alloc: Global, list: &[Bitfield<'_>], first: usize) -> Result<PlaceTable, NoMemory>
    ensures { IfOk result (λ t. ArePlaced first (trees_of (drop first list.now)) (placed_by t)) }
{
    let mut table = PlaceTable {
        first: IndexMap::new(alloc),
    };
    for j in first..list.len() {
        note_place(&mut table, list[j].tree.span().from, number(j)?)?;
    }
    Ok(table)
}

/// The types of all bitfields of a list of modules, and their numbers by their places in each module.
pub(crate) fn all_bitfields<'a>(
    alloc: Global,
    modules: &'a [Module],
) -> Result<(Vec<Bitfield<'a>>, Vec<PlaceTable>), NoMemory>
    ensures bitfields { IfOk result (λ r. r.0.items ≡ bitfields modules.now) }
    ensures all { IfOk result (λ r. length r.1.items ≡ length modules.now) }
    ensures each { IfOk result (λ r. Each (IsPlaces modules.now) r.1.items) }
{
    let mut list = Vec::new(alloc);
    let mut places = Vec::new(alloc);
    for i in 0..modules.len() {
        let first = list.len();
        add_bitfields(&mut list, number(i)?, &modules[i].lend())?;
        places.push(place_table(alloc, &list, first)?)?;
    }
    Ok((list, places))
}
