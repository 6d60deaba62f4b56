// The row of all that is declared with a value, and where constants and labels stand in it.
ghost use Rattle.std.specs.Prelude.{◌≡◌, ◌++◌, ◌+◌, true, Some, length, option_copied, slice_get, IfOk, OnOk};
ghost use Rattle.sp_solver.specs.Told.{told};
ghost use Rattle.sp_names.specs.declared.sort.DeclSort.TheVariants as sort_is;
ghost use Rattle.sp_names.specs.Declarations.{all_of, sort_of};
ghost use Rattle.sp_names.specs.Names.{declaration_of, labels_of};
ghost use Rattle.sp_names.specs.Tables.{Each};
ghost use Rattle.sp_ast.specs.Views.{present};
ghost use Rattle.sp_type_values.specs.Valued.{if_constant, constants_among, constants, number_tree, label_of, labels_from, declared_labels, labels, valued, constant_place, own_place, label_place};
ghost use Rattle.sp_type_values.specs.inside.Places.{IsEnumPlace, AreValued};

use crate::tell::written_type;
use crate::valued::Valued;
use sp_ast::{DeclView, LabelKind, Members, Ref, is_present};
use sp_base::{NoMemory, or_drop};
use sp_names::{Declaration, LIBRARY_ENUMS, Names, RowView, labels_of};
use sp_type_modules::{Tables, declaration_at};
use sp_types::Type;
use std::alloc::Global;
use std::marker::Model;

/// Where the labels of an enum stand: the place of the first, and how many they are.
#[derive(Drop)]
pub(crate) struct EnumPlace {
    first: usize,
    count: usize,
}

/// All that is declared with a value, for the types of type declarations: the constants of a list of modules by their numbers,
/// and behind them the labels of its own enums. Clauses see the list and the types.
#[derive(Drop)]
pub struct ValueRow<'a> {
    tables: &'a Tables<'a>,
    rows: Vec<Valued<'a>>,
    constants: usize,
    enums: Vec<EnumPlace>,
}

impl<'a> Model for ValueRow<'a> {
    ghost use Rattle.std.specs.Prelude.{List, Option};
    ghost use Rattle.std.specs.Coded.{codes, coded_list, coded_option, coded×};
    ghost use Rattle.sp_ast.specs.Trees.{Tree as Data};
    ghost use Rattle.sp_ast.specs.inside.TreeCodes.{coded_tree};
    ghost use Rattle.sp_types.specs.Types.{Ty};
    ghost use Rattle.sp_types.specs.contracts.types.Type as type_row;
    ghost use Rattle.sp_solver.specs.Told.{told};
    ghost use Rattle.sp_type_values.specs.inside.Places.{AreValued};

    ghost Value = { List Data × List (Option Ty) };

    ghost coded = { coded× (coded_list (coded_tree (Prim.hlevel codes)))
        (coded_list (coded_option type_row.the_row.coded)) };

    ghost view = { λ v. v.tables.now };

    ghost invariant = { λ v. AreValued v.tables.now.0 (told v.tables.now.1) v.rows.items
        v.constants v.enums.items };
}

/// Puts a declaration on the list if it is a constant.
fn add_constant<'a>(
    alloc: Global,
    names: &Names<'_>,
    known: &[Option<Type>],
    list: &mut Vec<Valued<'a>>,
    row: &Declaration<'a>,
) -> Result<(), NoMemory>
    ensures { OnOk result (list.new.items ≡ list.old.items
        ++ if_constant names.now (told known.now) row.now (sort_of row.now.tree)) }
{
    match row.tree.view() {
        RowView::Declared(DeclView::Const { type_, value, .. }) => {
            is_present(&type_);
            let owner = row.module;
            let written = written_type(alloc, names, known, owner, &type_)?;
            list.push(Valued::Constant {
                owner,
                written,
                value,
            })?;
            Ok(())
        }
        _ => Ok(()),
    }
}

/// All constants.
fn all_constants<'a>(
    alloc: Global,
    names: &Names<'_>,
    known: &[Option<Type>],
    rows: &[Declaration<'a>],
) -> Result<Vec<Valued<'a>>, NoMemory>
    ensures { IfOk result (λ v. v.items
        ≡ constants_among names.now (told known.now) rows.now) }
{
    let mut list = Vec::new(alloc);
    for row in rows {
        or_drop!(add_constant(alloc, names, known, &mut list, row); list);
    }
    Ok(list)
}

/// A label of an enum, which is the first of it or not.
fn label_of<'a>(owner: u32, home: u32, first: bool, label: &Ref<'a, LabelKind>) -> Valued<'a>
    ensures { result ≡ label_of owner home first (present (number_tree label.now)) }
{
    let number = label.view().value;
    is_present(&number);
    match number {
        Some(number) => Valued::Numbered {
            kind: owner,
            owner: home,
            number,
        },
        None => if first {
            Valued::First(owner)
        } else {
            Valued::Next(owner)
        },
    }
}

/// Puts the labels of an enum on the list.
fn add_labels<'a>(
    list: &mut Vec<Valued<'a>>,
    owner: u32,
    home: u32,
    labels: Members<'a, LabelKind>,
) -> Result<(), NoMemory>
    ensures { OnOk result (list.new.items ≡ list.old.items
        ++ labels_from owner home true labels.entry) }
{
    let mut first = true;
    for label in labels {
        list.push(label_of(owner, home, first, &label))?;
        first = false;
    }
    Ok(())
}

/// Puts the labels of the enum that is declared on the list, and tells how many they are.
fn add_enum<'a>(
    list: &mut Vec<Valued<'a>>,
    owner: u32,
    row: &Declaration<'a>,
) -> Result<usize, NoMemory>
    ensures added { OnOk result (list.new.items ≡ list.old.items
        ++ declared_labels owner (Some row.now)) }
    ensures count { IfOk result (λ n. n ≡ length (labels_of (Some row.now))) }
{
    match labels_of(&row.tree) {
        Some(labels) => {
            let count = labels.len();
            add_labels(list, owner, row.module, labels)?;
            Ok(count)
        }
        None => Ok(0),
    }
}

/// The number of the enum of the list before which so many stand.
fn enum_number(place: usize) -> Result<u32, NoMemory>
    ensures { IfOk result (λ n. n ≡ 4 + place) }
{
    let place = u32::try_from(place).map_err(|_| NoMemory)?;
    LIBRARY_ENUMS.checked_add(place).ok_or(NoMemory)
}

/// Puts the labels of the enum that is declared on the list, if one is, and tells how many they are.
fn add_declared<'a>(
    list: &mut Vec<Valued<'a>>,
    owner: u32,
    row: Option<&Declaration<'a>>,
) -> Result<usize, NoMemory>
    ensures added { OnOk result (list.new.items ≡ list.old.items
        ++ declared_labels owner (option_copied row.entry)) }
    ensures count { IfOk result (λ n. n ≡ length (labels_of (option_copied row.entry))) }
{
    match row {
        Some(row) => add_enum(list, owner, row),
        None => Ok(0),
    }
}

/// Puts the labels of the enum of a place on the list, and tells where they stand.
fn add_enum_at<'a>(
    names: &Names<'a>,
    list: &mut Vec<Valued<'a>>,
    numbers: &[u32],
    place: usize,
) -> Result<EnumPlace, NoMemory>
    ensures added { OnOk result (list.new.items ≡ list.old.items ++ declared_labels (4 + place)
        (declaration_of names.now (slice_get numbers.now place))) }
    ensures first { IfOk result (λ p. p.first ≡ length list.old.items) }
    ensures count { IfOk result (λ p. p.count ≡ length (labels_of
        (declaration_of names.now (slice_get numbers.now place)))) }
{
    let first = list.len();
    let owner = enum_number(place)?;
    let count = add_declared(list, owner, declaration_at(names, numbers, place))?;
    Ok(EnumPlace { first, count })
}

/// Puts the labels of all enums of the list behind the constants, and tells where those of each stand.
fn add_enums<'a>(
    alloc: Global,
    names: &Names<'a>,
    list: &mut Vec<Valued<'a>>,
) -> Result<Vec<EnumPlace>, NoMemory>
    ensures added { OnOk result (list.new.items ≡ list.old.items ++ labels names.now) }
    ensures all { IfOk result (λ v. length v.items ≡ length (all_of sort_is.Enum names.now)) }
    ensures each { IfOk result (λ v. Each (IsEnumPlace names.now (length list.old.items)) v.items) }
{
    let numbers = names.enums();
    let mut places = Vec::new(alloc);
    for place in 0..numbers.len() {
        places.push(add_enum_at(names, list, numbers, place)?)?;
    }
    Ok(places)
}

impl<'a> ValueRow<'a> {
    /// The row of a list of modules.
    pub fn new(alloc: Global, tables: &'a Tables<'a>) -> Result<ValueRow<'a>, NoMemory>
        ensures { IfOk result (λ row. row ≡ tables.now) }
    {
        let names = tables.names();
        let mut rows = all_constants(alloc, names, tables.known(), names.rows())?;
        let constants = rows.len();
        let enums = or_drop!(add_enums(alloc, names, &mut rows); rows);
        Ok(ValueRow {
            tables,
            rows,
            constants,
            enums,
        })
    }

    pub fn tables(&self) -> &'a Tables<'a>
        ensures { result.now ≡ self.now }
    {
        self.tables
    }

    /// All that is declared with a value.
    pub fn rows(&self) -> &[Valued<'a>]
        ensures { result.now ≡ valued self.now.0 (told self.now.1) }
    {
        &self.rows
    }

    /// Where a constant stands, if it is there.
    pub fn constant_place(&self, number: u32) -> Option<usize>
        ensures { result ≡ constant_place self.now.0 (told self.now.1) number }
    {
        if (number as usize) < self.constants {
            Some(number as usize)
        } else {
            None
        }
    }

    fn own_place(&self, place: usize, label: u32) -> Option<usize>
        ensures { result ≡ own_place self.now.0 (told self.now.1) place label }
    {
        match self.enums.get(place) {
            Some(found) => if (label as usize) < found.count {
                Some(found.first + label as usize)
            } else {
                None
            },
            None => None,
        }
    }

    /// Where a label of an enum of the list stands, if it is there.
    pub fn label_place(&self, owner: u32, label: u32) -> Option<usize>
        ensures { result ≡ label_place self.now.0 (told self.now.1) owner label }
    {
        if owner < LIBRARY_ENUMS {
            None
        } else {
            self.own_place((owner - LIBRARY_ENUMS) as usize, label)
        }
    }
}
