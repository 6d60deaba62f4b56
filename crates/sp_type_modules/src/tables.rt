// The tables of a list of modules: the members and parameters of units, the heads of functions, and the ranges of bitfields.
ghost use Rattle.std.specs.Prelude.{◌≡◌, [], List, Some, length, option_copied, slice_get, IfOk, IfSome, IfNone};
ghost use Rattle.sp_solver.specs.Told.{told};
ghost use Rattle.sp_ast.specs.Trees.{absent};
ghost use Rattle.sp_ast.specs.Views.{optional_tree};
ghost use Rattle.sp_names.specs.declared.sort.DeclSort.TheVariants as sort_is;
ghost use Rattle.sp_names.specs.Declarations.{all_of, type_tree_of};
ghost use Rattle.sp_names.specs.Names.{declaration_of};
ghost use Rattle.sp_names.specs.Tables.{Each, IsTable};
ghost use Rattle.sp_names.specs.Types.{bitfields, unknown, or_unknown};
ghost use Rattle.sp_type_modules.specs.Members.{UnitMember, unit_in, unit_members, members_of, numbered, first_member, range_name, range_number, bitfield_tree, bitfield_ranges, bitfield_width};
ghost use Rattle.sp_type_modules.specs.Heads.{parameter_type, parameter_types, types_of_unit, types_of_function, result_of, type_or_void, unit_takes, function_takes, function_gives};
ghost use Rattle.sp_type_modules.specs.Arounds.{width_type, stored_by, kind_type, kind_member, unit_member, bit_member};
ghost use Rattle.sp_type_modules.specs.inside.Kept.{IsKept};
ghost use Rattle.sp_name_tables.specs.Tables.{told_by};
ghost use Rattle.sp_type_modules.specs.inside.Tables.{IsUnit, IsFunction, IsBits, from_first};

use crate::members::{MemberTable, member_table, no_members};
use crate::written::type_at;
use sp_ast::{DeclView, Members, ParameterKind, RangeKind, Ref, TypeKind, TypeView, UnitKind};
use sp_base::{NoMemory, or_drop};
use sp_name_tables::{NameTable, declare, look_up, number, sum};
use sp_names::{Declaration, Names, RowTree, RowView, type_of};
use sp_numbers::Width;
use sp_type_context::{Member, Place, parameter_place};
use sp_typed::OneOp;
use sp_typed_units::MemberKind;
use sp_types::{Type, Word};
use std::alloc::Global;
use std::marker::Model;

/// The type that is known at a place; `Unknown` where there is none.
pub(crate) fn known_type(known: &[Option<Type>], place: usize) -> Result<Type, NoMemory>
    ensures { IfOk result (λ t. t ≡ or_unknown (told known.now place)) }
{
    match known.get(place) {
        Some(Some(found)) => found.copy(),
        _ => Ok(Type::word(Word::Unknown)),
    }
}

/// A unit: its members, how many members of other units stand before them, and the types of its parameters.
#[derive(Drop)]
pub(crate) struct UnitTable {
    pub(crate) members: MemberTable,
    pub(crate) first: u32,
    pub(crate) takes: Vec<Type>,
}

/// A function: the types of its parameters, and of what it gives.
#[derive(Drop)]
pub(crate) struct FunctionTable {
    pub(crate) takes: Vec<Type>,
    pub(crate) gives: Type,
}

/// A bitfield: the numbers of its ranges, and their type.
#[derive(Drop)]
pub(crate) struct BitTable {
    pub(crate) ranges: NameTable,
    pub(crate) width: Type,
}

/// The type of a parameter.
fn parameter_type(
    alloc: Global,
    names: &Names<'_>,
    known: &[Option<Type>],
    owner: u32,
    parameter: &Ref<'_, ParameterKind>,
) -> Result<Type, NoMemory>
    ensures { IfOk result (λ t. t
        ≡ parameter_type names.now (told known.now) owner parameter.now) }
{
    let view = parameter.view();
    let place = parameter_place(view.inout);
    type_at(alloc, names, known, owner, place, &view.type_)
}

/// The types of parameters.
fn parameter_types(
    alloc: Global,
    names: &Names<'_>,
    known: &[Option<Type>],
    owner: u32,
    parameters: Members<'_, ParameterKind>,
) -> Result<Vec<Type>, NoMemory>
    ensures { IfOk result (λ v. v.items
        ≡ parameter_types names.now (told known.now) owner parameters.entry) }
{
    let mut types = Vec::new(alloc);
    for parameter in parameters {
        types.push(parameter_type(alloc, names, known, owner, &parameter)?)?;
    }
    Ok(types)
}

/// The declaration whose number stands at a place.
pub fn declaration_at<'n, 'a>(
    names: &'n Names<'a>,
    numbers: &[u32],
    place: usize,
) -> Option<&'n Declaration<'a>>
    ensures { option_copied result ≡ declaration_of names.now (slice_get numbers.now place) }
{
    match numbers.get(place) {
        Some(declaration) => names.rows().get(*declaration as usize),
        None => None,
    }
}

fn unit_in_type<'a>(tree: &Ref<'a, TypeKind>) -> Option<Ref<'a, UnitKind>>
    ensures some { IfSome result (λ u. unit_in tree.now ≡ u) }
    ensures none { IfNone result (unit_in tree.now ≡ absent) }
{
    match tree.view() {
        TypeView::Unit(unit) => Some(unit),
        _ => None,
    }
}

/// The unit that a declaration declares.
pub fn unit_in<'a>(tree: &RowTree<'a>) -> Option<Ref<'a, UnitKind>>
    ensures some { IfSome result (λ u. unit_in (type_tree_of tree.now) ≡ u) }
    ensures none { IfNone result (unit_in (type_tree_of tree.now) ≡ absent) }
{
    match type_of(tree) {
        Some(type_) => unit_in_type(&type_),
        None => None,
    }
}

/// The table of the unit that a declaration declares.
fn unit_table(
    alloc: Global,
    names: &Names<'_>,
    known: &[Option<Type>],
    declaration: &Declaration<'_>,
    first: u32,
) -> Result<UnitTable, NoMemory>
    ensures members { IfOk result (λ t. IsKept t.members
        (members_of (unit_in (type_tree_of declaration.now.tree)))) }
    ensures first { IfOk result (λ t. t.first ≡ first) }
    ensures takes { IfOk result (λ t. t.takes.items
        ≡ types_of_unit names.now (told known.now) (Some declaration.now)) }
{
    match unit_in(&declaration.tree) {
        Some(unit) => Ok(UnitTable {
            members: member_table(alloc, &unit)?,
            first,
            takes: parameter_types(
                alloc,
                names,
                known,
                declaration.module,
                unit.view().parameters,
            )?,
        }),
        None => Ok(UnitTable {
            members: no_members(alloc),
            first,
            takes: Vec::new(alloc),
        }),
    }
}

/// The table of the unit of a number.
fn unit_table_at(
    alloc: Global,
    names: &Names<'_>,
    known: &[Option<Type>],
    place: usize,
    first: u32,
) -> Result<UnitTable, NoMemory>
    ensures { IfOk result (λ t. first ≡ first_member names.now place
        → IsUnit names.now (told known.now) place t) }
{
    match declaration_at(names, names.units(), place) {
        Some(declaration) => unit_table(alloc, names, known, declaration, first),
        None => Ok(UnitTable {
            members: no_members(alloc),
            first,
            takes: Vec::new(alloc),
        }),
    }
}

/// The tables of all units.
fn unit_tables(
    alloc: Global,
    names: &Names<'_>,
    known: &[Option<Type>],
) -> Result<Vec<UnitTable>, NoMemory>
    ensures all { IfOk result (λ v. length v.items ≡ length (all_of sort_is.Unit names.now)) }
    ensures each { IfOk result (λ v. Each (IsUnit names.now (told known.now)) v.items) }
{
    let mut tables = Vec::new(alloc);
    let mut first = 0;
    for n in 0..names.units().len() {
        let table = unit_table_at(alloc, names, known, n, first)?;
        let count = number(table.members.kinds.len())?;
        tables.push(table)?;
        first = sum(first, count)?;
    }
    Ok(tables)
}

/// The type of a tree that is there.
fn written_type(
    alloc: Global,
    names: &Names<'_>,
    known: &[Option<Type>],
    owner: u32,
    tree: &Ref<'_, TypeKind>,
) -> Result<Type, NoMemory>
    ensures { IfOk result (λ t. t ≡ type_or_void names.now (told known.now) owner tree.now) }
{
    // (what it may be shows that it is there)
    let _ = tree.view();
    type_at(alloc, names, known, owner, Place::Value, tree)
}

/// The type of what a function gives.
fn result_type(
    alloc: Global,
    names: &Names<'_>,
    known: &[Option<Type>],
    owner: u32,
    written: Option<&Ref<'_, TypeKind>>,
) -> Result<Type, NoMemory>
    ensures { IfOk result (λ t. t ≡ type_or_void names.now (told known.now) owner
        (optional_tree (option_copied written.entry))) }
{
    match written {
        Some(tree) => written_type(alloc, names, known, owner, tree),
        None => Ok(Type::word(Word::Void)),
    }
}

fn no_function(alloc: Global) -> FunctionTable
    ensures takes { result.takes.items ≡ [] }
    ensures gives { result.gives ≡ unknown }
{
    FunctionTable {
        takes: Vec::new(alloc),
        gives: Type::word(Word::Unknown),
    }
}

/// The table of the function that a declaration declares.
fn function_table(
    alloc: Global,
    names: &Names<'_>,
    known: &[Option<Type>],
    declaration: &Declaration<'_>,
) -> Result<FunctionTable, NoMemory>
    ensures takes { IfOk result (λ t. t.takes.items
        ≡ types_of_function names.now (told known.now) (Some declaration.now)) }
    ensures gives { IfOk result (λ t. t.gives
        ≡ result_of names.now (told known.now) (Some declaration.now)) }
{
    match declaration.tree.view() {
        RowView::Declared(
            DeclView::Function {
                parameters,
                returns,
                ..
            },
        ) => Ok(FunctionTable {
            takes: parameter_types(alloc, names, known, declaration.module, parameters)?,
            gives: result_type(alloc, names, known, declaration.module, returns.as_ref())?,
        }),
        _ => Ok(no_function(alloc)),
    }
}

/// The table of the function of a number.
fn function_table_at(
    alloc: Global,
    names: &Names<'_>,
    known: &[Option<Type>],
    place: usize,
) -> Result<FunctionTable, NoMemory>
    ensures { IfOk result (IsFunction names.now (told known.now) place) }
{
    match declaration_at(names, names.functions(), place) {
        Some(declaration) => function_table(alloc, names, known, declaration),
        None => Ok(no_function(alloc)),
    }
}

/// The tables of all functions.
fn function_tables(
    alloc: Global,
    names: &Names<'_>,
    known: &[Option<Type>],
) -> Result<Vec<FunctionTable>, NoMemory>
    ensures all { IfOk result (λ v. length v.items ≡ length (all_of sort_is.Function names.now)) }
    ensures each { IfOk result (λ v. Each (IsFunction names.now (told known.now)) v.items) }
{
    let mut tables = Vec::new(alloc);
    for n in 0..names.functions().len() {
        tables.push(function_table_at(alloc, names, known, n)?)?;
    }
    Ok(tables)
}

/// The numbers of ranges of bits, from 0, by their names.
fn range_table(alloc: Global, ranges: Members<'_, RangeKind>) -> Result<NameTable, NoMemory>
    ensures { IfOk result (λ t. IsTable range_name 0 ranges.entry (told_by t)) }
{
    let mut table = NameTable::new(alloc);
    let mut number = 0;
    for range in ranges {
        or_drop!(declare(alloc, &mut table, range.view().name.text(), number); table);
        number = or_drop!(sum(number, 1); table);
    }
    Ok(table)
}

/// The type of the ranges of a bitfield of a width.
fn width_type(width: u64) -> Type
    ensures { result ≡ width_type width }
{
    if width == 8 {
        Type::word(Word::Uint(Width::W8))
    } else if width == 16 {
        Type::word(Word::Uint(Width::W16))
    } else if width == 32 {
        Type::word(Word::Uint(Width::W32))
    } else if width == 64 {
        Type::word(Word::Uint(Width::W64))
    } else {
        Type::word(Word::Unknown)
    }
}

/// The table of a bitfield.
fn bit_table(alloc: Global, tree: &Ref<'_, TypeKind>) -> Result<BitTable, NoMemory>
    ensures ranges { IfOk result (λ t. IsTable range_name 0 (bitfield_ranges tree.now)
        (told_by t.ranges)) }
    ensures width { IfOk result (λ t. t.width ≡ width_type (bitfield_width tree.now)) }
{
    match tree.view() {
        TypeView::Bitfield { width, ranges } => Ok(BitTable {
            ranges: range_table(alloc, ranges)?,
            width: width_type(width.value()),
        }),
        _ => Ok(BitTable {
            ranges: NameTable::new(alloc),
            width: Type::word(Word::Unknown),
        }),
    }
}

/// The tables of all bitfields.
fn bit_tables(alloc: Global, names: &Names<'_>) -> Result<Vec<BitTable>, NoMemory>
    ensures all { IfOk result (λ v. length v.items ≡ length (bitfields names.now)) }
    ensures each { IfOk result (λ v. Each (IsBits names.now) v.items) }
{
    let bitfields = names.bitfields();
    let mut tables = Vec::new(alloc);
    for n in 0..bitfields.len() {
        tables.push(bit_table(alloc, &bitfields[n].tree)?)?;
    }
    Ok(tables)
}

fn numbered_type(types: &[Type], number: usize) -> Result<Option<Type>, NoMemory>
    ensures { IfOk result (λ t. t ≡ slice_get types.now number) }
{
    match types.get(number) {
        Some(found) => Ok(Some(found.copy()?)),
        None => Ok(None),
    }
}

/// The type of a member of a kind: where these begin, and its number.
fn kind_type(
    stored: &[Option<Type>],
    first: u32,
    number: u32,
    kind: MemberKind,
) -> Result<Type, NoMemory>
    ensures { IfOk result (λ t. t ≡ kind_type (from_first (told stored.now) first) number kind) }
{
    match kind {
        MemberKind::Sink => Ok(Type::word(Word::Sink)),
        _ => known_type(stored, first as usize + number as usize),
    }
}

fn kind_member(ty: Type, number: u32, kind: MemberKind) -> Member
    ensures { result ≡ kind_member ty number kind }
{
    let op = match kind {
        MemberKind::Field => OneOp::Field(number),
        MemberKind::Variable => OneOp::Variable(number),
        MemberKind::Sink => OneOp::SinkOf(number),
    };
    Member { op, ty }
}

/// The member of a unit that has a name.
fn member_in(
    table: &UnitTable,
    stored: &[Option<Type>],
    name: &str,
) -> Result<Option<Member>, NoMemory>
    ensures { IfOk result (λ m. (ms : List UnitMember) → IsKept table.now.members ms
        → m ≡ unit_member (from_first (told stored.now) table.now.first) ms
        (numbered name.now 0 ms)) }
{
    let Some(number) = look_up(&table.members.names, name) else {
        return Ok(None);
    };
    match table.members.kinds.get(number as usize) {
        Some(kind) => {
            let ty = kind_type(stored, table.first, number, *kind)?;
            Ok(Some(kind_member(ty, number, *kind)))
        }
        None => Ok(None),
    }
}

/// The range of a bitfield that has a name.
fn range_in(table: &BitTable, name: &str) -> Result<Option<Member>, NoMemory>
    ensures { IfOk result (λ m. m
        ≡ bit_member table.now.width (told_by table.now.ranges name.now)) }
{
    match look_up(&table.ranges, name) {
        Some(number) => Ok(Some(Member {
            op: OneOp::Bit(number),
            ty: table.width.copy()?,
        })),
        None => Ok(None),
    }
}

/// The tables of a list of modules, for the types of its type declarations. Clauses see the list and these types.
#[derive(Drop)]
pub struct Tables<'a> {
    pub(crate) names: &'a Names<'a>,
    pub(crate) known: &'a [Option<Type>],
    pub(crate) units: Vec<UnitTable>,
    pub(crate) functions: Vec<FunctionTable>,
    pub(crate) bits: Vec<BitTable>,
}

impl<'a> Model for Tables<'a> {
    ghost use Rattle.std.specs.Prelude.{List, Option};
    ghost use Rattle.std.specs.Coded.{codes, coded_list, coded_option, coded×};
    ghost use Rattle.sp_ast.specs.Trees.{Tree as Data};
    ghost use Rattle.sp_ast.specs.inside.TreeCodes.{coded_tree};
    ghost use Rattle.sp_types.specs.Types.{Ty};
    ghost use Rattle.sp_types.specs.contracts.types.Type as type_row;
    ghost use Rattle.sp_solver.specs.Told.{told};
    ghost use Rattle.sp_type_modules.specs.inside.Tables.{AreTables};

    ghost Value = { List Data × List (Option Ty) };

    ghost coded = { coded× (coded_list (coded_tree (Prim.hlevel codes)))
        (coded_list (coded_option type_row.the_row.coded)) };

    ghost view = { λ t. (t.names.now, t.known.now) };

    ghost invariant = { λ t. AreTables t.names.now (told t.known.now)
        t.units.items t.functions.items t.bits.items };
}

impl<'a> Tables<'a> {
    /// The tables of a list of modules, where `known` has the types of type declarations by their numbers.
    pub fn new(
        alloc: Global,
        names: &'a Names<'a>,
        known: &'a [Option<Type>],
    ) -> Result<Tables<'a>, NoMemory>
        ensures { IfOk result (λ t. t ≡ (names.now, known.now)) }
    {
        let units = unit_tables(alloc, names, known)?;
        let functions = function_tables(alloc, names, known)?;
        let bits = bit_tables(alloc, names)?;
        Ok(Tables {
            names,
            known,
            units,
            functions,
            bits,
        })
    }

    /// The names of the modules.
    pub fn names(&self) -> &Names<'a>
        ensures { result.now ≡ self.now.0 }
    {
        self.names
    }

    /// The types of the type declarations, by their numbers.
    pub fn known(&self) -> &[Option<Type>]
        ensures { result.now ≡ self.now.1 }
    {
        self.known
    }

    /// The member of a unit that has a name, where `stored` has the types of what is stored in the members of all units.
    pub fn unit_member(
        &self,
        stored: &[Option<Type>],
        unit: u32,
        name: &str,
    ) -> Result<Option<Member>, NoMemory>
        ensures { IfOk result (λ m. m ≡ unit_member (stored_by self.now.0 (told stored.now) unit)
            (unit_members self.now.0 unit) (numbered name.now 0 (unit_members self.now.0 unit))) }
    {
        match self.units.get(unit as usize) {
            Some(table) => member_in(table, stored, name),
            None => Ok(None),
        }
    }

    /// The range of a bitfield that has a name.
    pub fn bit_member(&self, bitfield: u32, name: &str) -> Result<Option<Member>, NoMemory>
        ensures { IfOk result (λ m. m ≡ bit_member
            (width_type (bitfield_width (bitfield_tree self.now.0 bitfield)))
            (range_number self.now.0 bitfield name.now)) }
    {
        match self.bits.get(bitfield as usize) {
            Some(table) => range_in(table, name),
            None => Ok(None),
        }
    }

    /// The type of the parameter of a number of a unit.
    pub fn unit_takes(&self, unit: u32, number: usize) -> Result<Option<Type>, NoMemory>
        ensures { IfOk result (λ t. t ≡ slice_get (unit_takes self.now.0 (told self.now.1) unit)
            number) }
    {
        match self.units.get(unit as usize) {
            Some(table) => numbered_type(&table.takes, number),
            None => Ok(None),
        }
    }

    /// The type of the parameter of a number of a function.
    pub fn function_takes(&self, function: u32, number: usize) -> Result<Option<Type>, NoMemory>
        ensures { IfOk result (λ t. t ≡ slice_get (function_takes self.now.0 (told self.now.1)
            function) number) }
    {
        match self.functions.get(function as usize) {
            Some(table) => numbered_type(&table.takes, number),
            None => Ok(None),
        }
    }

    /// The type of what a function gives.
    pub fn function_gives(&self, function: u32) -> Result<Type, NoMemory>
        ensures { IfOk result (λ t. t ≡ function_gives self.now.0 (told self.now.1) function) }
    {
        match self.functions.get(function as usize) {
            Some(table) => table.gives.copy(),
            None => Ok(Type::word(Word::Unknown)),
        }
    }
}
