// The names of a list of modules.
ghost use Rattle.std.specs.Prelude.{◌≡◌, IfOk, slice_get};
ghost use Rattle.sp_names.specs.Declarations.{rows, all_of, sort_at, number_at, module_name, module_at};
ghost use Rattle.sp_names.specs.declared.sort.DeclSort.TheVariants as sort_is;
ghost use Rattle.sp_names.specs.Names.{byte_orders, bit_orders, charsets, strategies, library_names, library_labels, place_among, module_named, declared, is_imported, imported_scope, visible, label_in, named_in, own_name, is_name};
ghost use Rattle.sp_names.specs.Types.{bitfields, bitfield_number};

use crate::bitfields::{PlaceTable, all_bitfields, number_at};
use crate::passes::{LIBRARY_ENUMS, Sorted, all_labels, all_names, all_rows, all_sorted};
use crate::rows::{Bitfield, Declaration};
use crate::sort::{DeclSort, Meaning, Scope};
use crate::table::{ModuleNames, module_table};
use crate::tell::{name_of, sort_of};
use sp_ast::Module;
use sp_base::{NoMemory, or_drop};
use sp_name_tables::{NameTable, look_up};
use std::alloc::Global;
use std::marker::Model;

/// The names of a list of modules: tables of their declarations, made in one pass each. Clauses see the list of the modules'
/// trees.
#[derive(Drop)]
pub struct Names<'a> {
    modules: &'a [Module],
    rows: Vec<Declaration<'a>>,
    numbers: Vec<u32>,
    sorted: Sorted,
    names: Vec<ModuleNames>,
    by_name: NameTable,
    labels: Vec<NameTable>,
    bits: Vec<Bitfield<'a>>,
    places: Vec<PlaceTable>,
}

impl<'a> Model for Names<'a> {
    ghost use Rattle.std.specs.Prelude.{List};
    ghost use Rattle.std.specs.Coded.{codes, coded_list};
    ghost use Rattle.sp_ast.specs.Trees.{Tree as Data};
    ghost use Rattle.sp_ast.specs.inside.TreeCodes.{coded_tree};
    ghost use Rattle.sp_names.specs.Tables.{AreTables};

    ghost Value = { List Data };

    ghost coded = { coded_list (coded_tree (Prim.hlevel codes)) };

    ghost view = { λ n. n.modules.now };

    ghost invariant = { λ n. AreTables n.modules.now n.rows.items n.numbers.items n.sorted
        n.names.items n.by_name n.labels.items n.bits.items n.places.items };
}

/// The place of a byte order, a bit order, a charset, and a strategy among those of the library.
fn byte_order(name: &str) -> Option<u32>
    ensures { result ≡ place_among name.now 0 byte_orders }
{
    if name == "Little" {
        Some(0)
    } else if name == "Big" {
        Some(1)
    } else if name == "Network" {
        Some(2)
    } else {
        None
    }
}

fn bit_order(name: &str) -> Option<u32>
    ensures { result ≡ place_among name.now 0 bit_orders }
{
    if name == "LSB0" {
        Some(0)
    } else if name == "MSB0" {
        Some(1)
    } else {
        None
    }
}

fn charset(name: &str) -> Option<u32>
    ensures { result ≡ place_among name.now 0 charsets }
{
    if name == "UTF8" {
        Some(0)
    } else if name == "ASCII" {
        Some(1)
    } else {
        None
    }
}

fn strategy(name: &str) -> Option<u32>
    ensures { result ≡ place_among name.now 0 strategies }
{
    if name == "IGNORE" {
        Some(0)
    } else if name == "REPLACE" {
        Some(1)
    } else if name == "STRICT" {
        Some(2)
    } else {
        None
    }
}

fn library_label(owner: u32, name: &str) -> Option<u32>
    ensures { result ≡ place_among name.now 0 (library_labels owner) }
{
    if owner == 0 {
        byte_order(name)
    } else if owner == 1 {
        bit_order(name)
    } else if owner == 2 {
        charset(name)
    } else {
        strategy(name)
    }
}

fn library_enum(name: &str) -> Option<u32>
    ensures { result ≡ place_among name.now 0 library_names }
{
    if name == "ByteOrder" {
        Some(0)
    } else if name == "BitOrder" {
        Some(1)
    } else if name == "Charset" {
        Some(2)
    } else if name == "DecodeErrorStrategy" {
        Some(3)
    } else {
        None
    }
}

impl<'a> Names<'a> {
    /// The names of a list of modules.
    pub fn new(alloc: Global, modules: &'a [Module]) -> Result<Names<'a>, NoMemory>
        ensures { IfOk result (λ names. names ≡ modules.now) }
    {
        let rows = all_rows(alloc, modules)?;
        let (sorted, numbers) = or_drop!(all_sorted(alloc, &rows); rows);
        let labels = or_drop!(all_labels(alloc, &rows, &sorted.enums); rows, sorted, numbers);
        let names = or_drop!(all_names(alloc, modules); rows, sorted, numbers, labels);
        let by_name = or_drop!(module_table(alloc, modules); rows, sorted, numbers, labels, names);
        let (bits, places) =
            or_drop!(all_bitfields(alloc, modules); rows, sorted, numbers, labels, names, by_name);
        Ok(Names {
            modules,
            rows,
            numbers,
            sorted,
            names,
            by_name,
            labels,
            bits,
            places,
        })
    }

    /// The modules.
    pub fn modules(&self) -> &'a [Module]
        ensures { result.now ≡ self.now }
    {
        self.modules
    }

    /// The name of the module of a number; of none it is empty.
    pub fn module_name(&self, number: u32) -> &'a str
        ensures { result.now ≡ module_name (module_at self.now number) }
    {
        match self.modules.get(number as usize) {
            Some(whole) => name_of(whole),
            None => "",
        }
    }

    /// All declarations, in the order of their numbers.
    pub fn rows(&self) -> &[Declaration<'a>]
        ensures { result.now ≡ rows self.now }
    {
        &self.rows
    }

    /// The declaration numbers of all units.
    pub fn units(&self) -> &[u32]
        ensures { result.now ≡ all_of sort_is.Unit self.now }
    {
        &self.sorted.units
    }

    /// The declaration numbers of all enums that are not of the library: that of enum n stands at `n - LIBRARY_ENUMS`.
    pub fn enums(&self) -> &[u32]
        ensures { result.now ≡ all_of sort_is.Enum self.now }
    {
        &self.sorted.enums
    }

    /// The declaration numbers of all constants.
    pub fn constants(&self) -> &[u32]
        ensures { result.now ≡ all_of sort_is.Constant self.now }
    {
        &self.sorted.constants
    }

    /// The declaration numbers of all functions.
    pub fn functions(&self) -> &[u32]
        ensures { result.now ≡ all_of sort_is.Function self.now }
    {
        &self.sorted.functions
    }

    /// The types of all bitfields, in the order of their numbers.
    pub fn bitfields(&self) -> &[Bitfield<'a>]
        ensures { result.now ≡ bitfields self.now }
    {
        &self.bits
    }

    /// What a declaration declares. Where there is none, no name: [`DeclSort::Property`].
    pub fn sort(&self, declaration: u32) -> DeclSort
        ensures { result ≡ sort_at self.now declaration }
    {
        match self.rows.get(declaration as usize) {
            Some(row) => sort_of(&row.tree),
            None => DeclSort::Property,
        }
    }

    /// The number of a unit, an enum, a constant or a function among those of its sort; 0 of all others.
    pub fn number(&self, declaration: u32) -> u32
        ensures { result ≡ number_at self.now declaration }
    {
        match self.numbers.get(declaration as usize) {
            Some(number) => *number,
            None => 0,
        }
    }

    /// The number of the bitfield whose type begins at a place of a module's text.
    pub fn bitfield_number(&self, owner: u32, place: u32) -> Option<u32>
        ensures { result ≡ bitfield_number self.now owner place }
    {
        match self.places.get(owner as usize) {
            Some(table) => number_at(table, place),
            None => None,
        }
    }

    /// The first module of a name.
    pub fn module_named(&self, name: &str) -> Option<u32>
        ensures { result ≡ module_named self.now name.now }
    {
        look_up(&self.by_name, name)
    }

    /// The first type, constant or function of a name in a module, by its number among all declarations.
    pub fn declared(&self, owner: u32, name: &str) -> Option<u32>
        ensures { result ≡ declared self.now owner name.now }
    {
        match self.names.get(owner as usize) {
            Some(names) => look_up(&names.declared, name),
            None => None,
        }
    }

    fn is_imported(&self, owner: u32, name: &str) -> bool
        ensures { result ≡ is_imported self.now owner name.now }
    {
        match self.names.get(owner as usize) {
            Some(names) => look_up(&names.imported, name).is_some(),
            None => false,
        }
    }

    fn imported_scope(&self, name: &str) -> Option<Scope>
        ensures { result ≡ imported_scope self.now name.now }
    {
        if name == "spicy" {
            return Some(Scope::Spicy);
        }
        if name == "filter" {
            return Some(Scope::Filter);
        }
        match self.module_named(name) {
            Some(number) => Some(Scope::Module(number)),
            None => None,
        }
    }

    fn is_own(&self, owner: u32, name: &str) -> bool
        ensures { result ≡ is_name name.now (own_name (slice_get self.now owner)) }
    {
        match self.modules.get(owner as usize) {
            Some(whole) => name == name_of(whole),
            None => false,
        }
    }

    /// The module that a name names in a module: itself, or one that it imports. What an imported module imports is not
    /// visible.
    pub fn visible(&self, owner: u32, name: &str) -> Option<Scope>
        ensures { result ≡ visible self.now owner name.now }
    {
        if self.is_own(owner, name) {
            return Some(Scope::Module(owner));
        }
        if self.is_imported(owner, name) {
            return self.imported_scope(name);
        }
        None
    }

    /// The place of a label among those of an enum, which may be one of the library.
    pub fn label(&self, owner: u32, name: &str) -> Option<u32>
        ensures { result ≡ label_in self.now owner name.now }
    {
        if owner < LIBRARY_ENUMS {
            return library_label(owner, name);
        }
        match self.labels.get((owner - LIBRARY_ENUMS) as usize) {
            Some(table) => look_up(table, name),
            None => None,
        }
    }

    /// What a name names in a visible module. Names need not be public.
    pub fn named_in(&self, scope: Scope, name: &str) -> Option<Meaning>
        ensures { result ≡ named_in self.now scope name.now }
    {
        match scope {
            Scope::Module(number) => match self.declared(number, name) {
                Some(declaration) => Some(Meaning::Declaration(declaration)),
                None => None,
            },
            Scope::Spicy => match library_enum(name) {
                Some(number) => Some(Meaning::LibraryEnum(number)),
                None => None,
            },
            Scope::Filter => {
                if name == "Base64Decode" {
                    Some(Meaning::Decoder)
                } else {
                    None
                }
            }
        }
    }
}
