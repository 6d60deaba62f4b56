// The table of kinds.
ghost use Rattle.std.specs.Prelude.{◌≡◌, ◌<◌, IfOk, IsTrue, List};
ghost use Rattle.sp_methods.specs.Kinds.{Kind};
ghost use Rattle.sp_code.specs.Programs.{kind_of_row};
ghost use Rattle.sp_emit.specs.Kinds.{Grows, IsNumberOf, NamesBelow};

use sp_base::NoMemory;
use sp_code::KindRow;
use std::alloc::Global;
use std::marker::Model;

/// How many numbers of rows are kept at hand.
const RECENT: usize = 256;

/// Kinds by their numbers. Clauses see the list of the kinds.
#[derive(Drop)]
pub struct KindTable {
    rows: Vec<KindRow>,
    /// Numbers of rows that were asked for, each where its row leads. What stands there is compared before it is used.
    recent: [u32; RECENT],
}

impl Model for KindTable {
    ghost use Rattle.std.specs.Prelude.{List};
    ghost use Rattle.std.specs.Coded.{codes};
    ghost use Rattle.sp_methods.specs.Kinds.{Kind};
    ghost use Rattle.sp_emit.specs.inside.KindCodes.{coded_kind};

    ghost Value = { List Kind };

    ghost coded = { Prim.hlevel (codes, coded_kind) };

    ghost use Rattle.sp_emit.specs.inside.Tables.{kinds_in};
    ghost use Rattle.sp_emit.specs.Kinds.{NameEarlier};

    ghost view = { kinds_in };

    ghost invariant = { λ t. NameEarlier 0 t.rows.items };
}

/// Whether both are the same row.
fn is_same(a: &KindRow, b: &KindRow) -> bool
    ensures { IsTrue result → (ks : List Kind) → kind_of_row ks a.now ≡ kind_of_row ks b.now }
{
    match (a, b) {
        (KindRow::Void, KindRow::Void) => true,
        (KindRow::Bool, KindRow::Bool) => true,
        (KindRow::Unsigned, KindRow::Unsigned) => true,
        (KindRow::Signed, KindRow::Signed) => true,
        (KindRow::Bytes, KindRow::Bytes) => true,
        (KindRow::Text, KindRow::Text) => true,
        (KindRow::Iterator, KindRow::Iterator) => true,
        (KindRow::Only(m), KindRow::Only(n)) => *m == *n,
        (KindRow::Enum(m), KindRow::Enum(n)) => *m == *n,
        (KindRow::Bits(j, m), KindRow::Bits(k, n)) => *j == *k && *m == *n,
        (KindRow::Unit(m), KindRow::Unit(n)) => *m == *n,
        (KindRow::Tuple(ms), KindRow::Tuple(ns)) => ms.as_slice() == ns.as_slice(),
        (KindRow::Vector(m), KindRow::Vector(n)) => *m == *n,
        (KindRow::Set(m), KindRow::Set(n)) => *m == *n,
        (KindRow::Map(j, m), KindRow::Map(k, n)) => *j == *k && *m == *n,
        _ => false,
    }
}

/// Some number of a row, so that those of different rows mostly differ.
fn spread(row: &KindRow) -> u64 {
    match row {
        KindRow::Void => 0,
        KindRow::Bool => 1,
        KindRow::Unsigned => 2,
        KindRow::Signed => 3,
        KindRow::Bytes => 4,
        KindRow::Text => 5,
        KindRow::Iterator => 6,
        KindRow::Only(n) => n.wrapping_mul(31).wrapping_add(7),
        KindRow::Enum(n) => mixed(8, *n),
        KindRow::Bits(n, _) => mixed(9, *n),
        KindRow::Unit(n) => mixed(10, *n),
        KindRow::Tuple(ns) => mixed_all(ns),
        KindRow::Vector(n) => mixed(12, *n),
        KindRow::Set(n) => mixed(13, *n),
        KindRow::Map(m, n) => mixed(mixed(14, *m), *n),
    }
}

fn mixed(before: u64, n: u32) -> u64 {
    before
        .wrapping_mul(0x9e37_79b1)
        .wrapping_add(u64::from(n).wrapping_mul(31))
}

fn mixed_all(numbers: &[u32]) -> u64 {
    let mut all = 11;
    for n in numbers {
        all = mixed(all, *n);
    }
    all
}

/// Where a row leads among the numbers that are kept at hand.
fn place_of(row: &KindRow) -> usize
    ensures { result < RECENT }
{
    (spread(row) % RECENT as u64) as usize
}

/// A count as the number of what comes behind so many. There is no memory for more than a number can tell.
pub fn number(count: usize) -> Result<u32, NoMemory>
    ensures { IfOk result (λ n. n ≡ count) }
{
    if count > u32::MAX as usize {
        return Err(NoMemory);
    }
    Ok(count as u32)
}

impl KindTable {
    ghost use Rattle.std.specs.Prelude.{◌≡◌, [], ◌<◌, length, IfOk, OnOk};
    ghost use Rattle.sp_code.specs.Programs.{kind_of_row, kinds_from};
    ghost use Rattle.sp_emit.specs.Kinds.{Grows, IsNumberOf, NamesBelow};

    /// No kinds. Takes no memory.
    pub fn new(alloc: Global) -> KindTable
        ensures { result ≡ [] }
    {
        KindTable {
            rows: Vec::new(alloc),
            recent: [0; RECENT],
        }
    }

    /// The rows, each of which may name those before it.
    pub fn into_rows(self) -> Vec<KindRow>
        ensures { kinds_from [] result.items ≡ self }
    {
        self.rows
    }

    /// The allocator of its rows.
    pub(crate) fn allocator(&self) -> Global {
        *self.rows.allocator()
    }

    /// The number of the kind of a row, whose parts have numbers already.
    pub fn row(&mut self, row: KindRow) -> Result<u32, NoMemory>
        requires { NamesBelow (length self.old) row }
        ensures number { IfOk result (IsNumberOf self.new (kind_of_row self.old row)) }
        ensures grows { Grows self.old self.new }
    {
        let place = place_of(&row);
        let known = self.recent[place];
        if (known as usize) < self.rows.len() && is_same(&self.rows[known as usize], &row) {
            return Ok(known);
        }
        let next = number(self.rows.len())?;
        self.rows.push(row)?;
        self.recent[place] = next;
        Ok(next)
    }
}
