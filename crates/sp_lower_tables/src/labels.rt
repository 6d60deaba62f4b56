// How events tell labels of enums and ranges of bitfields.
ghost use Rattle.std.specs.Prelude.{◌≡◌, IfOk};
ghost use Rattle.sp_meaning.specs.Globals as globals;
ghost use Rattle.sp_code.specs.Programs as told;
ghost use Rattle.sp_meaning.specs.Names.{own_name, label_names, names_of_labels, range_names, names_of_ranges};

use crate::names::scoped;
use sp_base::{NoMemory, Text, or_drop};
use sp_code::{Labels, Ranges};
use sp_typed_units::{BitRange, Bitfield, Enum, Label, LabelNumber};
use std::alloc::Global;

/// The name of what is declared in a module, behind that of the module.
fn own_name(path: &str) -> &str
    ensures { result.now ≡ own_name path.now }
{
    match path.rsplit_once(':') {
        Some((_, name)) => name,
        None => path,
    }
}

/// The number of a label. One without a number breaks a rule.
fn number_of(number: LabelNumber) -> u64
    ensures { result ≡ globals.number_of number }
{
    match number {
        LabelNumber::Number(n) => n,
        _ => 0,
    }
}

/// Labels by the name of their enum: their numbers, and how they are told.
fn label_names(alloc: Global, owner: &str, labels: &[Label]) -> Result<Vec<(u64, Text)>, NoMemory>
    ensures { IfOk result (λ rows. rows.items ≡ label_names owner.now labels.now) }
{
    let mut rows = Vec::with_capacity(alloc, labels.len())?;
    for label in labels {
        let name = scoped(alloc, owner, label.name.as_str())?;
        or_drop!(rows.push((number_of(label.number), name)); rows);
    }
    Ok(rows)
}

/// The labels of enums, by the numbers of these.
pub fn labels_of(alloc: Global, enums: &[Enum]) -> Result<Vec<Labels>, NoMemory>
    ensures { IfOk result (λ rows. told.label_names rows.items ≡ names_of_labels enums.now) }
{
    let mut rows = Vec::with_capacity(alloc, enums.len())?;
    for one in enums {
        let owner = own_name(one.path.as_str());
        let labels = label_names(alloc, owner, one.labels.as_slice())?;
        rows.push(Labels { labels })?;
    }
    Ok(rows)
}

fn range_names(alloc: Global, ranges: &[BitRange]) -> Result<Vec<Text>, NoMemory>
    ensures { IfOk result (λ names. names.items ≡ range_names ranges.now) }
{
    let mut names = Vec::with_capacity(alloc, ranges.len())?;
    for range in ranges {
        let name = or_drop!(range.name.copy(); names);
        or_drop!(names.push(name); names);
    }
    Ok(names)
}

/// The names of the ranges of bitfields, by the numbers of these.
pub fn ranges_of(alloc: Global, bitfields: &[Bitfield]) -> Result<Vec<Ranges>, NoMemory>
    ensures { IfOk result (λ rows. told.range_names rows.items ≡ names_of_ranges bitfields.now) }
{
    let mut rows = Vec::with_capacity(alloc, bitfields.len())?;
    for bitfield in bitfields {
        let ranges = range_names(alloc, bitfield.ranges.as_slice())?;
        rows.push(Ranges { ranges })?;
    }
    Ok(rows)
}
