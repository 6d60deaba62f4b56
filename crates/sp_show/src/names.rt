// The names of a program, by their numbers.
ghost use Rattle.std.specs.Prelude.{◌≡◌, IfOk};
ghost use Rattle.sp_code.specs.Programs.{names_of};
ghost use Rattle.sp_events.specs.TreeView.{tree_of};
ghost use Rattle.sp_meaning_states.specs.Telling.{names_at, label_tree, named_ranges};

use sp_base::{NoMemory, Text};
use sp_code::Program;
use sp_events::Node;
use std::alloc::Global;

/// The names of a unit's members.
pub(crate) fn member_names(p: &Program, unit: u32) -> &[Text]
    ensures { result.now ≡ names_at (names_of p.now).members unit }
{
    match p.units.get(unit as usize) {
        Some(unit) => unit.members.as_slice(),
        None => &[],
    }
}

/// The labels of an enum: their numbers, and how they are told.
pub(crate) fn labels_of(p: &Program, kind: u32) -> &[(u64, Text)]
    ensures { result.now ≡ names_at (names_of p.now).labels kind }
{
    match p.shapes.enums.get(kind as usize) {
        Some(kind) => kind.labels.as_slice(),
        None => &[],
    }
}

/// The names of a bitfield's ranges.
pub(crate) fn range_names(p: &Program, kind: u32) -> &[Text]
    ensures { result.now ≡ names_at (names_of p.now).ranges kind }
{
    match p.shapes.bitfields.get(kind as usize) {
        Some(kind) => kind.ranges.as_slice(),
        None => &[],
    }
}

/// A label by its number, or the number where no label has it.
pub(crate) fn label_node(labels: &[(u64, Text)], n: u64) -> Result<Node, NoMemory>
    ensures { IfOk result (λ node. tree_of node ≡ label_tree n labels.now) }
{
    for (number, name) in labels {
        if *number == n {
            return Ok(Node::Label(name.copy()?));
        }
    }
    Ok(Node::Unlisted(n))
}

/// The numbers of a bitfield's ranges by name.
pub(crate) fn named_ranges(
    alloc: Global,
    names: &[Text],
    numbers: &[u64],
) -> Result<Vec<(Text, u64)>, NoMemory>
    ensures { IfOk result (λ ranges. ranges.items ≡ named_ranges names.now numbers.now) }
{
    let mut ranges = Vec::new(alloc);
    for (name, n) in names.iter().zip(numbers) {
        ranges.push((name.copy()?, *n))?;
    }
    Ok(ranges)
}
