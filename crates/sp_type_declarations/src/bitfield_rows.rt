// The bitfields of the typed list.
ghost use Rattle.std.specs.Prelude.{◌≡◌, map, IfOk};
ghost use Rattle.sp_ast.specs.Views.{optional_tree};
ghost use Rattle.sp_type_modules.specs.Members.{written_number};
ghost use Rattle.sp_type_declarations.specs.Bitfields.{last_number, bit_range, typed_bitfield, typed_bitfields};

use sp_ast::{Members, NumberKind, RangeKind, Ref, TypeView};
use sp_base::{NoMemory, Span, Text, or_drop};
use sp_names::Names;
use sp_typed_units::{BitRange, Bitfield, Row};
use std::alloc::Global;

fn written_number(tree: &Ref<'_, NumberKind>) -> u64
    ensures { result ≡ written_number tree.now }
{
    tree.value()
}

/// The last number of a range: the first one, where one is written.
fn last_number<'a>(
    first: &Ref<'a, NumberKind>,
    last: &Option<Ref<'a, NumberKind>>,
) -> Ref<'a, NumberKind>
    ensures { result ≡ last_number first.now (optional_tree last.now) }
{
    match last {
        Some(last) => {
            // (that it is a number shows that it is there)
            last.value();
            last.again()
        }
        None => first.again(),
    }
}

fn bit_range(alloc: Global, tree: &Ref<'_, RangeKind>) -> Result<BitRange, NoMemory>
    ensures { IfOk result (λ r. r ≡ bit_range tree.now) }
{
    let view = tree.view();
    let last = last_number(&view.first, &view.last);
    Ok(BitRange {
        name: Text::new(alloc, view.name.text())?,
        span: view.name.span(),
        from: written_number(&view.first),
        from_span: view.first.span(),
        to: written_number(&last),
        to_span: last.span(),
    })
}

fn bit_ranges(alloc: Global, ranges: Members<'_, RangeKind>) -> Result<Vec<BitRange>, NoMemory>
    ensures { IfOk result (λ v. v.items ≡ map bit_range ranges.entry) }
{
    let mut list = Vec::new(alloc);
    for range in ranges {
        let written = or_drop!(bit_range(alloc, &range); list);
        or_drop!(list.push(written); list);
    }
    Ok(list)
}

fn typed_bitfield(alloc: Global, row: &sp_names::Bitfield<'_>) -> Result<Bitfield, NoMemory>
    ensures { IfOk result (λ b. b ≡ typed_bitfield row.now) }
{
    let owner = row.module;
    match row.tree.view() {
        TypeView::Bitfield { width, ranges } => Ok(Bitfield {
            module: owner,
            width: written_number(&width),
            width_span: width.span(),
            ranges: Row::from_vec(bit_ranges(alloc, ranges)?),
        }),
        _ => Ok(Bitfield {
            module: owner,
            width: 0,
            width_span: Span { from: 0, to: 0 },
            ranges: Row::new(alloc),
        }),
    }
}

/// All bitfields of a list of modules, by their numbers: each with its width and its ranges as they are written. A range of
/// one bit begins and ends there.
pub fn bitfields(alloc: Global, names: &Names<'_>) -> Result<Vec<Bitfield>, NoMemory>
    ensures { IfOk result (λ v. v.items ≡ typed_bitfields names.now) }
{
    let rows = names.bitfields();
    let mut list = Vec::new(alloc);
    for i in 0..rows.len() {
        let bitfield = or_drop!(typed_bitfield(alloc, &rows[i]); list);
        or_drop!(list.push(bitfield); list);
    }
    Ok(list)
}
