// The enums of the library, as they stand in the typed list.
ghost use Rattle.std.specs.Prelude.{◌≡◌, [], ◌∷◌, ◌++◌, IfOk, OnOk};
ghost use Rattle.sp_names.specs.Names.{library_names, byte_orders, bit_orders, charsets, strategies};
ghost use Rattle.sp_type_values.specs.TypedRows.{name_in_module, library_label, library_rows, library_enum, library_enums_from};

use sp_base::{NoMemory, Span, Text, or_drop};
use sp_typed_units::{Enum, Label, LabelNumber, Row};
use std::alloc::Global;

/// A name behind that of its module.
pub(crate) fn name_in_module(alloc: Global, owner: &str, name: &str) -> Result<Text, NoMemory>
    ensures { IfOk result (λ t. t ≡ name_in_module owner.now name.now) }
{
    let mut text = String::from_str(alloc, owner)?;
    or_drop!(text.push_str("::"); text);
    or_drop!(text.push_str(name); text);
    Text::from_string(text)
}

/// A label of the library, which has the number of its place.
fn library_label(alloc: Global, name: &str, number: u64) -> Result<Label, NoMemory>
    ensures { IfOk result (λ l. l ≡ library_label name.now number) }
{
    Ok(Label {
        name: Text::new(alloc, name)?,
        span: Span { from: 0, to: 0 },
        expr: None,
        number: LabelNumber::Number(number),
    })
}

/// Puts a label of the library behind others.
fn add_label(
    alloc: Global,
    labels: &mut Row<Label>,
    name: &str,
    number: u64,
) -> Result<(), NoMemory>
    ensures { OnOk result (labels.new ≡ labels.old ++ library_label name.now number ∷ []) }
{
    let label = library_label(alloc, name, number)?;
    labels.push(label)
}

fn two_labels(alloc: Global, first: &str, second: &str) -> Result<Row<Label>, NoMemory>
    ensures { IfOk result (λ r. r ≡ library_rows 0 (first.now ∷ second.now ∷ [])) }
{
    let mut labels = Row::new(alloc);
    or_drop!(add_label(alloc, &mut labels, first, 0); labels);
    or_drop!(add_label(alloc, &mut labels, second, 1); labels);
    Ok(labels)
}

fn three_labels(
    alloc: Global,
    first: &str,
    second: &str,
    third: &str,
) -> Result<Row<Label>, NoMemory>
    ensures { IfOk result (λ r. r ≡ library_rows 0 (first.now ∷ second.now ∷ third.now ∷ [])) }
{
    let mut labels = two_labels(alloc, first, second)?;
    or_drop!(add_label(alloc, &mut labels, third, 2); labels);
    Ok(labels)
}

/// An enum of the library.
fn library_enum(alloc: Global, name: &str, labels: Row<Label>) -> Result<Enum, NoMemory>
    ensures { IfOk result (λ e. e ≡ library_enum name.now labels) }
{
    let path = or_drop!(name_in_module(alloc, "spicy", name); labels);
    Ok(Enum {
        path,
        module: 0,
        span: Span { from: 0, to: 0 },
        labels,
    })
}

/// Puts an enum of the library behind others.
fn add_enum(
    alloc: Global,
    list: &mut Vec<Enum>,
    name: &str,
    labels: Row<Label>,
) -> Result<(), NoMemory>
    ensures { OnOk result (list.new.items ≡ list.old.items ++ library_enum name.now labels ∷ []) }
{
    let next = library_enum(alloc, name, labels)?;
    list.push(next)?;
    Ok(())
}

/// Puts an enum of two labels behind others.
fn add_of_two(
    alloc: Global,
    list: &mut Vec<Enum>,
    name: &str,
    first: &str,
    second: &str,
) -> Result<(), NoMemory>
    ensures { OnOk result (list.new.items ≡ list.old.items
        ++ library_enum name.now (library_rows 0 (first.now ∷ second.now ∷ [])) ∷ []) }
{
    let labels = two_labels(alloc, first, second)?;
    add_enum(alloc, list, name, labels)
}

/// Puts an enum of three labels behind others.
fn add_of_three(
    alloc: Global,
    list: &mut Vec<Enum>,
    name: &str,
    first: &str,
    second: &str,
    third: &str,
) -> Result<(), NoMemory>
    ensures { OnOk result (list.new.items ≡ list.old.items
        ++ library_enum name.now (library_rows 0 (first.now ∷ second.now ∷ third.now ∷ [])) ∷ []) }
{
    let labels = three_labels(alloc, first, second, third)?;
    add_enum(alloc, list, name, labels)
}

/// The enums of the library, in the order of their numbers.
pub(crate) fn library_enums(alloc: Global) -> Result<Vec<Enum>, NoMemory>
    ensures { IfOk result (λ v. v.items ≡ library_enums_from 0 library_names) }
{
    let mut list = Vec::new(alloc);
    or_drop!(
        add_of_three(alloc, &mut list, "ByteOrder", "Little", "Big", "Network");
        list
    );
    or_drop!(add_of_two(alloc, &mut list, "BitOrder", "LSB0", "MSB0"); list);
    or_drop!(add_of_two(alloc, &mut list, "Charset", "UTF8", "ASCII"); list);
    or_drop!(
        add_of_three(alloc, &mut list, "DecodeErrorStrategy", "IGNORE", "REPLACE", "STRICT");
        list
    );
    Ok(list)
}
