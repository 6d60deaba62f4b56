// The rules at an attribute.
ghost use Rattle.std.specs.Prelude.{◌≡◌, ◌≤◌, length, List};
ghost use Rattle.std.proofs.Common.{take, reverse};
ghost use Rattle.sp_rules.specs.Least.{checked};
ghost use Rattle.sp_rule_units.specs.Attributes.{takes_value, is_misvalued, excluded, line_of, same_name, is_among, clash, clashes, attribute_tests, bounds, is_bounded};

use sp_rules::{Fault, Rule, note_at};
use sp_type_fields::{Holder, Kind, may_stand};
use sp_typed_units::Attribute;
use sp_words::AttributeName;

fn takes_value(name: AttributeName) -> bool
    ensures { result ≡ takes_value name }
{
    !matches!(
        name,
        AttributeName::Eod | AttributeName::Try | AttributeName::Synchronize
    )
}

fn is_misvalued(wanted: bool, has: bool) -> bool
    ensures { result ≡ is_misvalued wanted has }
{
    if wanted { !has } else { has }
}

/// Which attribute it is, by its line of the table.
fn line_of(name: AttributeName) -> u8
    ensures { result ≡ line_of name }
{
    match name {
        AttributeName::Size => 0,
        AttributeName::MaxSize => 1,
        AttributeName::Eod => 2,
        AttributeName::Until => 3,
        AttributeName::UntilIncluding => 4,
        AttributeName::While => 5,
        AttributeName::Convert => 6,
        AttributeName::Requires => 7,
        AttributeName::Default => 8,
        AttributeName::ByteOrder => 9,
        AttributeName::BitOrder => 10,
        AttributeName::ParseFrom => 11,
        AttributeName::ParseAt => 12,
        AttributeName::Try => 13,
        AttributeName::Synchronize => 14,
    }
}

fn same_name(a: AttributeName, b: AttributeName) -> bool
    ensures { result ≡ same_name a b }
{
    line_of(a) == line_of(b)
}

/// Whether an attribute excludes another, by its own line of the table.
fn excludes(a: AttributeName, b: AttributeName) -> bool
    ensures { result ≡ is_among b (excluded a) }
{
    match a {
        AttributeName::Size => matches!(b, AttributeName::Eod),
        AttributeName::MaxSize => matches!(b, AttributeName::Size),
        AttributeName::Eod => matches!(
            b,
            AttributeName::Until
                | AttributeName::UntilIncluding
                | AttributeName::While
                | AttributeName::Size
        ),
        AttributeName::Until => matches!(
            b,
            AttributeName::UntilIncluding | AttributeName::While | AttributeName::Eod
        ),
        AttributeName::UntilIncluding => matches!(
            b,
            AttributeName::Until | AttributeName::While | AttributeName::Eod
        ),
        AttributeName::While => matches!(
            b,
            AttributeName::Until | AttributeName::UntilIncluding | AttributeName::Eod
        ),
        AttributeName::ParseFrom => {
            matches!(b, AttributeName::ParseAt | AttributeName::Synchronize)
        }
        AttributeName::ParseAt => {
            matches!(b, AttributeName::ParseFrom | AttributeName::Synchronize)
        }
        AttributeName::Synchronize => {
            matches!(b, AttributeName::ParseFrom | AttributeName::ParseAt)
        }
        AttributeName::Convert
        | AttributeName::Requires
        | AttributeName::Default
        | AttributeName::ByteOrder
        | AttributeName::BitOrder
        | AttributeName::Try => false,
    }
}

fn clash(a: AttributeName, b: AttributeName) -> bool
    ensures { result ≡ clash a b }
{
    same_name(a, b) || excludes(a, b) || excludes(b, a)
}

/// Whether one of those before a place can't stand together with an attribute of this name. It looks from the nearest back to
/// the last one of the same name at most, so a whole list takes time of its length.
#[tactic(auto, using(crate::proofs::Earlier::clashes_back))]
fn clashes(name: AttributeName, all: &[Attribute], before: usize) -> bool
    requires { before ≤ length all.now }
    ensures { result ≡ clashes name (reverse (take before all.now)) }
{
    let mut left = before;
    while left > 0 {
        left -= 1;
        if clash(name, all[left].name) {
            return true;
        }
    }
    false
}

/// Notes what is wrong with an attribute, behind what holds it and on what is read, and with those before it.
pub(crate) fn note_attribute(
    owner: u32,
    holder: Holder,
    kind: Kind,
    all: &[Attribute],
    place: usize,
    attribute: &Attribute,
    least: &mut Option<Fault>,
)
    requires { place ≤ length all.now }
    ensures { least.new ≡ checked least.old (attribute_tests owner holder kind
        (reverse (take place all.now)) attribute.now) }
{
    let name = attribute.name;
    let misused = !may_stand(holder, kind, name);
    let misvalued = is_misvalued(takes_value(name), attribute.value.is_some());
    let clashes = clashes(name, all, place);
    note_at(misused, owner, Rule::BadAttribute, attribute.span, least);
    note_at(misvalued, owner, Rule::BadAttribute, attribute.span, least);
    note_at(clashes, owner, Rule::AttributeClash, attribute.span, least);
}

fn bounds(name: AttributeName) -> bool
    ensures { result ≡ bounds name }
{
    matches!(
        name,
        AttributeName::Size
            | AttributeName::Eod
            | AttributeName::Until
            | AttributeName::UntilIncluding
    )
}

/// Whether one of some attributes says where bytes end.
pub(crate) fn is_bounded(all: &[Attribute]) -> bool
    ensures { result ≡ is_bounded all.now }
{
    for attribute in all {
        if bounds(attribute.name) {
            return true;
        }
    }
    false
}
