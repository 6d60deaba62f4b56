// The unit that runs.
ghost use Rattle.std.specs.Prelude.{◌≡◌, ◌<◌, length, drop, option_map, IfSome};
ghost use Rattle.sp_choose.specs.Choices.{takes_nothing, is_parser, is_asked, first_asked, where_none, only_from, chosen};
ghost use Rattle.sp_choose.specs.Laws.{IsChoice};

use sp_typed_units::{Parameter, Unit};

fn takes_nothing(parameters: &[Parameter]) -> bool
    ensures { result ≡ takes_nothing parameters.now }
{
    parameters.is_empty()
}

/// Whether a unit can read an input by itself: it is public, takes no arguments, and is no filter.
pub fn is_parser(unit: &Unit) -> bool
    ensures { result ≡ is_parser unit.now }
{
    unit.public && takes_nothing(unit.parameters.as_slice()) && !unit.filter
}

/// Whether a unit is asked for: it is a parser, and has the name, where there is one.
fn is_asked(name: Option<&str>, unit: &Unit) -> bool
    ensures { result ≡ is_asked (option_map (λ x. x.now) name.entry) unit.now }
{
    match name {
        Some(path) => is_parser(unit) && unit.path.as_str() == path,
        None => is_parser(unit),
    }
}

/// The number of the first unit from a place on that is asked for.
fn first_from(name: Option<&str>, units: &[Unit], from: usize) -> Option<usize>
    ensures first { result ≡ first_asked (option_map (λ x. x.now) name.entry) from (drop from units.now) }
    ensures inside { IfSome result (λ n. n < length units.now) }
{
    for n in from..units.len() {
        if is_asked(name, &units[n]) {
            return Some(n);
        }
    }
    None
}

/// A number, where there is no other.
fn where_none(other: Option<usize>, n: usize) -> Option<usize>
    ensures number { result ≡ where_none other n }
    ensures same { IfSome result (λ m. m ≡ n) }
{
    match other {
        Some(_) => None,
        None => Some(n),
    }
}

/// The number of the only parser.
fn only_in(units: &[Unit]) -> Option<usize>
    ensures only { result ≡ only_from 0 units.now }
    ensures inside { IfSome result (λ n. n < length units.now) }
{
    for n in 0..units.len() {
        if is_parser(&units[n]) {
            return where_none(first_from(None, units, n + 1), n);
        }
    }
    None
}

/// The number of the parser of a name, or of the only one.
fn number_of(name: Option<&str>, units: &[Unit]) -> Option<usize>
    ensures exact { result ≡ chosen (option_map (λ x. x.now) name.entry) units.now }
    ensures inside { IfSome result (λ n. n < length units.now) }
{
    match name {
        Some(_) => first_from(name, units, 0),
        None => only_in(units),
    }
}

/// The number of the unit that runs, from 0: that of the parser of a name, as `M::U`, or, without a name, of the parser where there is
/// exactly one. Takes no memory.
pub fn chosen(name: Option<&str>, units: &[Unit]) -> Option<usize>
    ensures exact { result ≡ chosen (option_map (λ x. x.now) name.entry) units.now }
    ensures choice { IsChoice (option_map (λ x. x.now) name.entry) units.now result }
    ensures inside { IfSome result (λ n. n < length units.now) }
{
    number_of(name, units)
}
