// What events tell, and whether hooks are written as their events want them.
ghost use Rattle.std.specs.Prelude.{◌≡◌};
ghost use Rattle.sp_type_functions.specs.Events.{event_tells, is_sink_event, is_of_sink, is_of_elements, is_told, are_told, fits};

use sp_numbers::Width;
use sp_typed_units::{HookOf, Parameter};
use sp_types::{Type, Word};
use sp_words::HookName;

fn is_sink_event(event: HookName) -> bool
    ensures { result ≡ is_sink_event event }
{
    matches!(
        event,
        HookName::Gap | HookName::Skipped | HookName::Overlap | HookName::Undelivered
    )
}

pub(crate) fn is_of_sink(of: HookOf) -> bool
    ensures { result ≡ is_of_sink of }
{
    match of {
        HookOf::Unit(_, event) => is_sink_event(event),
        _ => false,
    }
}

pub(crate) fn is_of_elements(of: HookOf) -> bool
    ensures { result ≡ is_of_elements of }
{
    matches!(of, HookOf::Elements(..) | HookOf::AnonymousElements(_))
}

/// Whether a parameter is plain and of the type that is told.
fn is_told(word: Word, parameter: &Parameter) -> bool
    ensures { result ≡ is_told word parameter.now }
{
    !parameter.inout && (!parameter.ty.is_known() || parameter.ty.same(&Type::word(word)))
}

/// Whether these are the parameters of what tells this. It goes no deeper than what is told is long.
fn are_told(words: &[Word], parameters: &[Parameter]) -> bool
    ensures { result ≡ are_told words.now parameters.now }
{
    match (words.split_first(), parameters.split_first()) {
        (None, None) => true,
        (Some((word, words)), Some((parameter, parameters))) => {
            is_told(*word, parameter) && are_told(words, parameters)
        }
        _ => false,
    }
}

/// Whether these are the parameters of an event.
fn event_fits(event: HookName, parameters: &[Parameter]) -> bool
    ensures { result ≡ are_told (event_tells event) parameters.now }
{
    let number = Word::Uint(Width::W64);
    match event {
        HookName::Gap => are_told(&[number, number], parameters),
        HookName::Skipped => are_told(&[number], parameters),
        HookName::Overlap => are_told(&[number, Word::Bytes, Word::Bytes], parameters),
        HookName::Undelivered => are_told(&[number, Word::Bytes], parameters),
        _ => are_told(&[], parameters),
    }
}

/// Whether a hook is written as what it is of wants it.
pub fn fits(of: HookOf, each: bool, container: bool, parameters: &[Parameter]) -> bool
    ensures { result ≡ fits of each container parameters.now }
{
    match of {
        HookOf::Nothing => true,
        HookOf::Unit(_, event) => !each && event_fits(event, parameters),
        HookOf::Field(..) | HookOf::Anonymous(_) => are_told(&[], parameters),
        HookOf::Elements(..) | HookOf::AnonymousElements(_) => {
            container && are_told(&[], parameters)
        }
    }
}
