// Where a type is written, and which types can stand there.
ghost use Rattle.std.specs.Prelude.{◌≡◌};
ghost use Rattle.sp_type_context.specs.Places.{is_unit, suits, standing, parameter_place};

use sp_types::{Level, Type, Word};

/// Where a type is written, by what can stand there.
#[derive(Clone, Copy)]
pub enum Place {
    /// Behind `=` in the declaration of a type, in a cast, and in a field: what can stand there isn't told by the place alone.
    Whole,
    /// Where a value is kept: a constant, a variable, a parameter, what a function gives, a local without a value, a member of a
    /// tuple, an element of a vector, and a value of a map.
    Value,
    /// As the key of a set or a map.
    Key,
    /// As a parameter with `inout`.
    Inout,
    /// As a local with a value.
    Local,
}

fn is_unit(t: &Type) -> bool
    ensures { result ≡ is_unit t.now }
{
    matches!(t.level(), Level::Word(Word::Unit(_)))
}

/// Whether a type can stand at a place.
pub fn suits(place: Place, t: &Type) -> bool
    ensures { result ≡ suits place t.now }
{
    match place {
        Place::Whole => true,
        Place::Value => t.is_plain(),
        Place::Key => t.is_key(),
        Place::Inout => is_unit(t) || !t.is_known(),
        Place::Local => t.is_plain() || is_unit(t),
    }
}

/// The type of what is declared with a type that is written at a place; `Unknown` where that can't stand there.
pub fn standing(place: Place, t: Type) -> Type
    ensures { result ≡ standing place t }
{
    if suits(place, &t) {
        t
    } else {
        Type::word(Word::Unknown)
    }
}

/// Where the type of a parameter stands.
pub fn parameter_place(inout: bool) -> Place
    ensures { result ≡ parameter_place inout }
{
    if inout { Place::Inout } else { Place::Value }
}
