// How views are told: an alternative, and its members by their names.
use sp_ast::{Kind, Members, Ref};
use std::alloc::AllocError;

/// The slice of the text on which a tree stands.
pub fn slice<'t, K: Kind>(text: &'t str, tree: &Ref<'_, K>) -> &'t str {
    let span = tree.span();
    text.get(span.from as usize..span.to as usize)
        .unwrap_or("?")
}

/// That of a part, or `-` where it is left out.
pub fn optional<'t, K: Kind>(text: &'t str, tree: &Option<Ref<'_, K>>) -> &'t str {
    match tree {
        Some(tree) => slice(text, tree),
        None => "-",
    }
}

/// Tells the parts in a row, in brackets.
pub fn row<K: Kind>(
    text: &str,
    members: Members<'_, K>,
    got: &mut String,
) -> Result<(), AllocError> {
    got.push_str("[")?;
    let mut first = true;
    for member in members {
        if !first {
            got.push_str(" | ")?;
        }
        first = false;
        got.push_str(slice(text, &member))?;
    }
    got.push_str("]")
}

/// Tells an alternative with members in a row.
pub fn in_row<K: Kind>(
    text: &str,
    name: &str,
    members: Members<'_, K>,
    got: &mut String,
) -> Result<(), AllocError> {
    got.push_str(name)?;
    got.push_str(" ")?;
    row(text, members, got)
}

/// Tells a member in a row by its name; `name` stands as it is, with what is before it.
pub fn named_row<K: Kind>(
    text: &str,
    name: &str,
    members: Members<'_, K>,
    got: &mut String,
) -> Result<(), AllocError> {
    got.push_str(name)?;
    got.push_str(": ")?;
    row(text, members, got)
}

/// Tells one with a member.
pub fn one(got: &mut String, name: &str, member: &str) -> Result<(), AllocError> {
    got.push_str(name)?;
    got.push_str(" ")?;
    got.push_str(member)
}

/// Tells a member by its name; `name` stands as it is, with what is before it.
pub fn named(got: &mut String, name: &str, member: &str) -> Result<(), AllocError> {
    got.push_str(name)?;
    got.push_str(": ")?;
    got.push_str(member)
}

/// Tells two members by their names.
pub fn two(got: &mut String, first: (&str, &str), second: (&str, &str)) -> Result<(), AllocError> {
    named(got, first.0, first.1)?;
    named(got, second.0, second.1)
}

/// Tells three.
pub fn three(
    got: &mut String,
    first: (&str, &str),
    second: (&str, &str),
    third: (&str, &str),
) -> Result<(), AllocError> {
    two(got, first, second)?;
    named(got, third.0, third.1)
}
