// The parts of trees: what is read (`type`, `expr` or `stmt`), ` :: ` and the text. Of the tree that is read each part is told by
// the slice of the text on which it stands, parts in a row in brackets, and a part that is left out as `-`; a `;` is between
// them. Where the text is refused the answer is the refusal's number and its byte.
use crate::texts::put;
use sp_ast::{Level, Parts, TreeRef};
use sp_base::Span;
use sp_lex::{ReadFault, Tokens, lex};
use sp_read_expr::{read_expr, read_stmt, read_type};
use std::alloc::{AllocError, Global};

/// A slice of the text.
fn slice_of<'t>(text: &'t str, span: Span) -> &'t str {
    text.get(span.from as usize..span.to as usize)
        .unwrap_or("?")
}

/// The slice of the text on which a tree stands, if it has one.
fn slice<'t>(text: &'t str, tree: &TreeRef<'_>) -> &'t str {
    match tree.level() {
        Level::Of(_, span, _) => slice_of(text, span),
        Level::Absent | Level::Row(_) => "?",
    }
}

/// Puts a word behind the others, with what stands between them.
fn add(got: &mut String, first: bool, word: &str) -> Result<(), AllocError> {
    if !first {
        got.push_str(" ; ")?;
    }
    got.push_str(word)
}

/// The slices of trees, one behind the other.
fn put_slices(text: &str, trees: Parts<'_>, got: &mut String) -> Result<(), AllocError> {
    let mut first = true;
    for tree in trees {
        add(got, first, slice(text, &tree))?;
        first = false;
    }
    Ok(())
}

/// A part by its slice, a row by those of its parts.
fn put_part(
    text: &str,
    tree: &TreeRef<'_>,
    first: bool,
    got: &mut String,
) -> Result<(), AllocError> {
    match tree.level() {
        Level::Absent => add(got, first, "-"),
        Level::Row(row) => {
            add(got, first, "[")?;
            put_slices(text, row, got)?;
            got.push_str("]")
        }
        Level::Of(_, span, _) => add(got, first, slice_of(text, span)),
    }
}

/// The parts, one behind the other.
fn put_parts(text: &str, trees: Parts<'_>, got: &mut String) -> Result<(), AllocError> {
    let mut first = true;
    for tree in trees {
        put_part(text, &tree, first, got)?;
        first = false;
    }
    Ok(())
}

/// The parts of a tree.
fn told(text: &str, tree: &TreeRef<'_>, got: &mut String) -> Result<(), ReadFault> {
    let said = match tree.level() {
        Level::Of(_, _, inside) => put_parts(text, inside, got),
        Level::Row(_) | Level::Absent => got.push_str("?"),
    };
    said.map_err(|_| ReadFault::NoMemory)
}

/// The parts of the tree of a type.
fn type_parts(
    alloc: Global,
    text: &str,
    tokens: &Tokens,
    got: &mut String,
) -> Result<(), ReadFault> {
    let (tree, _) = read_type(alloc, tokens, 0)?;
    let said = told(text, &tree.lend(), got);
    drop(tree);
    said
}

/// The parts of the tree of a statement.
fn stmt_parts(
    alloc: Global,
    text: &str,
    tokens: &Tokens,
    got: &mut String,
) -> Result<(), ReadFault> {
    let (tree, _) = read_stmt(alloc, tokens, 0)?;
    let said = told(text, &tree.lend(), got);
    drop(tree);
    said
}

/// The parts of the tree of an expression.
fn expr_parts(
    alloc: Global,
    text: &str,
    tokens: &Tokens,
    got: &mut String,
) -> Result<(), ReadFault> {
    let (tree, _) = read_expr(alloc, tokens, 0)?;
    let said = told(text, &tree.lend(), got);
    drop(tree);
    said
}

/// The parts of the tree of the text.
fn read(alloc: Global, what: &str, text: &str, got: &mut String) -> Result<(), ReadFault> {
    let tokens = lex(alloc, text.as_bytes())?;
    let said = match what {
        "type" => type_parts(alloc, text, &tokens, got),
        "stmt" => stmt_parts(alloc, text, &tokens, got),
        _ => expr_parts(alloc, text, &tokens, got),
    };
    drop(tokens);
    said
}

pub fn answer(alloc: Global, question: &str, got: &mut String) -> Result<(), AllocError> {
    let Some((what, text)) = question.split_once(" :: ") else {
        return Ok(());
    };
    match read(alloc, what, text, got) {
        Ok(()) => Ok(()),
        Err(ReadFault::Diag(span, kind)) => {
            let number = kind.number();
            let from = span.from;
            put(got, format!(in alloc; "M{number} {from}"))
        }
        Err(ReadFault::NoMemory) => Err(AllocError),
    }
}
