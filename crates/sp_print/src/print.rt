// The canonical text of trees.
ghost use Rattle.std.specs.Prelude.{◌≡◌, ◌≤◌, ◌++◌, OnOk, IfOk, None};
ghost use Rattle.sp_ast.specs.Trees.{trees, trees_size};
ghost use Rattle.sp_print.specs.Page.{page};
ghost use Rattle.sp_print.specs.Canonical.{write, spelled, laid, part, part_of, parts_of, framed, rowed, followed, listed, at_place, lines, canonical};
ghost use Rattle.sp_print.specs.inside.Pieces.{IsLaid};

use crate::layouts::{Frame, PartLayout, Piece, Separator};
use crate::own::put_own;
use crate::parentheses::{is_absent, is_dividend, is_empty_row, least, needs_parentheses};
use crate::tables::layout;
use crate::writer::Writer;
use sp_ast::{DeclKind, Form, Level, Members, Module, Parts, TreeRef};
use sp_base::{NoMemory, Text};
use sp_lex::TokenKind;
use sp_words::Punctuation;
use std::alloc::Global;

const OPEN: TokenKind = TokenKind::Punctuation(Punctuation::LeftParen);

const CLOSE: TokenKind = TokenKind::Punctuation(Punctuation::RightParen);

/// Puts a tree.
#[cycle(put)]
fn put_tree(writer: &mut Writer, tree: &TreeRef<'_>) -> Result<(), NoMemory>
    ensures { OnOk result (writer.new ≡ write (spelled tree.now) writer.old) }
{
    match tree.level() {
        Level::Of(form, _, parts) => put_pieces(writer, form, layout(form), parts),
        Level::Absent | Level::Row(_) => Ok(()),
    }
}

/// Puts the pieces of a tree with its parts.
#[cycle(put)]
fn put_pieces(
    writer: &mut Writer,
    form: &Form,
    pieces: &[Piece],
    parts: Parts<'_>,
) -> Result<(), NoMemory>
    ensures { OnOk result (writer.new ≡ write
        (laid form.now pieces.now (parts_of (trees parts.entry))) writer.old) }
{
    let mut left = parts;
    for piece in pieces {
        left = put_piece(writer, form, *piece, left)?;
    }
    Ok(())
}

/// Puts a piece, and answers the parts that are left behind it.
#[cycle(put)]
fn put_piece<'t>(
    writer: &mut Writer,
    form: &Form,
    piece: Piece,
    parts: Parts<'t>,
) -> Result<Parts<'t>, NoMemory>
    ensures laid { IfOk result (λ left. IsLaid form.now piece parts.entry writer.old left
        writer.new) }
    ensures less { IfOk result (λ left. trees_size (trees left) ≤ trees_size
        (trees parts.entry)) }
{
    match piece {
        Piece::Word(kind) => {
            writer.put_kind(kind)?;
            Ok(parts)
        }
        Piece::Own => {
            put_own(writer, form)?;
            Ok(parts)
        }
        Piece::All(by) => {
            put_all(writer, by, &parts)?;
            Ok(parts.end())
        }
        Piece::Part(layout) => match parts.split_first() {
            Some((part, others)) => {
                put_part(writer, form, layout, &part)?;
                Ok(others)
            }
            None => Ok(parts),
        },
    }
}

/// Puts a part by its layout.
#[cycle(put)]
fn put_part(
    writer: &mut Writer,
    form: &Form,
    layout: PartLayout,
    tree: &TreeRef<'_>,
) -> Result<(), NoMemory>
    ensures { OnOk result (writer.new
        ≡ write (part form.now layout (part_of tree.now)) writer.old) }
{
    match layout {
        PartLayout::One(place) => put_at(
            writer,
            least(form, place),
            is_dividend(form, place),
            tree,
        ),
        PartLayout::Optional(frame) => put_framed(writer, frame, tree),
        PartLayout::Row(by) => put_row(writer, by, tree),
        PartLayout::Arguments => {
            if is_empty_row(tree) {
                return Ok(());
            }
            writer.put_kind(OPEN)?;
            put_row(writer, Separator::Comma, tree)?;
            writer.put_kind(CLOSE)?;
            Ok(())
        }
        PartLayout::Hooks => {
            if is_empty_row(tree) {
                return writer.put_kind(TokenKind::Punctuation(Punctuation::Semicolon));
            }
            put_row(writer, Separator::Nothing, tree)
        }
    }
}

/// Puts a part with what stands round it, unless it is left out.
#[cycle(put)]
fn put_framed(writer: &mut Writer, frame: Frame, tree: &TreeRef<'_>) -> Result<(), NoMemory>
    ensures { OnOk result (writer.new ≡ write (framed frame (part_of tree.now)) writer.old) }
{
    if is_absent(tree) {
        return Ok(());
    }
    writer.put_kinds(frame.opening())?;
    put_at(writer, 1, false, tree)?;
    writer.put_kinds(frame.closing())?;
    Ok(())
}

/// Puts the members of a row with what stands between them.
#[cycle(put)]
fn put_row(writer: &mut Writer, by: Separator, tree: &TreeRef<'_>) -> Result<(), NoMemory>
    ensures { OnOk result (writer.new ≡ write (rowed tree.now by) writer.old) }
{
    match tree.level() {
        Level::Row(parts) => put_all(writer, by, &parts),
        Level::Absent | Level::Of(..) => Ok(()),
    }
}

/// Puts trees with what stands between them.
#[cycle(put)]
fn put_all(writer: &mut Writer, by: Separator, all: &Parts<'_>) -> Result<(), NoMemory>
    ensures { OnOk result (writer.new ≡ write (listed by (parts_of (trees all.now))) writer.old) }
{
    let Some((first, others)) = all.split_first() else {
        return Ok(());
    };
    put_at(writer, 1, false, &first)?;
    put_others(writer, by, others)?;
    Ok(())
}

/// Puts trees, each behind what stands between them.
#[cycle(put)]
fn put_others(writer: &mut Writer, by: Separator, others: Parts<'_>) -> Result<(), NoMemory>
    ensures { OnOk result (writer.new ≡ write (followed by (parts_of (trees others.entry)))
        writer.old) }
{
    for tree in others {
        writer.put_kinds(by.kinds())?;
        put_at(writer, 1, false, &tree)?;
    }
    Ok(())
}

/// Puts a tree at a place, in parentheses where it needs them.
#[cycle(put)]
fn put_at(
    writer: &mut Writer,
    tight: u8,
    dividend: bool,
    tree: &TreeRef<'_>,
) -> Result<(), NoMemory>
    ensures { OnOk result (writer.new ≡ write (at_place tight dividend tree.now (spelled tree.now))
        writer.old) }
{
    if !needs_parentheses(tight, dividend, tree, writer.last()) {
        return put_tree(writer, tree);
    }
    writer.put_kind(OPEN)?;
    put_tree(writer, tree)?;
    writer.put_kind(CLOSE)?;
    Ok(())
}

/// Puts declarations, each as a line.
fn put_lines(writer: &mut Writer, all: Members<'_, DeclKind>) -> Result<(), NoMemory>
    requires { writer.old.last ≡ None }
    ensures { OnOk result (writer.new ≡ page (writer.old.text ++ lines (trees all.entry)) None) }
{
    for declaration in all {
        put_tree(writer, &declaration.lend())?;
        writer.end_line()?;
    }
    Ok(())
}

/// The canonical text of a module: a line for its name and one for each declaration, the tokens of each with one space
/// between them, and with parentheses only where the grammar needs them.
pub fn print_module(alloc: Global, m: &Module) -> Result<Text, NoMemory>
    ensures { IfOk result (λ text. text ≡ canonical m.now) }
{
    let module = m.root();
    let mut writer = Writer::new(alloc);
    put_tree(&mut writer, &module.lend())?;
    writer.end_line()?;
    put_lines(&mut writer, module.view().declarations)?;
    Text::new(alloc, writer.text())
}
