// Units and enums that are the whole type of no declaration, in the order of the text.
ghost use Rattle.std.specs.Prelude.{◌≡◌, ◌++◌, IfOk, OnOk};
ghost use Rattle.sp_ast.specs.Trees.{trees};
ghost use Rattle.sp_names.specs.Declarations.{rows_of, if_inner, inner_in, inner_among, parts_of, inside, inner_of};

use crate::rows::{Declaration, RowTree, RowView};
use sp_ast::{DeclView, Form, Level, Parts, TreeRef, TypeForm};
use sp_base::NoMemory;
use std::alloc::Global;

/// Puts a tree on the list where it is a unit or an enum.
fn add_itself<'a>(
    list: &mut Vec<Declaration<'a>>,
    owner: u32,
    tree: &TreeRef<'a>,
) -> Result<(), NoMemory>
    ensures { OnOk result (list.new.items ≡ list.old.items
        ++ rows_of owner (if_inner tree.now)) }
{
    match tree.level() {
        Level::Of(Form::Type(TypeForm::Unit), ..) | Level::Of(Form::Type(TypeForm::Enum), ..) => {
            list.push(Declaration {
                module: owner,
                tree: RowTree::new(tree.again()),
            })?;
            Ok(())
        }
        _ => Ok(()),
    }
}

/// Puts all units and enums in a tree on the list.
#[cycle(add)]
fn add_inner<'a>(
    list: &mut Vec<Declaration<'a>>,
    owner: u32,
    tree: &TreeRef<'a>,
) -> Result<(), NoMemory>
    ensures { OnOk result (list.new.items ≡ list.old.items
        ++ rows_of owner (inner_in tree.now)) }
{
    match tree.level() {
        Level::Absent => Ok(()),
        Level::Row(parts) => add_among(list, owner, parts),
        Level::Of(_, _, parts) => {
            add_itself(list, owner, tree)?;
            add_among(list, owner, parts)
        }
    }
}

#[cycle(add)]
fn add_among<'a>(
    list: &mut Vec<Declaration<'a>>,
    owner: u32,
    parts: Parts<'a>,
) -> Result<(), NoMemory>
    ensures { OnOk result (list.new.items ≡ list.old.items
        ++ rows_of owner (inner_among (trees parts.entry))) }
{
    for tree in parts {
        add_inner(list, owner, &tree)?;
    }
    Ok(())
}

/// Puts all units and enums on the list that stand in a tree.
fn add_parts<'a>(
    list: &mut Vec<Declaration<'a>>,
    owner: u32,
    tree: &TreeRef<'a>,
) -> Result<(), NoMemory>
    ensures { OnOk result (list.new.items ≡ list.old.items
        ++ rows_of owner (inner_among (parts_of tree.now))) }
{
    match tree.level() {
        Level::Absent => Ok(()),
        Level::Row(parts) => add_among(list, owner, parts),
        Level::Of(_, _, parts) => add_among(list, owner, parts),
    }
}

/// Puts all units and enums on the list that stand in a declaration, but for its whole type.
fn add_declared<'a>(list: &mut Vec<Declaration<'a>>, row: &Declaration<'a>) -> Result<(), NoMemory>
    ensures { OnOk result (list.new.items ≡ list.old.items
        ++ rows_of row.now.«module» (inner_among (inside row.now.tree))) }
{
    match row.tree.view() {
        RowView::Declared(DeclView::Type { type_, .. }) => {
            add_parts(list, row.module, &type_.lend())
        }
        _ => add_parts(list, row.module, &row.tree.lend()),
    }
}

/// The inner units and enums of declarations.
pub(crate) fn inner_of<'a>(
    alloc: Global,
    rows: &[Declaration<'a>],
) -> Result<Vec<Declaration<'a>>, NoMemory>
    ensures { IfOk result (λ v. v.items ≡ inner_of rows.now) }
{
    let mut list = Vec::new(alloc);
    for row in rows {
        add_declared(&mut list, row)?;
    }
    Ok(list)
}
