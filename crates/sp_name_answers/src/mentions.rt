// The declarations that are named in the tree of a type.
ghost use Rattle.std.specs.Prelude.{◌≡◌, ◌++◌, OnOk};
ghost use Rattle.sp_ast.specs.Trees.{trees};
ghost use Rattle.sp_names.specs.Types.{one_or_none, named_numbers, mentions, mentions_in, mentions_among};
ghost use Rattle.sp_names.specs.Names.{names_of, path_names};

use sp_ast::{Members, NameKind, PathKind, Ref, TypeKind, TypeView};
use sp_base::NoMemory;
use sp_names::{Names, Scope};

/// Puts a number on the list, if there is one.
fn put_number(list: &mut Vec<u32>, number: Option<u32>) -> Result<(), NoMemory>
    ensures { OnOk result (list.new.items ≡ list.old.items ++ one_or_none number) }
{
    if let Some(number) = number {
        list.push(number)?;
    }
    Ok(())
}

fn named_number(names: &Names<'_>, scope: Option<Scope>, name: &str) -> Option<u32>
    ensures { one_or_none result ≡ named_numbers names.now scope name.now }
{
    match scope {
        Some(Scope::Module(number)) => names.declared(number, name),
        _ => None,
    }
}

/// Puts the declarations on the list on whose types the meaning of a path hangs.
fn add_names(
    names: &Names<'_>,
    list: &mut Vec<u32>,
    owner: u32,
    path: Members<'_, NameKind>,
) -> Result<(), NoMemory>
    ensures { OnOk result (list.new.items ≡ list.old.items
        ++ mentions names.now owner (names_of path.entry)) }
{
    let Some((first, others)) = path.split_first() else {
        return Ok(());
    };
    put_number(list, names.declared(owner, first.text()))?;
    let Some((second, _)) = others.split_first() else {
        return Ok(());
    };
    let scope = names.visible(owner, first.text());
    put_number(list, named_number(names, scope, second.text()))
}

fn add_path(
    names: &Names<'_>,
    list: &mut Vec<u32>,
    owner: u32,
    path: &Ref<'_, PathKind>,
) -> Result<(), NoMemory>
    ensures { OnOk result (list.new.items ≡ list.old.items
        ++ mentions names.now owner (path_names path.now)) }
{
    add_names(names, list, owner, path.names())
}

/// Puts the declarations on the list that the tree of a type names.
#[cycle(mention)]
pub(crate) fn add_mentions(
    names: &Names<'_>,
    list: &mut Vec<u32>,
    owner: u32,
    tree: &Ref<'_, TypeKind>,
) -> Result<(), NoMemory>
    ensures { OnOk result (list.new.items ≡ list.old.items
        ++ mentions_in names.now owner tree.now) }
{
    match tree.view() {
        TypeView::Path(path) => add_path(names, list, owner, &path),
        TypeView::Tuple(members) => add_all(names, list, owner, members),
        TypeView::Vector(element) | TypeView::Set(element) => {
            add_mentions(names, list, owner, &element)
        }
        TypeView::Map { key, value } => {
            add_mentions(names, list, owner, &key)?;
            add_mentions(names, list, owner, &value)
        }
        _ => Ok(()),
    }
}

#[cycle(mention)]
fn add_all(
    names: &Names<'_>,
    list: &mut Vec<u32>,
    owner: u32,
    members: Members<'_, TypeKind>,
) -> Result<(), NoMemory>
    ensures { OnOk result (list.new.items ≡ list.old.items
        ++ mentions_among names.now owner (trees members.entry)) }
{
    for member in members {
        add_mentions(names, list, owner, &member)?;
    }
    Ok(())
}
