// Declarations in one row, and behind them units and enums that are the whole type of none.
ghost use Rattle.std.specs.Prelude.{◌≡◌, true};
ghost use Rattle.sp_ast.specs.Trees.{span_of};
ghost use Rattle.sp_names.specs.RowViews.{is_row, row_tree};

use sp_ast::{
    DeclKind, DeclView, Form, LabelKind, Level, Members, Ref, TreeRef, TypeKind, TypeView, UnitKind,
};
use std::marker::Model;

/// A declaration, and the number of its module. An inner unit or enum, which is the whole type of no declaration, stands as one
/// without a name.
#[derive(Drop)]
pub struct Declaration<'a> {
    pub module: u32,
    pub tree: RowTree<'a>,
}

/// The type of a bitfield, and the number of its module.
#[derive(Drop)]
pub struct Bitfield<'a> {
    pub module: u32,
    pub tree: Ref<'a, TypeKind>,
}

/// The tree of a declaration, or of an inner unit or enum. Clauses see the tree.
#[derive(Drop)]
pub struct RowTree<'a> {
    tree: TreeRef<'a>,
}

/// What stands in the row of declarations.
#[derive(Drop)]
pub enum RowView<'a> {
    Declared(DeclView<'a>),
    /// An inner unit.
    Unit(Ref<'a, UnitKind>),
    /// The labels of an inner enum.
    Enum(Members<'a, LabelKind>),
}

impl<'a> Model for RowTree<'a> {
    ghost use Rattle.std.specs.Prelude.{◌≡◌, true};
    ghost use Rattle.std.specs.Coded.{codes};
    ghost use Rattle.sp_ast.specs.Trees.{Tree as Data};
    ghost use Rattle.sp_ast.specs.inside.TreeCodes.{coded_tree};
    ghost use Rattle.sp_names.specs.RowViews.{is_row};

    ghost Value = { Data };

    ghost coded = { coded_tree (Prim.hlevel codes) };

    ghost view = { λ x. x.tree };

    ghost invariant = { λ x. is_row x.tree ≡ true };
}

/// A type that is a unit or an enum.
fn inner_view<'a>(tree: &Ref<'a, TypeKind>) -> RowView<'a>
    requires { is_row tree.now ≡ true }
    ensures { row_tree (span_of tree.now) result ≡ tree.now }
{
    match tree.view() {
        TypeView::Unit(unit) => RowView::Unit(unit),
        TypeView::Enum(labels) => RowView::Enum(labels),
        _ => unreachable!(),
    }
}

fn declared_view<'a>(tree: &Ref<'a, DeclKind>) -> RowView<'a>
    ensures { row_tree (span_of tree.now) result ≡ tree.now }
{
    RowView::Declared(tree.view())
}

impl<'a> RowTree<'a> {
    pub(crate) fn new(tree: TreeRef<'a>) -> RowTree<'a>
        requires { is_row tree ≡ true }
        ensures { result ≡ tree.entry }
    {
        RowTree { tree }
    }

    /// The tree, whatever it is.
    pub fn lend(&self) -> TreeRef<'a>
        ensures { result ≡ self.now }
    {
        self.tree.again()
    }

    /// What it is, with its parts.
    pub fn view(&self) -> RowView<'a>
        ensures { row_tree (span_of self.now) result ≡ self.now }
    {
        match self.tree.level() {
            Level::Of(Form::Decl(_), ..) => declared_view(&Ref::new(self.tree.again())),
            Level::Of(Form::Type(_), ..) => inner_view(&Ref::new(self.tree.again())),
            _ => unreachable!(),
        }
    }
}
