// One walk over the tree of a module.
ghost use Rattle.std.specs.Prelude.{◌≡◌};
ghost use Rattle.sp_ast.specs.Trees.{trees};
ghost use Rattle.sp_unbuilt.specs.First.{noted};
ghost use Rattle.sp_unbuilt.specs.Constructs.{tests_at};
ghost use Rattle.sp_unbuilt.specs.Unbuilt.{tests_in, tests_among};

use crate::constructs::{
    is_late_attribute, note_decl, note_expr, note_item, note_part, note_stmt, note_type,
};
use crate::fields::note_field;
use crate::first::note_at;
use sp_ast::{Form, Level, Parts, Ref, TreeRef};
use sp_base::Diag;

/// Notes what isn't built at a tree, apart from what stands in it.
fn note_here(text: &[u8], owner: u32, tree: &TreeRef<'_>, first: &mut Option<Diag>)
    ensures { first.new ≡ noted first.old (tests_at text.now owner tree.now) }
{
    match tree.level() {
        Level::Of(Form::Attribute(name), span, _) => {
            note_at(is_late_attribute(*name), owner, span, first);
        }
        Level::Of(Form::Field, ..) => note_field(text, owner, &Ref::new(tree.again()), first),
        Level::Of(Form::Part(_), ..) => note_part(owner, &Ref::new(tree.again()), first),
        Level::Of(Form::Item(_), ..) => note_item(owner, &Ref::new(tree.again()), first),
        Level::Of(Form::Decl(_), ..) => note_decl(owner, &Ref::new(tree.again()), first),
        Level::Of(Form::Type(_), ..) => note_type(owner, &Ref::new(tree.again()), first),
        Level::Of(Form::Stmt(_), ..) => note_stmt(owner, &Ref::new(tree.again()), first),
        Level::Of(Form::Expr(_), ..) => note_expr(owner, &Ref::new(tree.again()), first),
        _ => {}
    }
}

/// Notes what isn't built in a tree of a module with this text and this number.
#[cycle(note)]
pub(crate) fn note_tree(text: &[u8], owner: u32, tree: &TreeRef<'_>, first: &mut Option<Diag>)
    ensures { first.new ≡ noted first.old (tests_in text.now owner tree.now) }
{
    match tree.level() {
        Level::Absent => {}
        Level::Row(parts) => note_among(text, owner, parts, first),
        Level::Of(_, _, parts) => {
            note_here(text, owner, tree, first);
            note_among(text, owner, parts, first);
        }
    }
}

#[cycle(note)]
fn note_among(text: &[u8], owner: u32, parts: Parts<'_>, first: &mut Option<Diag>)
    ensures { first.new ≡ noted first.old (tests_among text.now owner (trees parts.entry)) }
{
    for tree in parts {
        note_tree(text, owner, &tree, first);
    }
}
