// How many declarations, items and parameters there may be.
ghost use Rattle.std.specs.Prelude.{◌≡◌, ◌<◌, IfSome, IfNone, Some, None};
ghost use Rattle.sp_rules.specs.Least.{checked};
ghost use Rattle.sp_ast.specs.Trees.{trees, span_of};
ghost use Rattle.sp_rule_units.specs.Limits.{most_declarations, most_items, most_parameters, first_behind, too_many, row_limit, unit_limits, type_limits, declaration_limits, declarations_limits, module_limits};

use sp_ast::{DeclKind, DeclView, Kind, Members, ModuleKind, Ref, TypeKind, TypeView, UnitKind};
use sp_rules::{Fault, Rule, note_at};

/// How many declarations a module has at most: imports, properties and hooks among them.
pub const MOST_DECLARATIONS: usize = 4_096;

/// How many items a unit has at most: fields, switches, variables, sinks, hooks and properties, apart from what stands in arms.
pub const MOST_ITEMS: usize = 256;

/// How many parameters a unit or a function has at most.
pub const MOST_PARAMETERS: usize = 16;

/// Notes the first of a row that stands behind so many.
#[tactic(auto, using(crate::proofs::Behind::is_behind, crate::proofs::Behind::none_behind))]
fn note_row<K: Kind>(owner: u32, most: usize, row: &Members<'_, K>, least: &mut Option<Fault>)
    ensures { least.new ≡ checked least.old (row_limit owner most (trees row.now)) }
{
    if let Some(tree) = row.get(most) {
        note_at(true, owner, Rule::TooMany, tree.span(), least);
    }
}

#[tactic(auto, using(crate::proofs::Checked::checked_more))]
fn note_unit(owner: u32, unit: &Ref<'_, UnitKind>, least: &mut Option<Fault>)
    ensures { least.new ≡ checked least.old (unit_limits owner unit.now) }
{
    let view = unit.view();
    note_row(owner, MOST_PARAMETERS, &view.parameters, least);
    note_row(owner, MOST_ITEMS, &view.items, least);
}

fn note_type(owner: u32, tree: &Ref<'_, TypeKind>, least: &mut Option<Fault>)
    ensures { least.new ≡ checked least.old (type_limits owner tree.now) }
{
    if let TypeView::Unit(unit) = tree.view() {
        note_unit(owner, &unit, least);
    }
}

fn note_declaration(owner: u32, tree: &Ref<'_, DeclKind>, least: &mut Option<Fault>)
    ensures { least.new ≡ checked least.old (declaration_limits owner tree.now) }
{
    match tree.view() {
        DeclView::Type { type_, .. } => note_type(owner, &type_, least),
        DeclView::Function { parameters, .. } => {
            note_row(owner, MOST_PARAMETERS, &parameters, least);
        }
        _ => {}
    }
}

#[tactic(auto, using(crate::proofs::Checked::checked_more))]
fn note_declarations(owner: u32, list: &Members<'_, DeclKind>, least: &mut Option<Fault>)
    ensures { least.new ≡ checked least.old (declarations_limits owner (trees list.now)) }
{
    for tree in list.again() {
        note_declaration(owner, &tree, least);
    }
}

/// Notes where a module has too many declarations, a unit too many items, or a unit or a function too many parameters, on the
/// first too many.
#[tactic(auto, using(crate::proofs::Checked::checked_more))]
pub fn note_limits(owner: u32, tree: &Ref<'_, ModuleKind>, least: &mut Option<Fault>)
    ensures { least.new ≡ checked least.old (module_limits owner tree.now) }
{
    let view = tree.view();
    note_row(owner, MOST_DECLARATIONS, &view.declarations, least);
    note_declarations(owner, &view.declarations, least);
}
