// Where hooks stand in a list of modules: declarations, items of units, and fields.
ghost use Rattle.std.specs.Prelude.{◌≡◌, ◌++◌, IfOk, OnOk};
ghost use Rattle.sp_ast.specs.Trees.{trees};
ghost use Rattle.sp_type_modules.specs.Members.{unit_in, unit_items};
ghost use Rattle.sp_type_hook_rows.specs.Sites.{sites_in, sites_among, sites_of, sites};

use sp_ast::{
    ArmKind, BodyKind, BodyView, DeclKind, DeclView, FieldKind, ItemKind, ItemView, Members,
    PartKind, PartView, Ref, TypeKind, TypeView,
};
use sp_base::{NoMemory, or_drop};
use sp_name_tables::number;
use sp_names::{Names, RowTree, RowView};
use std::alloc::Global;

/// What has hooks.
#[derive(Drop)]
pub enum Holder<'a> {
    /// A hook outside of units.
    Declaration(Ref<'a, DeclKind>),
    /// A hook in a unit.
    Item(Ref<'a, ItemKind>),
    /// A field, which may have hooks behind it.
    Field(Ref<'a, FieldKind>),
}

/// Where hooks stand.
#[derive(Drop)]
pub struct Site<'a> {
    pub module: u32,
    /// The number of the unit; 0 outside of units.
    pub unit: u32,
    pub holder: Holder<'a>,
}

/// Adds what stands in a part of a unit.
#[cycle(site)]
fn add_part<'a>(
    sites: &mut Vec<Site<'a>>,
    module: u32,
    unit: u32,
    part: &Ref<'a, PartKind>,
) -> Result<(), NoMemory>
    ensures { OnOk result (sites.new.items ≡ sites.old.items ++ sites_in «module» unit part.now) }
{
    match part.view() {
        PartView::Field(field) => {
            let holder = Holder::Field(field);
            sites.push(Site {
                module,
                unit,
                holder,
            })?;
            Ok(())
        }
        PartView::Switch { arms, .. } => add_arms(sites, module, unit, arms),
    }
}

#[cycle(site)]
fn add_arms<'a>(
    sites: &mut Vec<Site<'a>>,
    module: u32,
    unit: u32,
    arms: Members<'a, ArmKind>,
) -> Result<(), NoMemory>
    ensures { OnOk result (sites.new.items
        ≡ sites.old.items ++ sites_among «module» unit (trees arms.entry)) }
{
    for arm in arms {
        add_arm(sites, module, unit, &arm)?;
    }
    Ok(())
}

#[cycle(site)]
fn add_arm<'a>(
    sites: &mut Vec<Site<'a>>,
    module: u32,
    unit: u32,
    arm: &Ref<'a, ArmKind>,
) -> Result<(), NoMemory>
    ensures { OnOk result (sites.new.items ≡ sites.old.items ++ sites_in «module» unit arm.now) }
{
    add_body(sites, module, unit, &arm.view().body)
}

#[cycle(site)]
fn add_body<'a>(
    sites: &mut Vec<Site<'a>>,
    module: u32,
    unit: u32,
    body: &Ref<'a, BodyKind>,
) -> Result<(), NoMemory>
    ensures { OnOk result (sites.new.items ≡ sites.old.items ++ sites_in «module» unit body.now) }
{
    match body.view() {
        BodyView::Nothing => Ok(()),
        BodyView::One(part) => add_part(sites, module, unit, &part),
        BodyView::Many(parts) => add_parts(sites, module, unit, parts),
    }
}

#[cycle(site)]
fn add_parts<'a>(
    sites: &mut Vec<Site<'a>>,
    module: u32,
    unit: u32,
    parts: Members<'a, PartKind>,
) -> Result<(), NoMemory>
    ensures { OnOk result (sites.new.items
        ≡ sites.old.items ++ sites_among «module» unit (trees parts.entry)) }
{
    for part in parts {
        add_part(sites, module, unit, &part)?;
    }
    Ok(())
}

/// Adds what stands in an item of a unit.
fn add_item<'a>(
    sites: &mut Vec<Site<'a>>,
    module: u32,
    unit: u32,
    item: &Ref<'a, ItemKind>,
) -> Result<(), NoMemory>
    ensures { OnOk result (sites.new.items ≡ sites.old.items ++ sites_in «module» unit item.now) }
{
    match item.view() {
        ItemView::On { .. } => {
            let holder = Holder::Item(item.again());
            sites.push(Site {
                module,
                unit,
                holder,
            })?;
            Ok(())
        }
        ItemView::Part(part) => add_part(sites, module, unit, &part),
        _ => Ok(()),
    }
}

fn add_items<'a>(
    sites: &mut Vec<Site<'a>>,
    module: u32,
    unit: u32,
    items: Members<'a, ItemKind>,
) -> Result<(), NoMemory>
    ensures { OnOk result (sites.new.items
        ≡ sites.old.items ++ sites_among «module» unit (trees items.entry)) }
{
    for item in items {
        add_item(sites, module, unit, &item)?;
    }
    Ok(())
}

/// Adds what stands in a type of a declaration, if it is a unit.
fn add_type<'a>(
    sites: &mut Vec<Site<'a>>,
    module: u32,
    unit: u32,
    type_: &Ref<'a, TypeKind>,
) -> Result<(), NoMemory>
    ensures { OnOk result (sites.new.items
        ≡ sites.old.items ++ sites_among «module» unit (unit_items (unit_in type_.now))) }
{
    match type_.view() {
        TypeView::Unit(tree) => add_items(sites, module, unit, tree.view().items),
        _ => Ok(()),
    }
}

/// Adds what stands in a declaration.
fn add_declaration<'a>(
    sites: &mut Vec<Site<'a>>,
    module: u32,
    unit: u32,
    tree: &RowTree<'a>,
) -> Result<(), NoMemory>
    ensures { OnOk result (sites.new.items ≡ sites.old.items ++ sites_of «module» unit tree.now) }
{
    match tree.view() {
        RowView::Declared(DeclView::On { .. }) => {
            let holder = Holder::Declaration(Ref::new(tree.lend()));
            sites.push(Site {
                module,
                unit: 0,
                holder,
            })?;
            Ok(())
        }
        RowView::Declared(DeclView::Type { type_, .. }) => { add_type(sites, module, unit, &type_) }
        RowView::Declared(_) | RowView::Enum(_) => Ok(()),
        RowView::Unit(inner) => add_items(sites, module, unit, inner.view().items),
    }
}

/// All places of hooks of a list of modules: module by module, each in the order of its text. It takes time that grows with
/// the text alone.
pub fn all_sites<'a>(alloc: Global, names: &Names<'a>) -> Result<Vec<Site<'a>>, NoMemory>
    ensures { IfOk result (λ v. v.items ≡ sites names.now) }
{
    let rows = names.rows();
    let mut sites = Vec::new(alloc);
    for g in 0..rows.len() {
        let row = &rows[g];
        let declaration = or_drop!(number(g); sites);
        let unit = names.number(declaration);
        or_drop!(add_declaration(&mut sites, row.module, unit, &row.tree); sites);
    }
    Ok(sites)
}
