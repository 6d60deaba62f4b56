// All hooks of a list of modules in one row.
ghost use Rattle.std.specs.Prelude.{◌≡◌, ◌++◌, ◌∷◌, [], IfOk, OnOk};
ghost use Rattle.sp_ast.specs.Trees.{Trees, trees};
ghost use Rattle.sp_ast.specs.Views.{optional_tree};
ghost use Rattle.sp_solver.specs.Told.{told};
ghost use Rattle.sp_type_hook_rows.specs.HookRows.{hook_body, is_each, block_span, body_rows, named_rows, is_some_tree, field_rows, item_row, declared_row, holder_rows, rows_of, anonymous_key, key_of, keys_of};

use crate::named::{declared_of, each_of, field_number, plain_of, target_of};
use crate::sites::{Holder, Site};
use sp_ast::{
    CountKind, DeclKind, DeclView, FieldKind, HookBodyKind, HookKind, ItemKind, ItemView, Members,
    NameKind, Ref,
};
use sp_base::{NoMemory, Span, or_drop};
use sp_type_hook_order::HookKey;
use sp_type_modules::Tables;
use sp_typed_units::HookOf;
use std::alloc::Global;

/// A hook.
#[derive(Drop)]
pub struct HookRow<'a> {
    pub module: u32,
    /// It begins with the token behind `on`, or with the brace of a hook behind a field.
    pub span: Span,
    pub of: HookOf,
    /// Whether `foreach` stands before what it does.
    pub each: bool,
    /// Whether `foreach` stands behind a field without `[ ]`.
    pub bare: bool,
    /// Where the anonymous field begins behind which it stands.
    pub field: Option<u32>,
    /// The hook with its parameters, unless it stands behind a field.
    pub hook: Option<Ref<'a, HookKind>>,
    /// What it does.
    pub body: Ref<'a, HookBodyKind>,
}

fn hook_body<'a>(hook: &Ref<'a, HookKind>) -> Ref<'a, HookBodyKind>
    ensures { result ≡ hook_body hook.now }
{
    hook.view().body
}

fn is_each(body: &Ref<'_, HookBodyKind>) -> bool
    ensures { result ≡ is_each body.now }
{
    body.view().each
}

fn block_span(body: &Ref<'_, HookBodyKind>) -> Span
    ensures { result ≡ block_span body.now }
{
    body.view().block.span()
}

/// What is told of the hooks behind a field.
#[derive(Clone, Copy)]
struct Behind {
    module: u32,
    plain: HookOf,
    elements: HookOf,
    counted: bool,
    field: Option<u32>,
}

/// A hook behind a field.
fn body_row<'a>(behind: Behind, body: Ref<'a, HookBodyKind>) -> HookRow<'a>
    ensures { result ∷ [] ≡ body_rows behind.«module» behind.plain behind.elements behind.counted
        behind.field (trees (body.entry ∷ [])) }
{
    let each = is_each(&body);
    HookRow {
        module: behind.module,
        span: block_span(&body),
        of: if each { behind.elements } else { behind.plain },
        each,
        bare: each && !behind.counted,
        field: behind.field,
        hook: None,
        body,
    }
}

fn add_bodies<'a>(
    rows: &mut Vec<HookRow<'a>>,
    behind: Behind,
    bodies: Members<'a, HookBodyKind>,
) -> Result<(), NoMemory>
    ensures { OnOk result (rows.new.items ≡ rows.old.items ++ body_rows behind.«module»
        behind.plain behind.elements behind.counted behind.field (trees bodies.entry)) }
{
    for body in bodies {
        rows.push(body_row(behind, body))?;
    }
    Ok(())
}

fn is_counted(counts: &Members<'_, CountKind>) -> bool
    ensures { result ≡ is_some_tree (trees counts.now) }
{
    counts.split_first().is_some()
}

/// What is told of the hooks behind a field of a name, if it has one.
fn behind_field(
    tables: &Tables<'_>,
    site: (u32, u32),
    span: Span,
    name: &Option<Ref<'_, NameKind>>,
    counted: bool,
) -> Result<Behind, NoMemory>
    ensures { IfOk result (λ b. (bodies : Trees) → named_rows tables.now.0 site.0 site.1 span
        (optional_tree name.now) counted bodies
        ≡ body_rows b.«module» b.plain b.elements b.counted b.field bodies) }
{
    let (module, unit) = site;
    match name {
        Some(name) => {
            let number = field_number(tables, unit, name.text())?;
            Ok(Behind {
                module,
                plain: plain_of(unit, number),
                elements: each_of(unit, number),
                counted,
                field: None,
            })
        }
        None => Ok(Behind {
            module,
            plain: HookOf::Anonymous(unit),
            elements: HookOf::AnonymousElements(unit),
            counted,
            field: Some(span.from),
        }),
    }
}

/// Adds the hooks behind a field.
fn add_field<'a>(
    rows: &mut Vec<HookRow<'a>>,
    tables: &Tables<'_>,
    site: (u32, u32),
    field: &Ref<'a, FieldKind>,
) -> Result<(), NoMemory>
    ensures { OnOk result (rows.new.items
        ≡ rows.old.items ++ field_rows tables.now.0 site.0 site.1 field.now) }
{
    let view = field.view();
    let counted = is_counted(&view.counts);
    let behind = behind_field(tables, site, field.span(), &view.name, counted)?;
    add_bodies(rows, behind, view.hooks)
}

/// Adds a hook in a unit.
fn add_item<'a>(
    rows: &mut Vec<HookRow<'a>>,
    tables: &Tables<'_>,
    site: (u32, u32),
    item: &Ref<'a, ItemKind>,
) -> Result<(), NoMemory>
    ensures { OnOk result (rows.new.items
        ≡ rows.old.items ++ item_row tables.now.0 site.0 site.1 item.now) }
{
    let (module, unit) = site;
    match item.view() {
        ItemView::On { target, hook } => {
            let body = hook_body(&hook);
            let each = is_each(&body);
            let of = target_of(tables, unit, each, &target)?;
            rows.push(HookRow {
                module,
                span: target.span(),
                of,
                each,
                bare: false,
                field: None,
                hook: Some(hook),
                body,
            })?;
            Ok(())
        }
        _ => Ok(()),
    }
}

/// Adds a hook outside of units.
fn add_declared<'a>(
    rows: &mut Vec<HookRow<'a>>,
    tables: &Tables<'_>,
    module: u32,
    tree: &Ref<'a, DeclKind>,
) -> Result<(), NoMemory>
    ensures { OnOk result (rows.new.items ≡ rows.old.items
        ++ declared_row tables.now.0 (told tables.now.1) «module» tree.now) }
{
    match tree.view() {
        DeclView::On {
            path,
            hook_name,
            hook,
        } => {
            let body = hook_body(&hook);
            let each = is_each(&body);
            let of = declared_of(tables, module, each, &path, &hook_name);
            let span = path.span();
            drop(path);
            drop(hook_name);
            let of = or_drop!(of; hook, body);
            rows.push(HookRow {
                module,
                span,
                of,
                each,
                bare: false,
                field: None,
                hook: Some(hook),
                body,
            })?;
            Ok(())
        }
        other => {
            drop(other);
            Ok(())
        }
    }
}

/// Adds the hooks of one site.
fn add_site<'a>(
    rows: &mut Vec<HookRow<'a>>,
    tables: &Tables<'_>,
    site: &Site<'a>,
) -> Result<(), NoMemory>
    ensures { OnOk result (rows.new.items ≡ rows.old.items ++ holder_rows tables.now.0
        (told tables.now.1) site.now.«module» site.now.unit site.now.holder) }
{
    match &site.holder {
        Holder::Declaration(tree) => add_declared(rows, tables, site.module, tree),
        Holder::Item(tree) => add_item(rows, tables, (site.module, site.unit), tree),
        Holder::Field(tree) => add_field(rows, tables, (site.module, site.unit), tree),
    }
}

/// All hooks of a list of modules, in the order of their places: module by module, each in the order of its text. A hook's
/// number is its place in this row, from 0.
pub fn hook_rows<'a>(
    alloc: Global,
    tables: &Tables<'_>,
    sites: &[Site<'a>],
) -> Result<Vec<HookRow<'a>>, NoMemory>
    ensures { IfOk result (λ v. v.items ≡ rows_of tables.now.0 (told tables.now.1) sites.now) }
{
    let mut rows = Vec::new(alloc);
    for i in 0..sites.len() {
        or_drop!(add_site(&mut rows, tables, &sites[i]); rows);
    }
    Ok(rows)
}

fn anonymous_key(unit: u32, field: Option<u32>) -> Option<HookKey>
    ensures { result ≡ anonymous_key unit field }
{
    match field {
        Some(place) => Some(HookKey::Anonymous(unit, place)),
        None => None,
    }
}

/// What a hook hangs on, where `field` is the place of an anonymous field.
pub fn key_of(of: HookOf, field: Option<u32>) -> Option<HookKey>
    ensures { result ≡ key_of of field }
{
    match of {
        HookOf::Nothing => None,
        HookOf::Unit(unit, name) => Some(HookKey::Unit(unit, name)),
        HookOf::Field(unit, member) => Some(HookKey::Member(unit, member)),
        HookOf::Elements(unit, member) => Some(HookKey::Member(unit, member)),
        HookOf::Anonymous(unit) => anonymous_key(unit, field),
        HookOf::AnonymousElements(unit) => anonymous_key(unit, field),
    }
}

/// What each hook hangs on, by its number. With it `sp_type_hook_order::HookTable` tells the hooks of each field, and of each
/// hook of a unit, in the order in which they run.
pub fn keys_of(alloc: Global, rows: &[HookRow<'_>]) -> Result<Vec<Option<HookKey>>, NoMemory>
    ensures { IfOk result (λ v. v.items ≡ keys_of rows.now) }
{
    let mut keys = Vec::with_capacity(alloc, rows.len())?;
    for i in 0..rows.len() {
        keys.push(key_of(rows[i].of, rows[i].field))?;
    }
    Ok(keys)
}
