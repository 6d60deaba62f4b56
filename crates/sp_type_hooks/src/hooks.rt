// The hooks of the typed list.
ghost use Rattle.std.specs.Prelude.{◌≡◌, ℕ, [], Option, map, slice_get, IfSome, IfNone, IfOk};
ghost use Rattle.sp_type_hook_rows.specs.HookRows.{keys_of};
ghost use Rattle.sp_type_functions.specs.Hooks.{no_hook};
ghost use Rattle.sp_types.specs.Types.{Ty};
ghost use Rattle.sp_type_hooks.specs.Hooks.{seen_by, site_of, parameters_of, written_hook, hook_of, hook_in, typed_hooks};
ghost use Rattle.sp_typed_units.specs.Hooks.{unit_of};
ghost use Rattle.sp_type_hooks.specs.inside.Tables.{seen_told, Tells};

use crate::contexts::context_at;
use crate::row::site_of;
use crate::table::FieldTypes;
use sp_base::{NoMemory, or_drop};
use sp_type_context::Context;
use sp_type_functions::{Ranks, Site, fits, hook_behind, hook_on};
use sp_type_hook_rows::HookRow;
use sp_type_scopes::Parameters;
use sp_typed::{Stmt, StmtNode};
use sp_typed_units::{Hook, Rare, Row, unit_of};
use std::alloc::Global;

/// A hook that is written with `on`, or stands behind a field, in a unit of these parameters.
fn written_hook<C: Context, R: Ranks>(
    alloc: Global,
    context: &C,
    ranks: &R,
    site: &Site,
    parameters: &Parameters<'_>,
    row: &HookRow<'_>,
) -> Result<Hook, NoMemory>
    ensures { IfOk result (λ h. h ≡ written_hook (C.around context.now) (R.ranks ranks.now)
        site.now parameters.now row.now.hook row.now.body) }
{
    match &row.hook {
        Some(hook) => hook_on(alloc, context, ranks, site, parameters, hook),
        None => hook_behind(alloc, context, ranks, site, parameters, &row.body),
    }
}

/// The parameters of a unit, if there is one.
fn parameters_at<'p, 'a>(
    units: &'p [Parameters<'a>],
    unit: Option<u32>,
) -> Option<&'p Parameters<'a>>
    ensures some { IfSome result (λ p. parameters_of units.now unit ≡ p.now) }
    ensures none { IfNone result (parameters_of units.now unit ≡ []) }
{
    match unit {
        Some(number) => units.get(number as usize),
        None => None,
    }
}

/// The hook of a row, in a module of this context. `units` are the parameters of each unit, by its number.
pub fn hook_of<C: Context, R: Ranks>(
    alloc: Global,
    context: &C,
    ranks: &R,
    types: &FieldTypes,
    units: &[Parameters<'_>],
    row: &HookRow<'_>,
) -> Result<Hook, NoMemory>
    ensures { IfOk result (λ h. h ≡ hook_of (C.around context.now) (R.ranks ranks.now)
        (seen_told types.now) units.now row.now) }
{
    let site = site_of(types, row)?;
    match parameters_at(units, unit_of(row.of)) {
        Some(parameters) => {
            let hook = written_hook(alloc, context, ranks, &site, parameters, row);
            drop(site);
            hook
        }
        None => {
            let none = or_drop!(Parameters::new(alloc, &[]); site);
            let hook = written_hook(alloc, context, ranks, &site, &none, row);
            drop(none);
            drop(site);
            hook
        }
    }
}

/// What is no hook.
fn no_hook(alloc: Global, site: Site) -> Result<Hook, NoMemory>
    ensures { IfOk result (λ h. h ≡ no_hook site) }
{
    let Site {
        module,
        span,
        of,
        container,
        current,
    } = site;
    drop(current);
    let fits = fits(of, false, container, &[]);
    let body = Stmt::new(StmtNode::Block(Vec::new(alloc)))?;
    Ok(Hook {
        module,
        span,
        of,
        fits,
        parameters: Row::new(alloc),
        priority: Rare::none(),
        rank: Some(0),
        slots: Row::new(alloc),
        body,
    })
}

/// The hook of a row, in its module.
fn hook_in<C: Context, R: Ranks>(
    alloc: Global,
    contexts: &[C],
    ranks: &R,
    types: &FieldTypes,
    units: &[Parameters<'_>],
    row: &HookRow<'_>,
) -> Result<Hook, NoMemory>
    ensures { IfOk result (λ h. h ≡ hook_in (slice_get (map C.around contexts.now)
        row.now.«module») (R.ranks ranks.now) units.now row.now
        (seen_by (seen_told types.now) row.now)) }
{
    match context_at(contexts, row.module) {
        Some(context) => hook_of(alloc, context, ranks, types, units, row),
        None => no_hook(alloc, site_of(types, row)?),
    }
}

/// The hooks of rows, as the table tells what they see of their fields.
fn told_hooks<C: Context, R: Ranks>(
    alloc: Global,
    contexts: &[C],
    ranks: &R,
    types: &FieldTypes,
    units: &[Parameters<'_>],
    rows: &[HookRow<'_>],
) -> Result<Vec<Hook>, NoMemory>
    ensures { IfOk result (λ v. v.items ≡ typed_hooks (map C.around contexts.now)
        (R.ranks ranks.now) (seen_told types.now) units.now rows.now) }
{
    let mut hooks = Vec::with_capacity(alloc, rows.len())?;
    for i in 0..rows.len() {
        let hook = or_drop!(hook_in(alloc, contexts, ranks, types, units, &rows[i]); hooks);
        or_drop!(hooks.push(hook); hooks);
    }
    Ok(hooks)
}

/// All hooks of a list of modules, in the order of their rows. `contexts` are what stands round the expressions of each module,
/// and `units` the parameters of each unit, both by their numbers; `types` is of the keys of these rows.
pub fn typed_hooks<C: Context, R: Ranks>(
    alloc: Global,
    contexts: &[C],
    ranks: &R,
    types: &FieldTypes,
    units: &[Parameters<'_>],
    rows: &[HookRow<'_>],
) -> Result<Vec<Hook>, NoMemory>
    ensures { (f : ℕ × ℕ × ℕ → Option Ty × Option Ty) → Tells (keys_of rows.now) f types.now
        → IfOk result (λ v. v.items ≡ typed_hooks (map C.around contexts.now) (R.ranks ranks.now)
        f units.now rows.now) }
{
    told_hooks(alloc, contexts, ranks, types, units, rows)
}
