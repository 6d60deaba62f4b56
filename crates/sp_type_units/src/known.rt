// What the rows of units are made of.
ghost use Rattle.std.specs.Prelude.{◌≡◌, IfOk};
ghost use Rattle.sp_type_units.specs.inside.Finding.{FindHooks};

use sp_base::NoMemory;
use sp_type_hook_order::HookTable;
use sp_type_hook_rows::{FieldKeys, Site};
use sp_type_modules::Tables;
use sp_types::Type;
use std::alloc::Global;

/// What the rows of the units of a list are made of.
#[derive(Drop)]
pub struct UnitRows<'a> {
    pub tables: &'a Tables<'a>,
    /// The types of what is stored in the members of all units, in one row.
    pub stored: &'a [Option<Type>],
    /// Where hooks and fields stand.
    pub sites: &'a [Site<'a>],
    pub hooks: &'a HookTable,
    pub(crate) keys: FieldKeys,
    ghost keyed: { FindHooks tables.now.0 sites.now hooks.now keys },
}

/// What the hooks of fields hang on, where these are the hooks: where there are none, nothing is looked up.
#[tactic(auto, using(crate::proofs::Finding::found))]
fn keys_with(
    alloc: Global,
    tables: &Tables<'_>,
    sites: &[Site<'_>],
    hooks: &HookTable,
) -> Result<FieldKeys, NoMemory>
    ensures { IfOk result (FindHooks tables.now.0 sites.now hooks.now) }
{
    if hooks.is_empty() {
        Ok(FieldKeys::none(alloc))
    } else {
        FieldKeys::new(alloc, tables, sites)
    }
}

impl<'a> UnitRows<'a> {
    /// What the rows of the units of a list are made of: the types of what is stored in the members of all units, in one row, the
    /// places of hooks and fields, and the hooks by what they hang on.
    pub fn new(
        alloc: Global,
        tables: &'a Tables<'a>,
        stored: &'a [Option<Type>],
        sites: &'a [Site<'a>],
        hooks: &'a HookTable,
    ) -> Result<UnitRows<'a>, NoMemory>
        ensures tables { IfOk result (λ r. r.tables.now ≡ tables.now) }
        ensures stored { IfOk result (λ r. r.stored.now ≡ stored.now) }
        ensures sites { IfOk result (λ r. r.sites.now ≡ sites.now) }
        ensures hooks { IfOk result (λ r. r.hooks.now ≡ hooks.now) }
    {
        let keys = keys_with(alloc, tables, sites, hooks)?;
        Ok(UnitRows {
            tables,
            stored,
            sites,
            hooks,
            keys,
        })
    }
}
