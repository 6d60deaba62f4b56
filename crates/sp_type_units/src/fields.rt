// What a unit knows of its fields.
ghost use Rattle.std.specs.Prelude.{◌≡◌, IfOk};
ghost use Rattle.sp_type_modules.specs.Members.{members_of};
ghost use Rattle.sp_type_member_names.specs.FieldTables.{unit_of};
ghost use Rattle.sp_type_modules.specs.Taken.{taken_places};
ghost use Rattle.sp_type_fields.specs.Fields.{field_type};
ghost use Rattle.sp_type_units.specs.Fields.{hooks_by, field_hooks};
ghost use Rattle.sp_type_units.specs.inside.Shown.{shown};

use crate::known::UnitRows;
use crate::members::{MemberTable, member_number, member_table};
use sp_ast::{Ref, UnitKind};
use sp_base::{NoMemory, Span, or_drop};
use sp_type_context::Context;
use sp_type_fields::{Constants, FieldTable};
use sp_type_hook_order::{HookKey, HookTable};
use sp_type_member_names::{Places, UnitNames, taken_places};
use sp_typed_units::Numbers;
use std::alloc::Global;

/// The hooks of what hangs on something.
fn hooks_by(hooks: &HookTable, key: Option<HookKey>) -> Result<Numbers, NoMemory>
    ensures { IfOk result (λ r. r ≡ hooks_by hooks.now key) }
{
    match key {
        Some(key) => hooks.hooks(key),
        None => Ok(Numbers::none()),
    }
}

/// The hooks of the field at a place of a unit.
fn field_hooks(rows: &UnitRows<'_>, unit: u32, at: Span) -> Result<Numbers, NoMemory>
    ensures { IfOk result (λ r. r ≡ field_hooks rows.now.tables.now.0 rows.now.sites.now
        rows.now.hooks.now unit at) }
{
    hooks_by(rows.hooks, rows.keys.key(unit, at.from))
}

/// What a unit knows of its fields.
#[derive(Drop)]
pub(crate) struct UnitFields<'a> {
    rows: &'a UnitRows<'a>,
    unit: u32,
    pub(crate) members: MemberTable<'a>,
    places: Places,
}

impl<'a> FieldTable for UnitFields<'a> {
    ghost use Rattle.sp_type_units.specs.Fields.{unit_fields};
    ghost use Rattle.sp_type_units.specs.inside.Shown.{shown};

    ghost fields = { λ w. unit_fields w.rows.now.tables.now.0 w.rows.now.sites.now
        w.rows.now.hooks.now w.unit (shown w.members.rows.items) w.places };

    fn number(&self, name: &str) -> u32 {
        member_number(&self.members, name)
    }

    fn taken(&self, at: Span) -> bool {
        self.places.has(at)
    }

    fn hooks(&self, at: Span) -> Result<Numbers, NoMemory> {
        field_hooks(self.rows, self.unit, at)
    }
}

/// The places of the names of a unit that come twice.
fn places_of<C: Context, V: Constants>(
    alloc: Global,
    rows: &UnitRows<'_>,
    context: &C,
    constants: &V,
    unit: u32,
    tree: &Ref<'_, UnitKind>,
) -> Result<Places, NoMemory>
    requires { unit_of rows.now.tables.now.0 unit ≡ tree.now }
    ensures { IfOk result (λ p. p ≡ taken_places (field_type (C.around context.now)
        (V.values constants.now)) tree.now) }
{
    let naming = UnitNames::new(rows.tables, unit, context, constants);
    let taken = taken_places(alloc, &naming, tree)?;
    let places = Places::new(alloc, taken)?;
    Ok(places)
}

/// What a unit knows of its fields, where `context` stands round its expressions.
pub(crate) fn unit_fields<'a, C: Context, V: Constants>(
    alloc: Global,
    rows: &'a UnitRows<'a>,
    context: &C,
    constants: &V,
    unit: u32,
    tree: &Ref<'a, UnitKind>,
) -> Result<UnitFields<'a>, NoMemory>
    requires { unit_of rows.now.tables.now.0 unit ≡ tree.now }
    ensures rows { IfOk result (λ f. f.rows.now ≡ rows.now) }
    ensures unit { IfOk result (λ f. f.unit ≡ unit) }
    ensures members { IfOk result (λ f. shown f.members.rows.items ≡ members_of tree.now) }
    ensures places { IfOk result (λ f. f.places ≡ taken_places (field_type
        (C.around context.now) (V.values constants.now)) tree.now) }
{
    let places = places_of(alloc, rows, context, constants, unit, tree)?;
    let members = or_drop!(member_table(alloc, tree); places);
    Ok(UnitFields {
        rows,
        unit,
        members,
        places,
    })
}
