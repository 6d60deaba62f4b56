// The conversions that are made of themselves.
ghost use Rattle.std.specs.Prelude.{◌≡◌, ◌++◌, [], length, map, IfOk, OnOk};
ghost use Rattle.sp_solver.specs.Told.{told};
ghost use Rattle.sp_type_modules.specs.Sources.{questions};
ghost use Rattle.sp_type_values.specs.Answers.{values};
ghost use Rattle.sp_type_list_context.specs.Contexts.{seeing_parameters};
ghost use Rattle.sp_type_declarations.specs.Conversions.{endless_row, site_conversion, endless};

use sp_base::{NoMemory, Span};
use sp_type_context::Context;
use sp_type_fields::Constants;
use sp_type_hook_rows::{Holder, Site};
use sp_type_list_context::{all_parameters, homes, parameter_tables, seeing_parameters};
use sp_type_members::{MemberRows, endless_place};
use sp_type_modules::Tables;
use sp_type_values::Known;
use sp_typed_units::EndlessConversion;
use sp_types::Type;
use std::alloc::Global;

fn push_if(
    list: &mut Vec<EndlessConversion>,
    owner: u32,
    place: Option<Span>,
) -> Result<(), NoMemory>
    ensures { OnOk result (list.new.items ≡ list.old.items ++ endless_row owner place) }
{
    if let Some(span) = place {
        list.push(EndlessConversion {
            module: owner,
            span,
        })?;
    }
    Ok(())
}

/// Puts the conversion of a field on the list, if it is one of these.
fn add_endless<C: Context, V: Constants>(
    alloc: Global,
    rows: &MemberRows<'_>,
    tables: &Tables<'_>,
    contexts: &[C],
    constants: &V,
    types: &[Option<Type>],
    site: &Site<'_>,
    list: &mut Vec<EndlessConversion>,
) -> Result<(), NoMemory>
    requires all { length types.now ≡ length (questions rows.now) }
    requires same { tables.now.0 ≡ rows.now }
    ensures { OnOk result (list.new.items ≡ list.old.items ++ site_conversion rows.now
        (map C.around contexts.now) (V.values constants.now) types.now site.now) }
{
    match &site.holder {
        Holder::Field(tree) => {
            let place = endless_place(
                alloc, rows, tables, contexts, constants, types, site.unit, tree,
            )?;
            push_if(list, site.module, place)
        }
        _ => Ok(()),
    }
}

/// Those of the fields at these sites.
fn at_sites<C: Context, V: Constants>(
    alloc: Global,
    rows: &MemberRows<'_>,
    tables: &Tables<'_>,
    contexts: &[C],
    constants: &V,
    types: &[Option<Type>],
    sites: &[Site<'_>],
) -> Result<Vec<EndlessConversion>, NoMemory>
    requires all { length types.now ≡ length (questions rows.now) }
    requires same { tables.now.0 ≡ rows.now }
    ensures { IfOk result (λ v. v.items ≡ endless rows.now (map C.around contexts.now)
        (V.values constants.now) types.now sites.now) }
{
    let mut list = Vec::new(alloc);
    for site in sites {
        add_endless(
            alloc, rows, tables, contexts, constants, types, site, &mut list,
        )?;
    }
    Ok(list)
}

/// What conversions of the fields at these sites are made of themselves, where `stored` are the types of what is stored in the members
/// of all units.
pub fn conversions(
    alloc: Global,
    known: &Known<'_>,
    stored: &[Option<Type>],
    sites: &[Site<'_>],
) -> Result<Vec<EndlessConversion>, NoMemory>
    requires { length stored.now ≡ length (questions known.now.row.now.0) }
    ensures { IfOk result (λ v. v.items ≡ endless known.now.row.now.0
        (seeing_parameters known.now.row.now.0 (told known.now.row.now.1)
        (told known.now.answers.now) (told [])) (values known.now.row.now.0
        (told known.now.row.now.1) (told known.now.answers.now)) stored.now sites.now) }
{
    let tables = known.row.tables();
    let parameters = all_parameters(alloc, known, &[])?;
    let seen = parameter_tables(alloc, &parameters)?;
    let homes = homes(alloc, known, &[])?;
    let contexts = seeing_parameters(alloc, &homes, &seen)?;
    let members = MemberRows::new(alloc, tables.names())?;
    at_sites(alloc, &members, tables, &contexts, known, stored, sites)
}
