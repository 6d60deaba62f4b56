// Resolving: from a list of modules to its typed list.
ghost use Rattle.std.specs.Prelude.{◌≡◌, None, length, IfOk, IfErr, OnOk};
ghost use Rattle.sp_solver.specs.Told.{told};
ghost use Rattle.sp_names.specs.Aliases.{IsResolved};
ghost use Rattle.sp_rules.specs.Least.{IsLeast, checked};
ghost use Rattle.sp_type_hook_rows.specs.Sites.{sites};
ghost use Rattle.sp_type_hook_rows.specs.HookRows.{rows_of};
ghost use Rattle.sp_type_modules.specs.Sources.{questions};
ghost use Rattle.sp_type_members.specs.Tries.{AreStored};
ghost use Rattle.sp_type_answers.specs.Lists.{list_in, typed_list};
ghost use Rattle.sp_type_answers.specs.Settled.{AreValued, first_contexts, worth};
ghost use Rattle.sp_type_answers.specs.NameRules.{IsTyped, IsAnswered, tests_at, tests_of, BreaksName};
ghost use Rattle.sp_type_answers.specs.Refusals.{IsRefused};

use crate::kept_values::kept;
use crate::scopes::Scopes;
use sp_ast::Module;
use sp_base::{NoMemory, or_drop};
use sp_name_answers::{note_faults, resolve_types};
use sp_names::Names;
use sp_rule_lists::note_names;
use sp_rules::{Fault, least_of_checked};
use sp_type_answers::{CheckFault, answers_are_one};
use sp_type_hook_rows::{HookRow, Site, all_sites, hook_rows, note_hooks};
use sp_type_list::typed_list;
use sp_type_list_context::{all_parameters, homes, parameter_tables, seeing_parameters};
use sp_type_members::{MemberRows, stored_types};
use sp_type_modules::Tables;
use sp_type_values::{Known, ValueRow, answers};
use sp_typed_units::Typed;
use sp_types::Type;
use std::alloc::Global;

/// What stands round the expressions of units, and what their members store.
fn stored_in(alloc: Global, known: &Known<'_>) -> Result<Vec<Option<Type>>, NoMemory>
    ensures { IfOk result (λ v. AreStored known.now.row.now.0
        (first_contexts known.now.row.now.0 known.now.row.now.1 known.now.answers.now)
        (worth known.now.row.now.0 known.now.row.now.1 known.now.answers.now) v.items) }
{
    let tables = known.row.tables();
    let rows = all_parameters(alloc, known, &[])?;
    let seen = parameter_tables(alloc, &rows)?;
    let homes = homes(alloc, known, &[])?;
    let contexts = seeing_parameters(alloc, &homes, &seen)?;
    let members = MemberRows::new(alloc, tables.names())?;
    stored_types(alloc, &members, tables, &contexts, known)
}

/// Notes the rules on names that are broken.
#[tactic(auto, using(sp_rule_lists::proofs::Checked::checked_more))]
fn note_all(
    alloc: Global,
    tables: &Tables<'_>,
    sites: &[Site<'_>],
    rows: &[HookRow<'_>],
    typed: &Typed,
    least: &mut Option<Fault>,
) -> Result<(), NoMemory>
    ensures { OnOk result (least.new ≡ checked least.old (tests_at tables.now.0 (told tables.now.1)
        sites.now rows.now typed.now)) }
{
    note_faults(alloc, tables.names(), tables.known(), least)?;
    note_hooks(alloc, tables, sites, rows, least)?;
    note_names(typed, least);
    Ok(())
}

/// Where hooks may stand in a list.
fn sites_in<'a>(alloc: Global, known: &Known<'a>) -> Result<Vec<Site<'a>>, NoMemory>
    ensures { IfOk result (λ v. v.items ≡ sites known.now.row.now.0) }
{
    all_sites(alloc, known.row.tables().names())
}

/// The rows of the hooks at these sites.
fn rows_in<'a>(
    alloc: Global,
    known: &Known<'_>,
    sites: &[Site<'a>],
) -> Result<Vec<HookRow<'a>>, NoMemory>
    ensures { IfOk result (λ v. v.items ≡ rows_of known.now.row.now.0 (told known.now.row.now.1)
        sites.now) }
{
    hook_rows(alloc, known.row.tables(), sites)
}

/// What is typed, and the least of the rules on names that are broken, where hooks stand at these sites and have these rows.
fn typed_at(
    alloc: Global,
    known: &Known<'_>,
    stored: &[Option<Type>],
    sites: &[Site<'_>],
    rows: &[HookRow<'_>],
) -> Result<(Typed, Option<Fault>), NoMemory>
    requires { length stored.now ≡ length (questions known.now.row.now.0) }
    ensures typed { IfOk result (λ r. r.0 ≡ list_in known.now.row.now.0 (told known.now.row.now.1)
        (told known.now.answers.now) stored.now sites.now rows.now) }
    ensures least { IfOk result (λ r. r.1 ≡ checked None (tests_at known.now.row.now.0
        (told known.now.row.now.1) sites.now rows.now r.0)) }
{
    let typed = typed_list(alloc, known, stored, sites, rows)?;
    let mut least = None;
    or_drop!(note_all(alloc, known.row.tables(), sites, rows, &typed, &mut least); typed);
    Ok((typed, least))
}

/// What is typed, and the least of the rules on names that are broken.
#[tactic(auto, using(crate::proofs::Rows::typed_rows, crate::proofs::Rows::least_rows))]
fn typed_in(
    alloc: Global,
    known: &Known<'_>,
    stored: &[Option<Type>],
) -> Result<(Typed, Option<Fault>), NoMemory>
    requires { length stored.now ≡ length (questions known.now.row.now.0) }
    ensures typed { IfOk result (λ r. r.0 ≡ typed_list known.now.row.now.0
        (told known.now.row.now.1) (told known.now.answers.now) stored.now) }
    ensures least { IfOk result (λ r. r.1 ≡ checked None (tests_of known.now.row.now.0
        (told known.now.row.now.1) (told known.now.answers.now) stored.now)) }
{
    let sites = sites_in(alloc, known)?;
    let rows = rows_in(alloc, known, sites.as_slice())?;
    typed_at(alloc, known, stored, sites.as_slice(), rows.as_slice())
}

/// Types a list whose type declarations, constants and labels are answered.
#[tactic(auto, using(crate::proofs::Answered::answered, crate::proofs::Values::kept_is))]
fn type_known(alloc: Global, known: &Known<'_>) -> Result<(Scopes, Option<Fault>), NoMemory>
    requires resolved { IsResolved known.now.row.now.0 known.now.row.now.1 }
    requires valued { AreValued known.now.row.now.0 (told known.now.row.now.1)
        known.now.answers.now }
    ensures { IfOk result (λ r. IsAnswered known.now.row.now.0 r.0.typed r.1) }
{
    let stored = stored_in(alloc, known)?;
    let (typed, least) = typed_in(alloc, known, &stored)?;
    Ok((Scopes::new(typed, kept(alloc, known)?), least))
}

/// Types a list whose type declarations are answered.
fn type_resolved(
    alloc: Global,
    names: &Names<'_>,
    types: &[Option<Type>],
) -> Result<(Scopes, Option<Fault>), NoMemory>
    requires { IsResolved names.now types.now }
    ensures { IfOk result (λ r. IsAnswered names.now r.0.typed r.1) }
{
    let tables = Tables::new(alloc, names, types)?;
    let row = ValueRow::new(alloc, &tables)?;
    let values = answers(alloc, &row)?;
    type_known(
        alloc,
        &Known {
            row: &row,
            answers: &values,
        },
    )
}

/// The typed list of a list of modules, whatever is broken in it, and the least of the rules on names that are broken. The time
/// is linear in the text, apart from looking names up and from members whose types hang on one another; calls stand as high as
/// the trees.
pub fn type_list(alloc: Global, list: &[Module]) -> Result<(Scopes, Option<Fault>), NoMemory>
    ensures { IfOk result (λ r. IsAnswered list.now r.0.typed r.1) }
{
    let names = Names::new(alloc, list)?;
    let types = resolve_types(alloc, &names)?;
    type_resolved(alloc, &names, &types)
}

/// What is typed of a list, and the least of the rules on names that are broken, whichever answers it is asked under.
fn type_and_ask(alloc: Global, list: &[Module]) -> Result<(Scopes, Option<Fault>), NoMemory>
    ensures typed { IfOk result (λ r. IsTyped list.now r.0.typed) }
    ensures least { IfOk result (λ r. IsLeast (BreaksName list.now) r.1) }
{
    answers_are_one();
    least_of_checked();
    type_list(alloc, list)
}

/// The typed list of a list of modules, where no rule on names is broken: modules, declarations, labels, ranges of bits,
/// parameters, locals and members whose name is taken, names that name nothing, and hooks of nothing or with parameters that are
/// not theirs. Else the least that is broken, by module, place and number. Time and calls are those of `type_list`.
#[tactic(auto, using(sp_type_answers::proofs::Refused::refused_at))]
pub fn resolve(alloc: Global, list: &[Module]) -> Result<Scopes, CheckFault>
    ensures resolved { IfOk result (λ s. IsTyped list.now s.typed
        × IsLeast (BreaksName list.now) None) }
    ensures refused { IfErr result (IsRefused (BreaksName list.now)) }
{
    let (scopes, least) = type_and_ask(alloc, list)?;
    match least {
        Some(fault) => Err(CheckFault::Diag(fault.diag())),
        None => Ok(scopes),
    }
}
