// What hooks are of.
ghost use Rattle.std.specs.Prelude.{◌≡◌, ◌∷◌, IfOk};
ghost use Rattle.sp_ast.specs.Views.{optional_tree};
ghost use Rattle.sp_solver.specs.Told.{told};
ghost use Rattle.sp_names.specs.Names.{names_of, path_names};
ghost use Rattle.sp_type_hook_rows.specs.HookRows.{field_number, plain_of, each_of, field_of, unit_of, target_of, named_unit, unit_hook, member_hook, names_hook, declared_of};
ghost use Rattle.sp_type_hook_rows.specs.inside.Numbers.{number_of};

use crate::units::{own_unit, path_unit, scoped_unit};
use sp_ast::{HookNameKind, Members, NameKind, PathKind, Ref, TargetKind, TargetView};
use sp_base::NoMemory;
use sp_type_context::Member;
use sp_type_modules::Tables;
use sp_typed::OneOp;
use sp_typed_units::HookOf;
use sp_words::HookName;

/// The number of a member that is a field.
fn number_of(member: &Option<Member>) -> Option<u32>
    ensures { result ≡ number_of member.now }
{
    match member {
        Some(found) => match found.op {
            OneOp::Field(number) => Some(number),
            OneOp::Negate
            | OneOp::Not
            | OneOp::Complement
            | OneOp::Size
            | OneOp::Cast(_)
            | OneOp::Widen
            | OneOp::Variable(_)
            | OneOp::SinkOf(_)
            | OneOp::Bit(_)
            | OneOp::IsSet(_)
            | OneOp::NoMember(_) => None,
        },
        None => None,
    }
}

/// The number of the field of a name in a unit.
#[tactic(auto, using(crate::proofs::Numbers::field_is))]
pub(crate) fn field_number(
    tables: &Tables<'_>,
    unit: u32,
    name: &str,
) -> Result<Option<u32>, NoMemory>
    ensures { IfOk result (λ k. k ≡ field_number tables.now.0 unit name.now) }
{
    let member = tables.unit_member(&[], unit, name)?;
    let number = number_of(&member);
    drop(member);
    Ok(number)
}

/// What a hook of a field is of that stands without `foreach`.
pub(crate) fn plain_of(unit: u32, number: Option<u32>) -> HookOf
    ensures { result ≡ plain_of unit number }
{
    match number {
        Some(field) => HookOf::Field(unit, field),
        None => HookOf::Nothing,
    }
}

/// What a hook of a field is of that stands with `foreach`.
pub(crate) fn each_of(unit: u32, number: Option<u32>) -> HookOf
    ensures { result ≡ each_of unit number }
{
    match number {
        Some(field) => HookOf::Elements(unit, field),
        None => HookOf::Nothing,
    }
}

fn field_of(unit: u32, each: bool, number: Option<u32>) -> HookOf
    ensures { result ≡ field_of unit each number }
{
    if each {
        each_of(unit, number)
    } else {
        plain_of(unit, number)
    }
}

fn unit_of(unit: u32, each: bool, name: HookName) -> HookOf
    ensures { result ≡ unit_of unit each name }
{
    if each {
        HookOf::Nothing
    } else {
        HookOf::Unit(unit, name)
    }
}

/// What a hook in a unit is of.
pub(crate) fn target_of(
    tables: &Tables<'_>,
    unit: u32,
    each: bool,
    target: &Ref<'_, TargetKind>,
) -> Result<HookOf, NoMemory>
    ensures { IfOk result (λ h. h ≡ target_of tables.now.0 unit each target.now) }
{
    match target.view() {
        TargetView::Name(name) => {
            let number = field_number(tables, unit, name)?;
            Ok(field_of(unit, each, number))
        }
        TargetView::Hook(name) => Ok(unit_of(unit, each, name)),
    }
}

fn unit_hook(each: bool, name: HookName, unit: Option<u32>) -> HookOf
    ensures { result ≡ unit_hook each name unit }
{
    match unit {
        Some(number) => unit_of(number, each, name),
        None => HookOf::Nothing,
    }
}

fn member_hook(
    tables: &Tables<'_>,
    each: bool,
    name: &str,
    unit: Option<u32>,
) -> Result<HookOf, NoMemory>
    ensures { IfOk result (λ h. h ≡ member_hook tables.now.0 each name.now unit) }
{
    match unit {
        Some(number) => {
            let field = field_number(tables, number, name)?;
            Ok(field_of(number, each, field))
        }
        None => Ok(HookOf::Nothing),
    }
}

/// What a hook is of behind whose path's third name these stand: no unit has a name of three names or more.
#[tactic(auto, using(crate::proofs::UnitPaths::long_hook))]
fn after_third(
    tables: &Tables<'_>,
    site: (u32, bool),
    first: &str,
    second: &str,
    third: &str,
    names: Members<'_, NameKind>,
) -> Result<HookOf, NoMemory>
    ensures { IfOk result (λ h. h ≡ names_hook tables.now.0 (told tables.now.1) site.0 site.1
        (first.now ∷ second.now ∷ third.now ∷ names_of names.entry)) }
{
    match names.split_first() {
        None => {
            let unit = scoped_unit(tables.names(), tables.known(), site.0, first, second);
            member_hook(tables, site.1, third, unit)
        }
        Some(_) => Ok(HookOf::Nothing),
    }
}

/// What a hook is of behind whose path's second name these stand.
fn after_second(
    tables: &Tables<'_>,
    site: (u32, bool),
    first: &str,
    second: &str,
    names: Members<'_, NameKind>,
) -> Result<HookOf, NoMemory>
    ensures { IfOk result (λ h. h ≡ names_hook tables.now.0 (told tables.now.1) site.0 site.1
        (first.now ∷ second.now ∷ names_of names.entry)) }
{
    match names.split_first() {
        None => {
            let unit = own_unit(tables.names(), tables.known(), site.0, first);
            member_hook(tables, site.1, second, unit)
        }
        Some((third, others)) => after_third(tables, site, first, second, third.text(), others),
    }
}

/// What a hook is of behind whose path's first name these stand.
fn after_first(
    tables: &Tables<'_>,
    site: (u32, bool),
    first: &str,
    names: Members<'_, NameKind>,
) -> Result<HookOf, NoMemory>
    ensures { IfOk result (λ h. h ≡ names_hook tables.now.0 (told tables.now.1) site.0 site.1
        (first.now ∷ names_of names.entry)) }
{
    match names.split_first() {
        None => Ok(HookOf::Nothing),
        Some((second, others)) => after_second(tables, site, first, second.text(), others),
    }
}

/// What a hook of a module is of, with `foreach` or without, whose path has these names and names a field.
fn names_hook(
    tables: &Tables<'_>,
    site: (u32, bool),
    names: Members<'_, NameKind>,
) -> Result<HookOf, NoMemory>
    ensures { IfOk result (λ h. h ≡ names_hook tables.now.0 (told tables.now.1) site.0 site.1
        (names_of names.entry)) }
{
    match names.split_first() {
        None => Ok(HookOf::Nothing),
        Some((first, others)) => after_first(tables, site, first.text(), others),
    }
}

/// What a hook outside of units is of.
pub(crate) fn declared_of(
    tables: &Tables<'_>,
    owner: u32,
    each: bool,
    path: &Ref<'_, PathKind>,
    name: &Option<Ref<'_, HookNameKind>>,
) -> Result<HookOf, NoMemory>
    ensures { IfOk result (λ h. h ≡ declared_of tables.now.0 (told tables.now.1) owner each
        (path_names path.now) (optional_tree name.now)) }
{
    match name {
        Some(hook) => {
            let unit = path_unit(tables.names(), tables.known(), owner, path);
            Ok(unit_hook(each, hook.name(), unit))
        }
        None => names_hook(tables, (owner, each), path.names()),
    }
}
