// How events tell hooks, and members of units.
ghost use Rattle.std.specs.Prelude.{◌≡◌, IfOk, option_copied};
ghost use Rattle.sp_meaning.specs.Names.{scoped, of_elements, unit_name, member_name, member_of_unit, field_hook_name, hook_name, member_names};

use sp_base::{NoMemory, Text, or_drop};
use sp_typed_units::{HookOf, Member, Unit};
use std::alloc::Global;

/// A name behind that of what it stands in.
pub(crate) fn scoped(alloc: Global, owner: &str, name: &str) -> Result<Text, NoMemory>
    ensures { IfOk result (λ t. t ≡ scoped owner.now name.now) }
{
    let mut text = String::from_str(alloc, owner)?;
    text.push_str("::")?;
    text.push_str(name)?;
    Text::from_string(text)
}

/// The name of the elements of what has a name.
fn of_elements(alloc: Global, name: &str) -> Result<Text, NoMemory>
    ensures { IfOk result (λ t. t ≡ of_elements name.now) }
{
    let mut text = String::from_str(alloc, name)?;
    text.push_str(" foreach")?;
    Text::from_string(text)
}

fn unit_name(unit: Option<&Unit>) -> &str
    ensures { result.now ≡ unit_name (option_copied unit.entry) }
{
    match unit {
        Some(unit) => unit.path.as_str(),
        None => "",
    }
}

fn member_name(member: Option<&Member>) -> &str
    ensures { result.now ≡ member_name (option_copied member.entry) }
{
    match member {
        Some(member) => member.name.as_str(),
        None => "",
    }
}

fn member_of_unit(unit: Option<&Unit>, m: u32) -> Option<&Member>
    ensures { option_copied result ≡ member_of_unit (option_copied unit.entry) m }
{
    match unit {
        Some(unit) => unit.members.as_slice().get(m as usize),
        None => None,
    }
}

/// The name of the hook of a member.
fn field_hook_name(alloc: Global, units: &[Unit], u: u32, m: u32) -> Result<Text, NoMemory>
    ensures { IfOk result (λ t. t ≡ field_hook_name units.now u m) }
{
    let unit = units.get(u as usize);
    scoped(alloc, unit_name(unit), member_name(member_of_unit(unit, m)))
}

/// The name of a hook, as `M::U::f`, by what it is of.
pub fn hook_name(alloc: Global, units: &[Unit], of: HookOf) -> Result<Text, NoMemory>
    ensures { IfOk result (λ t. t ≡ hook_name units.now of) }
{
    match of {
        HookOf::Nothing => Text::new(alloc, ""),
        HookOf::Unit(u, name) => scoped(alloc, unit_name(units.get(u as usize)), name.text()),
        HookOf::Field(u, m) => field_hook_name(alloc, units, u, m),
        HookOf::Elements(u, m) => {
            let name = field_hook_name(alloc, units, u, m)?;
            let elements = of_elements(alloc, name.as_str());
            drop(name);
            elements
        }
        HookOf::Anonymous(u) => Text::new(alloc, unit_name(units.get(u as usize))),
        HookOf::AnonymousElements(u) => of_elements(alloc, unit_name(units.get(u as usize))),
    }
}

/// The names of members, by their numbers.
pub fn member_names(alloc: Global, members: &[Member]) -> Result<Vec<Text>, NoMemory>
    ensures { IfOk result (λ names. names.items ≡ member_names members.now) }
{
    let mut names = Vec::with_capacity(alloc, members.len())?;
    for member in members {
        let name = or_drop!(member.name.copy(); names);
        or_drop!(names.push(name); names);
    }
    Ok(names)
}
