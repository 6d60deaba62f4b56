// Names that stand alone, and names behind that of their module.
ghost use Rattle.std.specs.Prelude.{◌≡◌, option_copied, IfOk};
ghost use Rattle.sp_type_context.specs.Names.{single_name, path_of};

use sp_ast::{PathKind, Ref};
use sp_base::{NoMemory, Text, or_drop};
use std::alloc::Global;

/// The name that a path is, where it is one name.
pub fn single_name<'a>(path: &Ref<'a, PathKind>) -> Option<&'a str>
    ensures { option_copied result ≡ single_name path.now }
{
    let (first, others) = path.names().split_first()?;
    let text = first.text();
    match others.split_first() {
        Some(_) => None,
        None => Some(text),
    }
}

/// A name behind that of its module.
pub fn path_of(alloc: Global, owner: &str, name: &str) -> Result<Text, NoMemory>
    ensures { IfOk result (λ t. t ≡ path_of owner.now name.now) }
{
    let mut text = String::from_str(alloc, owner)?;
    or_drop!(text.push_str("::"); text);
    or_drop!(text.push_str(name); text);
    Text::from_string(text)
}
