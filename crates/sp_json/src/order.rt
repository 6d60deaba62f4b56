// Values by name, in the byte order of the names.
ghost use Rattle.std.specs.Prelude.{◌≡◌, ◌≤◌, ℕ, [], IfOk};
ghost use Rattle.serde_json.specs.Data.{Data, no_members};
ghost use Rattle.sp_json.specs.inside.Tokens.{lent, rise_from, in_order, with_entries, total};

use sp_base::Text;
use std::alloc::{AllocError, Global};
use std::cmp::Ordering;
use std::collections::BTreeMap;

/// Whether each name is greater than the one before it, and the first not empty.
pub(crate) fn are_rising<T>(entries: &[(Text, T)]) -> bool
    ensures { result ≡ rise_from [] entries.now }
{
    let mut last = "";
    for (name, _) in entries {
        match last.cmp(name.as_str()) {
            Ordering::Less => last = name.as_str(),
            Ordering::Equal | Ordering::Greater => return false,
        }
    }
    true
}

/// The entries in the order of their names; of those with one name the last.
pub(crate) fn sorted<'a, T>(
    alloc: Global,
    entries: &'a [(Text, T)],
) -> Result<BTreeMap<&'a str, &'a T>, AllocError>
    ensures members { IfOk result (λ table. (json : T → Data)
        → in_order json (lent table.entries) ≡ with_entries json entries.now no_members) }
    ensures weight { IfOk result (λ table. (weight : T → ℕ)
        → total weight (lent table.entries) ≤ total weight entries.now) }
{
    let mut table = BTreeMap::new(alloc);
    for (name, value) in entries {
        let _ = table.insert(name.as_str(), value)?;
    }
    Ok(table)
}
