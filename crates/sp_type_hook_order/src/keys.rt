// What hooks hang on.
ghost use Rattle.std.specs.Prelude.{◌≡◌};
ghost use Rattle.sp_type_hook_order.specs.Keys.{name_number, parts_of};

use sp_words::HookName;

/// What a hook hangs on.
#[derive(Clone, Copy)]
pub enum HookKey {
    /// A unit, by number, and the hook that each unit has.
    Unit(u32, HookName),
    /// A unit, by number, and the number of its member.
    Member(u32, u32),
    /// A unit, by number, and the place at which its anonymous field begins.
    Anonymous(u32, u32),
}

/// The place of a name among the names of hooks, from 0.
fn name_number(name: HookName) -> u32
    ensures { result ≡ name_number name }
{
    match name {
        HookName::Init => 0,
        HookName::Done => 1,
        HookName::Error => 2,
        HookName::Finally => 3,
        HookName::Synced => 4,
        HookName::Confirmed => 5,
        HookName::Rejected => 6,
        HookName::Gap => 7,
        HookName::Skipped => 8,
        HookName::Overlap => 9,
        HookName::Undelivered => 10,
    }
}

/// The parts of a key: which alternative it is, the number of its unit, and what it is in that.
pub(crate) fn parts_of(key: HookKey) -> (u32, u32, u32)
    ensures { result ≡ parts_of key }
{
    match key {
        HookKey::Unit(unit, name) => (0, unit, name_number(name)),
        HookKey::Member(unit, member) => (1, unit, member),
        HookKey::Anonymous(unit, place) => (2, unit, place),
    }
}
