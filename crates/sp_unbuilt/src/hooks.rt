// Hooks that aren't built yet.
ghost use Rattle.std.specs.Prelude.{◌≡◌};
ghost use Rattle.sp_ast.specs.Views.{optional_tree};
ghost use Rattle.sp_unbuilt.specs.Constructs.{is_late_hook, is_each, is_for_each, is_late_target, is_late_name};

use sp_ast::{HookBodyKind, HookKind, HookNameKind, Ref, TargetKind, TargetView};
use sp_words::HookName;

fn is_late_hook(name: HookName) -> bool
    ensures { result ≡ is_late_hook name }
{
    match name {
        HookName::Init | HookName::Done | HookName::Error | HookName::Finally => false,
        HookName::Synced
        | HookName::Confirmed
        | HookName::Rejected
        | HookName::Gap
        | HookName::Skipped
        | HookName::Overlap
        | HookName::Undelivered => true,
    }
}

/// Whether `foreach` stands before what a hook does.
pub(crate) fn is_each(body: &Ref<'_, HookBodyKind>) -> bool
    ensures { result ≡ is_each body.now }
{
    body.view().each
}

/// Whether a hook is one for each element.
pub(crate) fn is_for_each(hook: &Ref<'_, HookKind>) -> bool
    ensures { result ≡ is_for_each hook.now }
{
    is_each(&hook.view().body)
}

/// Whether a hook of its unit hangs on what isn't built.
pub(crate) fn is_late_target(target: &Ref<'_, TargetKind>) -> bool
    ensures { result ≡ is_late_target target.now }
{
    match target.view() {
        TargetView::Name(_) => false,
        TargetView::Hook(name) => is_late_hook(name),
    }
}

/// The same of the name of a hook behind a path, which may be left out.
pub(crate) fn is_late_name(name: &Option<Ref<'_, HookNameKind>>) -> bool
    ensures { result ≡ is_late_name (optional_tree name.now) }
{
    match name {
        Some(name) => is_late_hook(name.name()),
        None => false,
    }
}
