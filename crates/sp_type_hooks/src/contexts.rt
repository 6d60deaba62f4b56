// What stands round the expressions of a module or a unit, by its number.
ghost use Rattle.std.specs.Prelude.{◌≡◌, map, option_copied, slice_get};
ghost use Rattle.std.specs.Option.{option_map};

use sp_type_context::Context;

/// What stands round the expressions of a number.
#[tactic(auto, using(crate::proofs::Places::around_at))]
pub(crate) fn context_at<C: Context>(contexts: &[C], number: u32) -> Option<&C>
    ensures { option_map C.around (option_copied result)
        ≡ slice_get (map C.around contexts.now) number }
{
    contexts.get(number as usize)
}
