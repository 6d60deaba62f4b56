// What is true of a list that is loaded.
ghost use Rattle.sp_driver.specs.LoadedLists.{LoadedListsPass};

use sp_front::listed_modules_are_read;
use sp_law_lists::{lists_pass, modules_are_apart};

/// Where all of a list that is loaded is built, what is typed of it passes: its modules are read, so that each alternative has its parts
/// and fields stand at places of their own, and no rule is broken in them.
pub(crate) fn loaded_lists_pass()
    ensures { LoadedListsPass }
{
    modules_are_apart();
    listed_modules_are_read();
    lists_pass();
}
