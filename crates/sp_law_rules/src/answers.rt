// Each list of modules has answers. This function does nothing.
ghost use Rattle.sp_law_rules.specs.Answers.{ListsAreAnswered};

use sp_type_members::tries_are_fair;

/// Each list of modules has answers: so what is said of a list under its answers is said of every list.
pub fn answers_are_there()
    ensures { ListsAreAnswered }
{
    tries_are_fair();
}
