// The program's answer is one.
ghost use Rattle.std.specs.Prelude.{◌≡◌, ℕ, List, Option};
ghost use Rattle.sp_driver.specs.Whole.{Answer, IsAnswer};

use sp_load::load_is_one;
use sp_type_answers::answers_are_one;

/// To words, files and an input there is one answer at most: one status, one output and one message.
pub fn answer_is_one()
    ensures { (words : List (List ℕ)) (files : List ℕ → Option (List ℕ)) (input : List ℕ)
        (first second : Answer) → IsAnswer words files input first
        → IsAnswer words files input second → first ≡ second }
{
    load_is_one();
    answers_are_one();
}
