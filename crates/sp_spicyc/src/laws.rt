// The answer of a call is determined by its words and the files.
ghost use Rattle.std.specs.Prelude.{◌≡◌, ℕ, List, Option};
ghost use Rattle.sp_spicyc.specs.Whole.{Answer, IsAnswer};

/// To words and files there is one answer at most: one status, one output and one message.
pub fn answer_is_one()
    ensures { (words : List (List ℕ)) (files : List ℕ → Option (List ℕ)) (first second : Answer)
        → IsAnswer words files first → IsAnswer words files second → first ≡ second }
{}
