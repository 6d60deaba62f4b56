// To names, files and directories there is one list at most, and one refusal.
ghost use Rattle.std.specs.Prelude.{◌≡◌, ℕ, List, Option, Some};
ghost use Rattle.sp_command.specs.declared.refusal.Refusal.{Refusal};
ghost use Rattle.sp_front.specs.declared.entries.ModuleFile.{ModuleFile};
ghost use Rattle.sp_load.specs.Loads.{IsLoaded, IsLoadRefused};

/// What names, files and directories load is one list or one refusal, and not both.
pub fn load_is_one()
    ensures list { (files : List ℕ → Option (List ℕ)) (names dirs : List (List ℕ))
        (first second : List ModuleFile) → IsLoaded (Some files) names dirs first
        → IsLoaded (Some files) names dirs second → first ≡ second }
    ensures refusal { (files : List ℕ → Option (List ℕ)) (names dirs : List (List ℕ))
        (first second : Refusal) → IsLoadRefused (Some files) names dirs first
        → IsLoadRefused (Some files) names dirs second → first ≡ second }
    ensures not_both { (files : List ℕ → Option (List ℕ)) (names dirs : List (List ℕ))
        (list : List ModuleFile) (refusal : Refusal) → IsLoaded (Some files) names dirs list
        → IsLoadRefused (Some files) names dirs refusal → ⊥ }
{}
