// To names, files and directories there is one list at most, or one refusal.
ghost use Rattle.std.specs.Prelude.{◌≡◌, ℕ, List, Option, Some, length, take};
ghost use Rattle.std.specs.List.{AllByRecursion};
ghost use Rattle.sp_command.specs.declared.refusal.Refusal.{Refusal};
ghost use Rattle.sp_front.specs.declared.entries.ModuleFile.{ModuleFile};
ghost use Rattle.sp_front.specs.Asked.{AsksAll};
ghost use Rattle.sp_front.specs.Lists.{Files, IsList, IsListRefused, IsRead, paths_in};

/// What names, files and directories make is one list or one refusal, and not both; and the paths that are asked for it are these in
/// this order.
pub fn list_is_one()
    ensures list { (files : List ℕ → Option (List ℕ)) (names dirs : List (List ℕ))
        (first second : List ModuleFile) → IsList (Some files) names dirs first
        → IsList (Some files) names dirs second → first ≡ second }
    ensures refusal { (files : List ℕ → Option (List ℕ)) (names dirs : List (List ℕ))
        (first second : Refusal) → IsListRefused (Some files) names dirs first
        → IsListRefused (Some files) names dirs second → first ≡ second }
    ensures not_both { (files : List ℕ → Option (List ℕ)) (names dirs : List (List ℕ))
        (list : List ModuleFile) (refusal : Refusal) → IsList (Some files) names dirs list
        → IsListRefused (Some files) names dirs refusal → ⊥ }
    ensures asked { (files : List ℕ → Option (List ℕ)) (names dirs first second : List (List ℕ))
        → AsksAll files names dirs first → AsksAll files names dirs second → first ≡ second }
{}

/// The first files of a list are the named ones, at their paths.
pub fn named_files_come_first()
    ensures { (files : Files) (names dirs : List (List ℕ)) (list : List ModuleFile)
        → IsList files names dirs list → paths_in (take (length names) list) ≡ names }
{}

/// The modules of a list are read from the texts of their files.
pub fn listed_modules_are_read()
    ensures { (files : Files) (names dirs : List (List ℕ)) (list : List ModuleFile)
        → IsList files names dirs list → AllByRecursion IsRead list }
{}
