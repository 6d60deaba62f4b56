// What the definitions of a search come to, as clauses of functions that do nothing.
ghost use Rattle.std.specs.Prelude.{◌≡◌, ℕ, ◌++◌, List, Bool, false};
ghost use Rattle.sp_regex.specs.Trees.{Syntax};
ghost use Rattle.sp_sync.specs.declared.found.Found.{Found as Told};
ghost use Rattle.sp_sync.specs.declared.search.Search.{Search};
ghost use Rattle.sp_sync.specs.Places.{IsPlace};
ghost use Rattle.sp_sync.specs.Told.{HasTold};

use crate::found::Found;

/// There is one answer in the same data of the same set, with the same end.
pub fn one_place()
    ensures { (tokens : List Syntax) (from : ℕ) (d : List ℕ) (ended : Bool) (first second : Told)
        → IsPlace tokens from d ended first → IsPlace tokens from d ended second
        → first ≡ second }
{}

/// A place that is found stays the same, whatever bytes follow.
pub fn steady_place()
    ensures { (tokens : List Syntax) (from : ℕ) (d t : List ℕ) (ended : Bool) (k : ℕ)
        → IsPlace tokens from d false (Found.At k)
        → IsPlace tokens from (d ++ t) ended (Found.At k) }
{}

/// What was told of data that were open is told of the same data with more behind them.
pub fn told_more()
    ensures { (search : Search) (tokens : List Syntax) (from : ℕ) (d t : List ℕ) (ended : Bool)
        → HasTold search tokens from d false → HasTold search tokens from (d ++ t) ended }
{}
