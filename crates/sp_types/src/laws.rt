// What holds of types.
ghost use Rattle.std.specs.Prelude.{◌≡◌, true};
ghost use Rattle.sp_types.specs.Types.{Ty, same};

/// Types that are the same by their parts are equal, and each type is the same as itself.
pub fn same_is_equal()
    ensures equal { (t u : Ty) → same t u ≡ true → t ≡ u }
    ensures itself { (t : Ty) → same t t ≡ true }
{}
