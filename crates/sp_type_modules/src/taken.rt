// Types that are taken where one is asked for.
ghost use Rattle.std.specs.Prelude.{◌≡◌};
ghost use Rattle.sp_type_modules.specs.Taken.{differ};

use sp_types::Type;

/// Whether both types are known, and not the same.
pub fn differ(a: &Type, b: &Type) -> bool
    ensures { result ≡ differ a.now b.now }
{
    a.is_known() && (b.is_known() && !a.same(b))
}
