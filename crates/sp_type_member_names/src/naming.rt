// What names of a unit mean, and what its fields store.
ghost use Rattle.std.specs.Prelude.{◌≡◌, ℕ, IfOk, List, Option};
ghost use Rattle.sp_ast.specs.Trees.{Tree};
ghost use Rattle.sp_types.specs.Types.{Ty};

use sp_ast::{FieldKind, Ref};
use sp_base::NoMemory;
use sp_types::Type;
use std::alloc::Global;

/// What names of a unit mean, and what its fields store.
pub trait Naming {
    ghost numbers: { Self → List ℕ → Option ℕ };

    ghost types: { Self → Tree → Ty };

    /// The number of the member of a name.
    fn number(&self, name: &str) -> Result<Option<u32>, NoMemory>
        ensures { IfOk result (λ k. k ≡ numbers self.now name.now) };

    /// The type of what a field stores.
    fn stored(&self, alloc: Global, field: &Ref<'_, FieldKind>) -> Result<Type, NoMemory>
        ensures { IfOk result (λ t. t ≡ types self.now field.now) };
}
