// What declarations and labels tell.
ghost use Rattle.std.specs.Prelude.{◌≡◌, IfOk};
ghost use Rattle.sp_solver.specs.Told.{told};
ghost use Rattle.sp_type_values.specs.Valued.{written_type};

use sp_ast::{Ref, TypeKind};
use sp_base::NoMemory;
use sp_names::Names;
use sp_type_context::Place;
use sp_type_modules::type_at;
use sp_types::Type;
use std::alloc::Global;

/// The type that is written, if one is.
pub(crate) fn written_type(
    alloc: Global,
    names: &Names<'_>,
    known: &[Option<Type>],
    owner: u32,
    part: &Option<Ref<'_, TypeKind>>,
) -> Result<Option<Type>, NoMemory>
    ensures { IfOk result (λ t. t ≡ written_type names.now (told known.now) owner part.now) }
{
    match part {
        Some(tree) => Ok(Some(type_at(alloc, names, known, owner, Place::Value, tree)?)),
        None => Ok(None),
    }
}
