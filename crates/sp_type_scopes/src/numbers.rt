// The number of the first parameter of each name.
ghost use Rattle.std.specs.Prelude.{IfOk};
ghost use Rattle.sp_type_scopes.specs.inside.Tables.{AreNumbered};
ghost use Rattle.sp_name_tables.specs.Tables.{told_by};

use sp_base::{NoMemory, or_drop};
use sp_name_tables::{NameTable, declare, sum};
use sp_typed_units::Parameter;
use std::alloc::Global;

/// The numbers of parameters, from 0, by their names.
pub(crate) fn numbers_of(alloc: Global, parameters: &[Parameter]) -> Result<NameTable, NoMemory>
    ensures { IfOk result (λ t. AreNumbered parameters.now (told_by t)) }
{
    let mut table = NameTable::new(alloc);
    let mut number = 0;
    for i in 0..parameters.len() {
        or_drop!(declare(alloc, &mut table, parameters[i].name.as_str(), number); table);
        number = or_drop!(sum(number, 1); table);
    }
    Ok(table)
}
