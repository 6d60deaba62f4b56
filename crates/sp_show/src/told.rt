// Values as they are told.
ghost use Rattle.std.specs.Prelude.{◌≡◌, IfOk};
ghost use Rattle.sp_code.specs.Programs.{names_of};
ghost use Rattle.sp_meaning_states.specs.Telling.{value_tree, value_trees};

use crate::walk::walk_value;
use sp_base::NoMemory;
use sp_code::Program;
use sp_events::{Tree, Trees};
use sp_frames::Instance;
use sp_value::Value;
use std::alloc::Global;

/// A value as it is told: a unit with the members of its instance that are set, a label by its name, and a bitfield
/// by the names of its ranges. It takes no more of the machine's stack for a value that nests deeper.
pub fn value_tree(
    alloc: Global,
    p: &Program,
    instances: &[Instance],
    v: &Value,
) -> Result<Tree, NoMemory>
    ensures { IfOk result (λ tree. tree ≡ value_tree (names_of p.now) instances.now v.now) }
{
    walk_value(alloc, p, instances, v)
}

/// Values as they are told, in order.
pub fn value_trees(
    alloc: Global,
    p: &Program,
    instances: &[Instance],
    values: &[Value],
) -> Result<Trees, NoMemory>
    ensures { IfOk result (λ trees. trees ≡ value_trees (names_of p.now) instances.now values.now) }
{
    let mut trees = Vec::with_capacity(alloc, values.len())?;
    for v in values {
        trees.push(walk_value(alloc, p, instances, v)?)?;
    }
    Ok(Trees::new(trees))
}
