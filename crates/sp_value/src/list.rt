// Lists of values.
ghost use Rattle.std.specs.Prelude.{◌≡◌, IfOk};

use crate::keyed::copy_items;
use crate::value::Value;
use sp_base::NoMemory;
use std::alloc::Global;
use std::marker::Model;

/// A list of values.
#[derive(Drop)]
pub struct Values {
    items: Vec<Value>,
}

impl Model for Values {
    ghost use Rattle.std.specs.Prelude.{List};
    ghost use Rattle.std.specs.Coded.{codes};
    ghost use Rattle.sp_value.specs.Val.{Val};
    ghost use Rattle.sp_value.specs.inside.Codes.{coded_val};

    ghost Value = { List Val };

    ghost coded = { Prim.hlevel (codes, coded_val) };

    ghost view = { λ v. v.items.items };
}

impl Values {
    /// The values of a list. Takes no memory.
    pub fn new(items: Vec<Value>) -> Values
        ensures { result ≡ items.items }
    {
        Values { items }
    }

    /// The list of the values. Takes no memory.
    pub fn into_vec(self) -> Vec<Value>
        ensures { result.items ≡ self }
    {
        self.items
    }

    pub fn as_slice(&self) -> &[Value]
        ensures { result.now ≡ self.now }
    {
        self.items.as_slice()
    }

    /// An equal list. Each of its values shares its members with the one that it is a copy of.
    pub fn copy(&self) -> Result<Values, NoMemory>
        ensures { IfOk result (λ copy. copy ≡ self.now) }
    {
        let items = copy_all(*self.items.allocator(), self.items.as_slice())?;
        Ok(Values { items })
    }
}

/// The same values in a list of their own. Each shares its members with the one that it is a copy of.
pub fn copy_all(alloc: Global, values: &[Value]) -> Result<Vec<Value>, NoMemory>
    ensures { IfOk result (λ copies. copies.items ≡ values.now) }
{
    copy_items(alloc, values)
}
