// Instances of units.
ghost use Rattle.std.specs.Prelude.{◌≡◌, ◌<◌, List, Option, length, replicate, slice_get, None, IfOk, option_copied};
ghost use Rattle.sp_value.specs.Val.{Val};
ghost use Rattle.sp_meaning_states.specs.States.{with_member, flat};

use sp_base::NoMemory;
use sp_value::{Value, Values};
use std::alloc::Global;
use std::marker::Model;

/// An instance of a unit, seen as its parts: the number of the unit, the place at which it began, its
/// parameters, and what its members hold.
#[derive(Drop)]
pub struct Instance {
    unit: u32,
    start: u64,
    parameters: Values,
    members: Vec<Option<Value>>,
}

impl Model for Instance {
    ghost use Rattle.std.specs.Coded.{codes};
    ghost use Rattle.sp_value.specs.contracts.value.Value as value_row;
    ghost use Rattle.sp_meaning_states.specs.States as states;

    ghost Value = { states.Instance };

    ghost coded = { Prim.hlevel (codes, value_row.the_row.coded) };

    ghost view = { λ x. record { unit = x.unit; start = x.start; parameters = x.parameters; members = x.members.items } };
}

impl Instance {
    /// An instance of which no member is set.
    pub fn new(
        alloc: Global,
        unit: u32,
        start: u64,
        parameters: Values,
        members: usize,
    ) -> Result<Instance, NoMemory>
        ensures { IfOk result (λ x. x ≡ record {
          unit = unit;
          start = start;
          parameters = parameters;
          members = replicate members None;
        }) }
    {
        let mut unset = Vec::with_capacity(alloc, members)?;
        for _ in 0..members {
            unset.push(None)?;
        }
        Ok(Instance {
            unit,
            start,
            parameters,
            members: unset,
        })
    }

    pub fn unit(&self) -> u32
        ensures { result ≡ self.now.unit }
    {
        self.unit
    }

    pub fn start(&self) -> u64
        ensures { result ≡ self.now.start }
    {
        self.start
    }

    pub fn parameters(&self) -> &[Value]
        ensures { result.now ≡ self.now.parameters }
    {
        self.parameters.as_slice()
    }

    /// What a member holds.
    pub fn member(&self, m: usize) -> Option<&Value>
        requires { m < length self.now.members }
        ensures { option_copied result ≡ flat (slice_get self.now.members m) }
    {
        self.members[m].as_ref()
    }

    /// How many members there are.
    pub fn member_count(&self) -> usize
        ensures { result ≡ length self.now.members }
    {
        self.members.len()
    }

    /// Sets a member. Takes no memory.
    #[inline(always)]
    pub fn set_member(&mut self, m: usize, value: Value)
        requires { m < length self.old.members }
        ensures { self.new ≡ with_member m value self.old }
    {
        self.members[m] = Some(value);
    }

    /// Takes what a member holds, so that the value has no second owner, and leaves void in its place. Takes no memory.
    pub fn put_member(&mut self, m: usize, value: Value) -> Option<Value>
        requires { m < length self.old.members }
        ensures taken { result ≡ flat (slice_get self.old.members m) }
        ensures put { self.new ≡ with_member m value self.old }
    {
        std::mem::replace(&mut self.members[m], Some(value))
    }
}
