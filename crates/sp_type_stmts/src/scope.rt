// What is open at a statement, and the slots of its body so far.
use crate::locals::Locals;
use sp_base::{NoMemory, or_drop};
use sp_types::Type;
use std::alloc::Global;
use std::marker::Model;

/// The locals that are open, and the types of all slots of the body so far. Clauses see both as lists.
#[derive(Drop)]
pub struct Scope {
    locals: Locals,
    slots: Vec<Type>,
}

impl Model for Scope {
    ghost use Rattle.sp_types.specs.contracts.types.Type as type_row;
    ghost use Rattle.sp_type_stmts.specs.Scopes.{Scope as Data, coded_scope};

    ghost Value = { Data };

    ghost coded = { coded_scope type_row.the_row.coded };

    ghost view = { λ s. record { locals = s.locals; slots = s.slots.items } };
}

impl Scope {
    ghost use Rattle.std.specs.Prelude.{◌≡◌, [], length, is_some, IfOk, OnOk};
    ghost use Rattle.sp_type_stmts.specs.Scopes.{found, with_slot, with_local};
    ghost use Rattle.sp_type_stmts.specs.Marks.{back};

    /// No local is open. The slots are those that the body has from the first, of its hidden arguments.
    pub fn new(alloc: Global, slots: Vec<Type>) -> Scope
        ensures { result ≡ record { locals = []; slots = slots.items } }
    {
        Scope {
            locals: Locals::new(alloc),
            slots,
        }
    }

    /// The types of all slots, in their order.
    pub fn into_slots(self) -> Vec<Type>
        ensures { result.items ≡ self.slots }
    {
        self.slots
    }

    /// The locals that are open.
    pub fn locals(&self) -> &Locals
        ensures { result.now ≡ self.now.locals }
    {
        &self.locals
    }

    /// How many locals are open.
    pub fn mark(&self) -> usize
        ensures { result ≡ length self.now.locals }
    {
        self.locals.len()
    }

    /// Closes locals until so many are left.
    pub fn close(&mut self, mark: usize)
        ensures { self.new ≡ back mark self.old }
    {
        self.locals.close(mark);
    }

    /// The number of the next slot.
    fn next(&self) -> Result<u32, NoMemory>
        ensures { IfOk result (λ n. n ≡ length self.now.slots) }
    {
        u32::try_from(self.slots.len()).map_err(|_| NoMemory)
    }

    /// One more slot, for what has no name.
    pub fn take_slot(&mut self, ty: Type) -> Result<u32, NoMemory>
        ensures slot { IfOk result (λ n. n ≡ length self.old.slots) }
        ensures scope { OnOk result (self.new ≡ with_slot self.old ty) }
    {
        let slot = or_drop!(self.next(); ty);
        self.slots.push(ty)?;
        Ok(slot)
    }

    /// Opens a local, which has the next slot. Answers whether an open one has its name already.
    pub fn open(&mut self, alloc: Global, name: &str, ty: Type) -> Result<(u32, bool), NoMemory>
        ensures slot { IfOk result (λ r. r.0 ≡ length self.old.slots) }
        ensures taken { IfOk result (λ r. r.1 ≡ is_some (found name.now self.old.locals)) }
        ensures scope { OnOk result (self.new ≡ with_local self.old name.now ty) }
    {
        let slot = or_drop!(self.next(); ty);
        let kept = or_drop!(ty.copy(); ty);
        or_drop!(self.slots.push(kept); ty);
        let taken = self.locals.open(alloc, name, slot, ty)?;
        Ok((slot, taken))
    }
}
