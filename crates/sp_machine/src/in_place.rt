// Changes of containers in place. What an instruction gives is stored at once where the code behind it stores it. The slot gives up
// its own value before a change, so that the container has no other owner, and isn't copied.
ghost use Rattle.std.specs.Prelude.{◌≡◌, ◌≢◌, ◌↔◌, ◌+◌, ◌<◌, ◌≤◌, ◌^◌, ◌∷◌, [], length, take, drop, true, slice_get, IsTrue, Ok, Some, OnOk, IfOk, IfSome};
ghost use Rattle.sp_words.specs.Methods.{arity, changes};
ghost use Rattle.sp_words.specs.declared.methods.Method.TheVariants as of;
ghost use Rattle.sp_words.specs.declared.operators.BinaryOp.TheVariants as is_op;
ghost use Rattle.sp_value.specs.Val.{void};
ghost use Rattle.sp_value.specs.Parts.{instance_in};
ghost use Rattle.sp_value.specs.Changes.{IsSet, IsKeyed, IsVector, items_of, with_member, without_key};
ghost use Rattle.sp_operators.specs.Operands.{are_joined, takes};
ghost use Rattle.sp_operators.specs.Operators.{added, binary};
ghost use Rattle.sp_methods.specs.Methods.{method, suits};
ghost use Rattle.sp_methods.specs.Taken.{popped};
ghost use Rattle.sp_meaning_states.specs.Values as values;
ghost use Rattle.sp_machine.specs.declared.in_place.Slot.TheVariants as slot_is;
ghost use Rattle.sp_code.specs.Can.{Can, top, second, third, below_top, IsPlace};
ghost use Rattle.sp_code.specs.Machine.{At, Goes, act, put, put_all};
ghost use Rattle.sp_code.specs.Programs.{plain_of};
ghost use Rattle.sp_machine.specs.declared.machine.Mode.TheVariants.{Running};
ghost use Rattle.sp_machine.specs.Plain.{state_of, plain, reads_of};
ghost use Rattle.sp_machine.specs.InPlace.{IsStored, IsSlot, IsPut, behind, load_of, owner_of, with_slot, may_change};
ghost use Rattle.sp_machine.specs.declared.in_place.Owner.TheVariants as owner_is;

use crate::machine::Machine;
use crate::rows::{Spot, spot_of};
use sp_base::{Limits, NoMemory, PKind, or_drop};
use sp_code::{Instr, Program};
use sp_lib::pop_back;
use sp_operators::ValueFault;
use sp_value::{Level, Value};
use sp_window::Window;
use sp_words::{BinaryOp, Method};

/// Whose a member is.
#[derive(Clone, Copy)]
pub(crate) enum Owner {
    /// the unit at hand
    Own,
    /// the unit that a local names
    Local(u32),
    /// the unit that a parameter of the unit at hand names
    Parameter(u32),
}

/// Where code stores a value.
#[derive(Clone, Copy)]
pub(crate) enum Slot {
    Local(u32),
    /// a unit's member
    Member(Owner, u32),
}

/// Whether an instruction can change a container, or joins bytes or texts.
pub(crate) fn may_change(instr: &Instr) -> bool
    ensures { result ≡ may_change instr.now }
{
    match instr {
        Instr::Binary(_) => true,
        Instr::Lib(called) => called.changes(),
        Instr::SetIndex => true,
        Instr::AddKey => true,
        Instr::DeleteKey => true,
        _ => false,
    }
}

/// Whether the second of two operands is put behind the first, and not added.
fn joins(left: &Value, right: &Value) -> bool
    ensures { result ≡ are_joined left.now right.now }
{
    match (left.level(), right.level()) {
        (Level::Bytes(_), Level::Bytes(_)) => true,
        (Level::Str(_), Level::Str(_)) => true,
        _ => false,
    }
}

/// Bytes or a text with more behind.
fn joined(left: Value, right: &Value) -> Result<Value, NoMemory>
    requires { IsTrue (are_joined left right.now) }
    ensures { IfOk result (λ value. added left right.now ≡ Ok value) }
{
    let mut all = left;
    match right.level() {
        Level::Bytes(more) => or_drop!(all.append_bytes(more); all),
        Level::Str(more) => or_drop!(all.append_str(more); all),
        _ => unreachable!(),
    }
    Ok(all)
}

fn is_empty(vector: &Value) -> bool
    requires { IsVector vector.now }
    ensures { IsTrue result ↔ (items_of vector.now ≡ []) }
{
    match vector.level() {
        Level::Vector(items) => items.is_empty(),
        _ => unreachable!(),
    }
}

/// Takes the last item of a vector that has one.
#[tactic(auto, using(crate::proofs::Spots::never_empty))]
fn last_of(vector: &mut Value) -> Result<Value, NoMemory>
    requires vector { IsVector vector.old }
    requires there { items_of vector.old ≢ [] }
    ensures { IfOk result (λ item. popped vector.old ≡ Ok (vector.new, item)) }
{
    match pop_back(vector) {
        Ok(item) => Ok(item),
        Err(ValueFault::Run(_)) => unreachable!(),
        Err(ValueFault::NoMemory) => Err(NoMemory),
    }
}

impl Machine {
    /// The slot in which the code from an address on stores what is on top.
    #[inline(always)]
    pub(crate) fn slot_from(&self, p: &Program, at: usize) -> Option<Slot>
        ensures { IfSome result (λ slot. IsStored p.now.code.items at slot × IsSlot slot (state_of self.now)
            × (at + 1 + 1 < 2 ^ 64)) }
    {
        match p.code.get(at) {
            Some(Instr::Store(l)) => self.local_slot(*l),
            Some(Instr::SelfUnit) => self.member_from(p, at, Owner::Own),
            Some(Instr::Load(l)) => self.member_from(p, at, Owner::Local(*l)),
            Some(Instr::Param(n)) => self.member_from(p, at, Owner::Parameter(*n)),
            _ => None,
        }
    }

    /// The slot of an owner's member in which the code stores, which gives the owner at this address.
    #[inline(always)]
    fn member_from(&self, p: &Program, at: usize, owner: Owner) -> Option<Slot>
        requires within { at < length p.now.code.items }
        requires owner { slice_get p.now.code.items at ≡ Some (load_of owner) }
        ensures { IfSome result (λ slot. IsStored p.now.code.items at slot × IsSlot slot (state_of self.now)
            × (at + 1 + 1 < 2 ^ 64)) }
    {
        match p.code.get(at + 1) {
            Some(Instr::SetField(m)) => self.member_slot(owner, *m),
            _ => None,
        }
    }

    #[inline(always)]
    fn local_slot(&self, l: u32) -> Option<Slot>
        ensures { IfSome result (λ slot. (slot ≡ slot_is.Local l) × IsSlot slot (state_of self.now)) }
    {
        if (l as usize) < self.locals.len() {
            Some(Slot::Local(l))
        } else {
            None
        }
    }

    /// The number of the unit whose a member is.
    #[inline(always)]
    fn unit_of(&self, owner: Owner) -> Option<usize>
        ensures { result ≡ instance_in (owner_of owner (state_of self.now)) }
    {
        match owner {
            Owner::Own => Some(self.own),
            Owner::Local(l) => match self.locals.get(l as usize) {
                Some(local) => local.as_unit(),
                None => None,
            },
            Owner::Parameter(n) => self.parameter_unit(n),
        }
    }

    #[tactic(auto, using(crate::proofs::InPlace::is_there))]
    #[inline(always)]
    fn member_slot(&self, owner: Owner, m: u32) -> Option<Slot>
        ensures { IfSome result (λ slot. (slot ≡ slot_is.Member owner m) × IsSlot slot (state_of self.now)) }
    {
        match self.unit_of(owner) {
            Some(n)
                if n < self.instances.len() && (m as usize) < self.instances[n].member_count() => {
                Some(Slot::Member(owner, m))
            }
            _ => None,
        }
    }

    #[tactic(auto, using(crate::proofs::InPlace::slot_stays, crate::proofs::InPlace::has_number, crate::proofs::InPlace::member_there, crate::proofs::InPlace::sets_there))]
    #[inline(always)]
    pub(crate) fn set_slot(&mut self, slot: Slot, value: Value)
        requires there { IsSlot slot (state_of self.old) }
        ensures rest { self.new ≡ record self.old { locals = self.new.locals; instances = self.new.instances } }
        ensures state { state_of self.new ≡ with_slot slot value (state_of self.old) }
        ensures there { IsSlot slot (state_of self.new) }
    {
        match slot {
            Slot::Local(l) => self.locals[l as usize] = value,
            Slot::Member(owner, m) => match self.unit_of(owner) {
                Some(n) => self.instances[n].set_member(m as usize, value),
                None => unreachable!(),
            },
        }
    }

    /// Stores a value, and goes on behind that.
    #[inline(always)]
    pub(crate) fn store_in(&mut self, slot: Slot, value: Value)
        requires running { self.old.mode ≡ Running }
        requires within { self.old.pc + 1 + 1 + 1 < 2 ^ 64 }
        requires there { IsSlot slot (state_of self.old) }
        ensures { plain self.new ≡ At (behind slot (self.old.pc + 1)) self.old.operands self.old.stack
            (with_slot slot value (state_of self.old)) }
    {
        self.set_slot(slot, value);
        match slot {
            Slot::Local(_) => self.pc += 2,
            Slot::Member(_, _) => self.pc += 3,
        }
    }

    #[tactic(auto, using(crate::proofs::InPlace::given_up))]
    fn push_back_in(&mut self, slot: Slot) -> Result<(), NoMemory>
        requires running { self.old.mode ≡ Running }
        requires within { self.old.pc + 1 + 1 + 1 < 2 ^ 64 }
        requires there { IsSlot slot (state_of self.old) }
        requires operands { 1 < length self.old.operands }
        requires taken { IsTrue (suits of.PushBack (take 2 self.old.operands)) }
        ensures { OnOk result (IsPut slot (self.old.pc + 1) (put_all (method of.PushBack (take 2 self.old.operands))
            (self.old.pc + 1) (drop 2 self.old.operands) self.old.stack (state_of self.old)) (plain self.new)) }
    {
        let item = self.operands.pop();
        let mut vector = self.operands.pop();
        self.set_slot(slot, Value::void());
        or_drop!(vector.push_back(item); vector);
        self.store_in(slot, vector);
        Ok(())
    }

    /// Puts a value at a key of a container.
    #[tactic(auto, using(crate::proofs::InPlace::given_up, crate::proofs::Spots::past_error, crate::proofs::Spots::with_item_at))]
    pub(crate) fn put_at_in(
        &mut self,
        container: Value,
        key: Value,
        x: Value,
        slot: Slot,
    ) -> Result<(), NoMemory>
        requires running { self.old.mode ≡ Running }
        requires within { self.old.pc + 1 + 1 + 1 < 2 ^ 64 }
        requires there { IsSlot slot (state_of self.old) }
        requires place { IsPlace container key }
        ensures { OnOk result (IsPut slot (self.old.pc + 1) (put (values.with_at container key x) (self.old.pc + 1)
            self.old.operands self.old.stack (state_of self.old)) (plain self.new)) }
    {
        let mut changed = container;
        match spot_of(&changed, &key) {
            Spot::Past => {
                self.fails(PKind::Index);
                drop(changed);
                drop(key);
                drop(x);
            }
            Spot::Within(i) => {
                self.set_slot(slot, Value::void());
                or_drop!(changed.set_item(i, x); changed, key);
                drop(key);
                self.store_in(slot, changed);
            }
            Spot::Keyed => {
                self.set_slot(slot, Value::void());
                or_drop!(changed.insert(key, x); changed);
                self.store_in(slot, changed);
            }
        }
        Ok(())
    }

    fn set_index_in(&mut self, slot: Slot) -> Result<(), NoMemory>
        requires running { self.old.mode ≡ Running }
        requires within { self.old.pc + 1 + 1 + 1 < 2 ^ 64 }
        requires there { IsSlot slot (state_of self.old) }
        requires operands { 2 < length self.old.operands }
        requires place { IsPlace (third self.old.operands) (second self.old.operands) }
        ensures { OnOk result (IsPut slot (self.old.pc + 1) (put
            (values.with_at (third self.old.operands) (second self.old.operands) (top self.old.operands)) (self.old.pc + 1)
            (below_top (below_top (below_top self.old.operands))) self.old.stack (state_of self.old)) (plain self.new)) }
    {
        let x = self.operands.pop();
        let key = self.operands.pop();
        let container = self.operands.pop();
        self.put_at_in(container, key, x, slot)
    }

    #[tactic(auto, using(crate::proofs::InPlace::given_up))]
    fn add_key_in(&mut self, slot: Slot) -> Result<(), NoMemory>
        requires running { self.old.mode ≡ Running }
        requires within { self.old.pc + 1 + 1 + 1 < 2 ^ 64 }
        requires there { IsSlot slot (state_of self.old) }
        requires operands { 1 < length self.old.operands }
        requires set { IsSet (second self.old.operands) }
        ensures { OnOk result (IsPut slot (self.old.pc + 1) (Goes [] (At (self.old.pc + 1)
            (with_member (second self.old.operands) (top self.old.operands) ∷ below_top (below_top self.old.operands))
            self.old.stack (state_of self.old))) (plain self.new)) }
    {
        let key = self.operands.pop();
        let mut set = self.operands.pop();
        self.set_slot(slot, Value::void());
        or_drop!(set.add(key); set);
        self.store_in(slot, set);
        Ok(())
    }

    #[tactic(auto, using(crate::proofs::InPlace::given_up))]
    fn delete_key_in(&mut self, slot: Slot) -> Result<(), NoMemory>
        requires running { self.old.mode ≡ Running }
        requires within { self.old.pc + 1 + 1 + 1 < 2 ^ 64 }
        requires there { IsSlot slot (state_of self.old) }
        requires operands { 1 < length self.old.operands }
        requires keyed { IsKeyed (second self.old.operands) }
        ensures { OnOk result (IsPut slot (self.old.pc + 1) (Goes [] (At (self.old.pc + 1)
            (without_key (second self.old.operands) (top self.old.operands) ∷ below_top (below_top self.old.operands))
            self.old.stack (state_of self.old))) (plain self.new)) }
    {
        let key = self.operands.pop();
        let mut keyed = self.operands.pop();
        self.set_slot(slot, Value::void());
        let deleted = keyed.delete(&key);
        drop(key);
        or_drop!(deleted; keyed);
        self.store_in(slot, keyed);
        Ok(())
    }

    #[tactic(auto, using(crate::proofs::InPlace::given_up))]
    fn pop_back_in(&mut self, slot: Slot) -> Result<(), NoMemory>
        requires running { self.old.mode ≡ Running }
        requires within { self.old.pc + 1 + 1 + 1 < 2 ^ 64 }
        requires there { IsSlot slot (state_of self.old) }
        requires operands { 0 < length self.old.operands }
        requires taken { IsTrue (suits of.PopBack (take 1 self.old.operands)) }
        ensures { OnOk result (IsPut slot (self.old.pc + 1) (put_all (method of.PopBack (take 1 self.old.operands))
            (self.old.pc + 1) (drop 1 self.old.operands) self.old.stack (state_of self.old)) (plain self.new)) }
    {
        let mut vector = self.operands.pop();
        if is_empty(&vector) {
            drop(vector);
            self.fails(PKind::Index);
            return Ok(());
        }
        self.set_slot(slot, Value::void());
        let item = or_drop!(last_of(&mut vector); vector);
        or_drop!(self.operands.push(item); vector);
        self.store_in(slot, vector);
        Ok(())
    }

    /// Joins two operands.
    #[tactic(auto, using(crate::proofs::InPlace::given_up))]
    fn join_in(&mut self, slot: Slot) -> Result<(), NoMemory>
        requires running { self.old.mode ≡ Running }
        requires within { self.old.pc + 1 + 1 + 1 < 2 ^ 64 }
        requires there { IsSlot slot (state_of self.old) }
        requires operands { 1 < length self.old.operands }
        requires joined { IsTrue (are_joined (second self.old.operands) (top self.old.operands)) }
        ensures { OnOk result (IsPut slot (self.old.pc + 1) (put
            (added (second self.old.operands) (top self.old.operands)) (self.old.pc + 1)
            (below_top (below_top self.old.operands)) self.old.stack (state_of self.old)) (plain self.new)) }
    {
        let right = self.operands.pop();
        let left = self.operands.pop();
        self.set_slot(slot, Value::void());
        let all = joined(left, &right);
        drop(right);
        let all = all?;
        self.store_in(slot, all);
        Ok(())
    }

    /// Whether the operator puts one of the two operands on top behind the other.
    #[inline(always)]
    fn is_join(&self, op: BinaryOp) -> bool
        requires { 1 < length self.now.operands }
        ensures { IsTrue result → (op ≡ is_op.Add)
            × IsTrue (are_joined (second self.now.operands) (top self.now.operands)) }
    {
        let BinaryOp::Add = op else {
            return false;
        };
        let two = self.operands.on_top(2);
        if two[0].as_uint().is_some() {
            return false;
        }
        joins(&two[0], &two[1])
    }

    #[inline(always)]
    fn binary_in(&mut self, op: BinaryOp, slot: Slot) -> Result<(), NoMemory>
        requires running { self.old.mode ≡ Running }
        requires within { self.old.pc + 1 + 1 + 1 < 2 ^ 64 }
        requires there { IsSlot slot (state_of self.old) }
        requires operands { 1 < length self.old.operands }
        requires taken { IsTrue (takes op (second self.old.operands) (top self.old.operands)) }
        ensures { OnOk result (IsPut slot (self.old.pc + 1) (put
            (binary op (second self.old.operands) (top self.old.operands)) (self.old.pc + 1)
            (below_top (below_top self.old.operands)) self.old.stack (state_of self.old)) (plain self.new)) }
    {
        if self.is_join(op) {
            return self.join_in(slot);
        }
        let found = self.operated(op);
        drop(self.operands.pop());
        drop(self.operands.pop());
        match found {
            Ok(found) => {
                self.store_in(slot, found);
                Ok(())
            }
            Err(ValueFault::Run(kind)) => {
                self.fails(kind);
                Ok(())
            }
            Err(ValueFault::NoMemory) => Err(NoMemory),
        }
    }

    fn call_method_in(&mut self, called: Method, slot: Slot) -> Result<(), NoMemory>
        requires running { self.old.mode ≡ Running }
        requires within { self.old.pc + 1 + 1 + 1 < 2 ^ 64 }
        requires there { IsSlot slot (state_of self.old) }
        requires changes { changes called ≡ true }
        requires operands { arity called ≤ length self.old.operands }
        requires taken { IsTrue (suits called (take (arity called) self.old.operands)) }
        ensures { OnOk result (IsPut slot (self.old.pc + 1) (put_all (method called (take (arity called) self.old.operands))
            (self.old.pc + 1) (drop (arity called) self.old.operands) self.old.stack (state_of self.old)) (plain self.new)) }
    {
        match called {
            Method::PushBack => self.push_back_in(slot),
            Method::PopBack => self.pop_back_in(slot),
            _ => unreachable!(),
        }
    }

    /// Does the instruction, and stores what it gives in the slot, or fails as it does.
    #[inline(always)]
    pub(crate) fn change(
        &mut self,
        p: &Program,
        limits: &Limits,
        window: &Window,
        is_ended: bool,
        instr: &Instr,
        slot: Slot,
    ) -> Result<(), NoMemory>
        requires running { self.old.mode ≡ Running }
        requires within { self.old.pc + 1 + 1 + 1 < 2 ^ 64 }
        requires there { IsSlot slot (state_of self.old) }
        requires changes { IsTrue (may_change instr.now) }
        requires can { Can (plain_of limits.now p.now) (Some instr.now) self.old.operands (state_of self.old) }
        ensures { OnOk result (IsPut slot (self.old.pc + 1) (act (plain_of limits.now p.now) (reads_of window.now is_ended)
            (Some instr.now) self.old.pc self.old.operands self.old.stack (state_of self.old)) (plain self.new)) }
    {
        match instr {
            Instr::Binary(op) => self.binary_in(*op, slot),
            Instr::Lib(called) => self.call_method_in(*called, slot),
            Instr::SetIndex => self.set_index_in(slot),
            Instr::AddKey => self.add_key_in(slot),
            Instr::DeleteKey => self.delete_key_in(slot),
            _ => unreachable!(),
        }
    }
}
