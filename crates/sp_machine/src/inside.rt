// Changes in place of a container inside another one. What an instruction gives is put at its key and stored at once, where the code behind
// it does so. Before the change the slot gives up its own value, and the other container what it has at the key, so that neither of the
// two has a second owner.
ghost use Rattle.std.specs.Prelude.{◌≡◌, ◌≢◌, ◌+◌, ◌<◌, ◌≤◌, ◌^◌, ◌∷◌, [], List, length, take, drop, true, slice_get, IsTrue, Ok, Some, OnOk, IfOk, IfSome, MatchOption};
ghost use Rattle.sp_base.specs.declared.kinds.PKind.TheVariants as error_is;
ghost use Rattle.sp_events.specs.declared.event.What.{What};
ghost use Rattle.sp_words.specs.Methods.{arity};
ghost use Rattle.sp_words.specs.declared.methods.Method.TheVariants as of;
ghost use Rattle.sp_value.specs.Val.{Val};
ghost use Rattle.sp_value.specs.Changes.{IsSet, IsKeyed, with_member, without_key};
ghost use Rattle.sp_methods.specs.Methods.{method, suits};
ghost use Rattle.sp_meaning_states.specs.States.{Failed, error_at};
ghost use Rattle.sp_meaning_states.specs.Values as values;
ghost use Rattle.sp_code.specs.declared.instr.Instr.TheVariants as does;
ghost use Rattle.sp_code.specs.Can.{Can, top, second, third, below_top, IsPlace};
ghost use Rattle.sp_code.specs.Machine.{At, Ending, Goes, act, put, put_all};
ghost use Rattle.sp_code.specs.Programs.{plain_of};
ghost use Rattle.sp_code.specs.Turns.{Turns};
ghost use Rattle.sp_machine.specs.declared.machine.Mode.TheVariants.{Running};
ghost use Rattle.sp_machine.specs.declared.machine.Stop.TheVariants.{GoesOn};
ghost use Rattle.sp_machine.specs.Plain.{state_of, plain, reads_of};
ghost use Rattle.sp_machine.specs.Ran.{Advanced};
ghost use Rattle.sp_machine.specs.Rows.{IsSpot};
ghost use Rattle.sp_machine.specs.Safe.{IsSafe};
ghost use Rattle.sp_machine.specs.InPlace.{IsStored, IsSlot, IsPut};
ghost use Rattle.sp_machine.specs.Inside.{is_push, changes_inside, IsPutInside, HasPlace, CanPut, IsOpened, IsShut};

use crate::in_place::Slot;
use crate::machine::Machine;
use crate::rows::{Spot, spot_of};
use sp_base::{Limits, NoMemory, PKind, or_drop};
use sp_code::{Instr, Program};
use sp_value::Value;
use sp_window::Window;
use sp_words::Method;

fn is_push(called: Method) -> bool
    ensures { result ≡ is_push called }
{
    match called {
        Method::PushBack => true,
        _ => false,
    }
}

/// Whether an instruction changes a container and gives nothing beside it.
fn changes_inside(instr: &Instr) -> bool
    ensures { result ≡ changes_inside instr.now }
{
    match instr {
        Instr::Lib(called) => is_push(*called),
        Instr::SetIndex => true,
        Instr::AddKey => true,
        Instr::DeleteKey => true,
        _ => false,
    }
}

/// A container with a value at a key for which it has a place.
#[tactic(auto, using(crate::proofs::Spots::with_item_at))]
fn filled(container: Value, key: Value, x: Value, spot: Spot) -> Result<Value, NoMemory>
    requires { IsSpot container key spot }
    ensures { IfOk result (λ value. spot ≢ Spot.Past → values.with_at container key x ≡ Ok value) }
{
    let mut changed = container;
    match spot {
        Spot::Past => {
            drop(key);
            drop(x);
        }
        Spot::Within(i) => {
            or_drop!(changed.set_item(i, x); changed, key);
            drop(key);
        }
        Spot::Keyed => or_drop!(changed.insert(key, x); changed),
    }
    Ok(changed)
}

/// Takes what a container has at a key away.
#[tactic(auto, using(crate::proofs::Nested::within_takes, crate::proofs::Nested::within_place))]
fn take_item(container: &mut Value, key: &Value, i: usize) -> Result<(), NoMemory>
    requires { IsSpot container.old key.now (Spot.Within i) }
    ensures place { OnOk result (IsPlace container.new key.now) }
    ensures same { OnOk result ((x : Val) → values.with_at container.new key.now x
        ≡ values.with_at container.old key.now x) }
{
    let mut taken = Value::void();
    let swapped = container.swap_item(i, &mut taken);
    drop(taken);
    swapped?;
    Ok(())
}

#[tactic(auto, using(crate::proofs::Nested::keyed_takes, crate::proofs::Nested::keyed_place))]
fn take_value(container: &mut Value, key: &Value) -> Result<(), NoMemory>
    requires { IsSpot container.old key.now Spot.Keyed }
    ensures place { OnOk result (IsPlace container.new key.now) }
    ensures same { OnOk result ((x : Val) → values.with_at container.new key.now x
        ≡ values.with_at container.old key.now x) }
{
    let mut taken = Value::void();
    let swapped = container.swap_value(key, &mut taken);
    drop(taken);
    swapped?;
    Ok(())
}

impl Machine {
    /// Takes away the slot's own value, and an item of a container.
    #[tactic(auto, using(crate::proofs::Nested::opened_within))]
    fn open_within(
        &mut self,
        container: Value,
        key: &Value,
        i: usize,
        slot: Slot,
    ) -> Result<Value, NoMemory>
        requires there { IsSlot slot (state_of self.old) }
        requires spot { IsSpot container key.now (Spot.Within i) }
        ensures rest { self.new ≡ record self.old { locals = self.new.locals; instances = self.new.instances } }
        ensures opened { IfOk result (IsOpened container key.now slot (state_of self.old) (state_of self.new)) }
    {
        self.set_slot(slot, Value::void());
        let mut emptied = container;
        or_drop!(take_item(&mut emptied, key, i); emptied);
        Ok(emptied)
    }

    /// Takes away the slot's own value, and what a map has at a key.
    #[tactic(auto, using(crate::proofs::Nested::opened_keyed))]
    fn open_keyed(&mut self, container: Value, key: &Value, slot: Slot) -> Result<Value, NoMemory>
        requires there { IsSlot slot (state_of self.old) }
        requires spot { IsSpot container key.now Spot.Keyed }
        ensures rest { self.new ≡ record self.old { locals = self.new.locals; instances = self.new.instances } }
        ensures opened { IfOk result (IsOpened container key.now slot (state_of self.old) (state_of self.new)) }
    {
        self.set_slot(slot, Value::void());
        let mut emptied = container;
        or_drop!(take_value(&mut emptied, key); emptied);
        Ok(emptied)
    }

    /// Takes away the slot's own value, and what a container has at a key. Where it has no such place the machine fails.
    #[tactic(auto, using(crate::proofs::Nested::shut))]
    fn opened(
        &mut self,
        container: Value,
        key: &Value,
        slot: Slot,
    ) -> Result<Option<Value>, NoMemory>
        requires there { IsSlot slot (state_of self.old) }
        requires place { IsPlace container key.now }
        ensures { IfOk result (λ found. MatchOption found
            ((plain self.new ≡ Ending (Failed (error_at error_is.Index (state_of self.old))) self.old.stack
            (state_of self.old)) × IsShut container key.now)
            (λ emptied. IsOpened container key.now slot (state_of self.old) (state_of self.new) emptied
            × (self.new ≡ record self.old { locals = self.new.locals; instances = self.new.instances }))) }
    {
        match spot_of(&container, key) {
            Spot::Past => {
                drop(container);
                self.fails(PKind::Index);
                Ok(None)
            }
            Spot::Within(i) => {
                let emptied = self.open_within(container, key, i, slot)?;
                Ok(Some(emptied))
            }
            Spot::Keyed => {
                let emptied = self.open_keyed(container, key, slot)?;
                Ok(Some(emptied))
            }
        }
    }

    /// Puts a value at a key of an emptied container, and stores that one; the machine goes on behind both.
    fn put_open(&mut self, emptied: Value, key: Value, x: Value, slot: Slot) -> Result<(), NoMemory>
        requires running { self.old.mode ≡ Running }
        requires within { self.old.pc + 1 + 1 + 1 + 1 < 2 ^ 64 }
        requires there { IsSlot slot (state_of self.old) }
        requires place { IsPlace emptied key }
        ensures { OnOk result (IsPut slot (self.old.pc + 1 + 1) (put (values.with_at emptied key x) (self.old.pc + 1 + 1)
            self.old.operands self.old.stack (state_of self.old)) (plain self.new)) }
    {
        self.pc += 1;
        self.put_at_in(emptied, key, x, slot)
    }

    #[tactic(auto, using(crate::proofs::Nested::put_inside, crate::proofs::Nested::fails_inside))]
    fn push_back_inside(&mut self, slot: Slot) -> Result<(), NoMemory>
        requires running { self.old.mode ≡ Running }
        requires within { self.old.pc + 1 + 1 + 1 + 1 < 2 ^ 64 }
        requires there { IsSlot slot (state_of self.old) }
        requires operands { 1 < length self.old.operands }
        requires taken { IsTrue (suits of.PushBack (take 2 self.old.operands)) }
        requires below { HasPlace (below_top (below_top self.old.operands)) }
        ensures { OnOk result (IsPutInside slot (self.old.pc + 1) (put_all (method of.PushBack
            (take 2 self.old.operands)) (self.old.pc + 1) (drop 2 self.old.operands) self.old.stack
            (state_of self.old)) (plain self.new)) }
    {
        let item = self.operands.pop();
        let vector = self.operands.pop();
        let key = self.operands.pop();
        let container = self.operands.pop();
        match or_drop!(self.opened(container, &key, slot); key, vector, item) {
            Some(emptied) => {
                let mut all = vector;
                or_drop!(all.push_back(item); all, emptied, key);
                self.put_open(emptied, key, all, slot)
            }
            None => {
                drop(key);
                drop(vector);
                drop(item);
                Ok(())
            }
        }
    }

    #[tactic(auto, using(crate::proofs::Nested::put_inside, crate::proofs::Nested::fails_inside))]
    fn add_key_inside(&mut self, slot: Slot) -> Result<(), NoMemory>
        requires running { self.old.mode ≡ Running }
        requires within { self.old.pc + 1 + 1 + 1 + 1 < 2 ^ 64 }
        requires there { IsSlot slot (state_of self.old) }
        requires operands { 1 < length self.old.operands }
        requires set { IsSet (second self.old.operands) }
        requires below { HasPlace (below_top (below_top self.old.operands)) }
        ensures { OnOk result (IsPutInside slot (self.old.pc + 1) (Goes [] (At (self.old.pc + 1)
            (with_member (second self.old.operands) (top self.old.operands) ∷ below_top (below_top self.old.operands))
            self.old.stack (state_of self.old))) (plain self.new)) }
    {
        let member = self.operands.pop();
        let set = self.operands.pop();
        let key = self.operands.pop();
        let container = self.operands.pop();
        match or_drop!(self.opened(container, &key, slot); key, set, member) {
            Some(emptied) => {
                let mut all = set;
                or_drop!(all.add(member); all, emptied, key);
                self.put_open(emptied, key, all, slot)
            }
            None => {
                drop(key);
                drop(set);
                drop(member);
                Ok(())
            }
        }
    }

    #[tactic(auto, using(crate::proofs::Nested::has_place, crate::proofs::Spots::past_error))]
    fn set_index_inside(&mut self, slot: Slot) -> Result<(), NoMemory>
        requires running { self.old.mode ≡ Running }
        requires within { self.old.pc + 1 + 1 + 1 + 1 < 2 ^ 64 }
        requires there { IsSlot slot (state_of self.old) }
        requires operands { 2 < length self.old.operands }
        requires place { IsPlace (third self.old.operands) (second self.old.operands) }
        requires below { CanPut (self.old.pc + 1) (put
            (values.with_at (third self.old.operands) (second self.old.operands) (top self.old.operands)) (self.old.pc + 1)
            (below_top (below_top (below_top self.old.operands))) self.old.stack (state_of self.old)) }
        ensures { OnOk result (IsPutInside slot (self.old.pc + 1) (put
            (values.with_at (third self.old.operands) (second self.old.operands) (top self.old.operands)) (self.old.pc + 1)
            (below_top (below_top (below_top self.old.operands))) self.old.stack (state_of self.old)) (plain self.new)) }
    {
        let x = self.operands.pop();
        let place = self.operands.pop();
        let inner = self.operands.pop();
        let spot = spot_of(&inner, &place);
        if let Spot::Past = spot {
            self.fails(PKind::Index);
            drop(inner);
            drop(place);
            drop(x);
            return Ok(());
        }
        let key = self.operands.pop();
        let container = self.operands.pop();
        match or_drop!(self.opened(container, &key, slot); key, inner, place, x) {
            Some(emptied) => {
                let all = or_drop!(filled(inner, place, x, spot); emptied, key);
                self.put_open(emptied, key, all, slot)
            }
            None => {
                drop(key);
                drop(inner);
                drop(place);
                drop(x);
                Ok(())
            }
        }
    }

    #[tactic(auto, using(crate::proofs::Nested::put_inside, crate::proofs::Nested::fails_inside))]
    fn delete_key_inside(&mut self, slot: Slot) -> Result<(), NoMemory>
        requires running { self.old.mode ≡ Running }
        requires within { self.old.pc + 1 + 1 + 1 + 1 < 2 ^ 64 }
        requires there { IsSlot slot (state_of self.old) }
        requires operands { 1 < length self.old.operands }
        requires keyed { IsKeyed (second self.old.operands) }
        requires below { HasPlace (below_top (below_top self.old.operands)) }
        ensures { OnOk result (IsPutInside slot (self.old.pc + 1) (Goes [] (At (self.old.pc + 1)
            (without_key (second self.old.operands) (top self.old.operands) ∷ below_top (below_top self.old.operands))
            self.old.stack (state_of self.old))) (plain self.new)) }
    {
        let member = self.operands.pop();
        let keyed = self.operands.pop();
        let key = self.operands.pop();
        let container = self.operands.pop();
        match or_drop!(self.opened(container, &key, slot); key, keyed, member) {
            Some(emptied) => {
                let mut rest = keyed;
                let deleted = rest.delete(&member);
                drop(member);
                or_drop!(deleted; rest, emptied, key);
                self.put_open(emptied, key, rest, slot)
            }
            None => {
                drop(key);
                drop(keyed);
                drop(member);
                Ok(())
            }
        }
    }

    fn call_inside(&mut self, called: Method, slot: Slot) -> Result<(), NoMemory>
        requires running { self.old.mode ≡ Running }
        requires within { self.old.pc + 1 + 1 + 1 + 1 < 2 ^ 64 }
        requires there { IsSlot slot (state_of self.old) }
        requires push { is_push called ≡ true }
        requires operands { arity called ≤ length self.old.operands }
        requires taken { IsTrue (suits called (take (arity called) self.old.operands)) }
        requires below { HasPlace (below_top (below_top self.old.operands)) }
        ensures { OnOk result (IsPutInside slot (self.old.pc + 1) (put_all (method called
            (take (arity called) self.old.operands)) (self.old.pc + 1) (drop (arity called) self.old.operands)
            self.old.stack (state_of self.old)) (plain self.new)) }
    {
        match called {
            Method::PushBack => self.push_back_inside(slot),
            _ => unreachable!(),
        }
    }

    /// Does the instruction, puts what it gives at its key, and stores the container in the slot, or fails as these steps do.
    #[tactic(auto, using(crate::proofs::Nested::push_place, crate::proofs::Nested::add_place, crate::proofs::Nested::delete_place))]
    fn change_inside(
        &mut self,
        p: &Program,
        limits: &Limits,
        window: &Window,
        is_ended: bool,
        instr: &Instr,
        slot: Slot,
    ) -> Result<(), NoMemory>
        requires running { self.old.mode ≡ Running }
        requires within { self.old.pc + 1 + 1 + 1 + 1 < 2 ^ 64 }
        requires there { IsSlot slot (state_of self.old) }
        requires changes { IsTrue (changes_inside instr.now) }
        requires can { Can (plain_of limits.now p.now) (Some instr.now) self.old.operands (state_of self.old) }
        requires below { CanPut (self.old.pc + 1) (act (plain_of limits.now p.now) (reads_of window.now is_ended)
            (Some instr.now) self.old.pc self.old.operands self.old.stack (state_of self.old)) }
        ensures { OnOk result (IsPutInside slot (self.old.pc + 1) (act (plain_of limits.now p.now)
            (reads_of window.now is_ended) (Some instr.now) self.old.pc self.old.operands self.old.stack
            (state_of self.old)) (plain self.new)) }
    {
        match instr {
            Instr::Lib(called) => self.call_inside(*called, slot),
            Instr::SetIndex => self.set_index_inside(slot),
            Instr::AddKey => self.add_key_inside(slot),
            Instr::DeleteKey => self.delete_key_inside(slot),
            _ => unreachable!(),
        }
    }

    /// These steps at once: whatever was told before, nothing more is.
    pub(crate) fn advance_inside(
        &mut self,
        p: &Program,
        limits: &Limits,
        window: &Window,
        is_ended: bool,
        instr: &Instr,
        slot: Slot,
    ) -> Result<(), NoMemory>
        requires running { self.old.mode ≡ Running }
        requires safe { IsSafe (plain_of limits.now p.now) window.now (plain self.old) }
        requires turns { Turns (plain_of limits.now p.now) }
        requires within { self.old.pc + 1 + 1 + 1 + 1 < 2 ^ 64 }
        requires there { IsSlot slot (state_of self.old) }
        requires changes { IsTrue (changes_inside instr.now) }
        requires instr { slice_get p.now.code.items self.old.pc ≡ Some instr.now }
        requires put { slice_get p.now.code.items (self.old.pc + 1) ≡ Some does.SetIndex }
        requires stored { IsStored p.now.code.items (self.old.pc + 1 + 1) slot }
        ensures { OnOk result ((told : List What) → Advanced (plain_of limits.now p.now)
            (reads_of window.now is_ended) window.now told told (plain self.old) (plain self.new) GoesOn) }
    {
        self.change_inside(p, limits, window, is_ended, instr, slot)?;
        Ok(())
    }

    /// The slot in which the code stores the container of which an instruction at hand changes a part.
    pub(crate) fn slot_inside(&self, p: &Program, instr: &Instr) -> Option<Slot>
        requires within { self.now.pc + 1 < 2 ^ 64 }
        ensures { IfSome result (λ slot. IsTrue (changes_inside instr.now)
            × (slice_get p.now.code.items (self.now.pc + 1) ≡ Some does.SetIndex)
            × IsStored p.now.code.items (self.now.pc + 1 + 1) slot × IsSlot slot (state_of self.now)
            × (self.now.pc + 1 + 1 + 1 + 1 < 2 ^ 64)) }
    {
        if !changes_inside(instr) {
            return None;
        }
        match p.code.get(self.pc + 1) {
            Some(Instr::SetIndex) => self.slot_from(p, self.pc + 1 + 1),
            _ => None,
        }
    }
}
