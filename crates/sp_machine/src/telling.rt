// Instructions that tell something.
ghost use Rattle.std.specs.Prelude.{◌≡◌, ◌+◌, ◌<◌, ◌≤◌, ◌^◌, ◌∷◌, ◌++◌, [], length, take, drop, reverse, OnOk, IfOk, IsTrue, Some};
ghost use Rattle.sp_events.specs.declared.event.What.{What as Told};
ghost use Rattle.sp_events.specs.Tree.{uint};
ghost use Rattle.sp_meaning_states.specs.Telling.{value_trees};
ghost use Rattle.sp_code.specs.Machine.{At, Goes, hook_event, hook_next};
ghost use Rattle.sp_code.specs.Programs.{names_of, name_of, told_of};
ghost use Rattle.sp_machine.specs.declared.machine.Mode.TheVariants.{Running};
ghost use Rattle.sp_machine.specs.Plain.{state_of, plain, Tells};
ghost use Rattle.sp_machine.specs.Bodies.{body_of};

use crate::calls::callee_where;
use crate::machine::Machine;
use sp_base::{Limits, NoMemory, Text, or_drop};
use sp_code::{BodyCode, BodyOf, Program};
use sp_events::{Node, Tree, Trees, What};
use sp_frames::Instance;
use sp_show::value_trees;
use sp_value::Value;
use std::alloc::Global;

/// The name of the hook that a body is of; that of a function is empty.
fn name(alloc: Global, of: &BodyOf) -> Result<Text, NoMemory>
    ensures { IfOk result (λ name. name ≡ name_of of.now) }
{
    match of {
        BodyOf::Function => Text::new(alloc, ""),
        BodyOf::Hook { name, .. } => name.copy(),
    }
}

/// How many of the values that a body takes its event tells.
fn told_count(of: &BodyOf) -> u32
    ensures { result ≡ told_of of.now }
{
    match of {
        BodyOf::Function => 0,
        BodyOf::Hook { told, .. } => *told,
    }
}

/// A number as the only value that is told.
fn number_alone(n: u64) -> Trees
    ensures { result ≡ uint n ∷ [] }
{
    Trees::alone(Tree {
        node: Node::Uint(n),
    })
}

/// Values as they are told. A number alone, which most fields with a hook store, is looked at first.
#[tactic(auto, using(crate::proofs::Quick::number_told))]
fn trees_of(
    alloc: Global,
    p: &Program,
    instances: &[Instance],
    values: &[Value],
) -> Result<Trees, NoMemory>
    ensures { IfOk result (λ trees. trees ≡ value_trees (names_of p.now) instances.now values.now) }
{
    if values.len() == 1 {
        if let Some(n) = values[0].as_uint() {
            return Ok(number_alone(n));
        }
    }
    value_trees(alloc, p, instances, values)
}

impl Machine {
    pub(crate) fn print(
        &mut self,
        p: &Program,
        n: u32,
        told: &mut Vec<What>,
    ) -> Result<(), NoMemory>
        requires running { self.old.mode ≡ Running }
        requires within { self.old.pc + 1 < 2 ^ 64 }
        requires operands { n ≤ length self.old.operands }
        ensures tells { OnOk result (told.new.items ≡ told.old.items
            ++ Told.Print (value_trees (names_of p.now) self.old.instances.items (reverse (take n self.old.operands))) ∷ []) }
        ensures goes { OnOk result (plain self.new ≡ At (self.old.pc + 1) (drop n self.old.operands) self.old.stack
            (state_of self.old)) }
    {
        let alloc = self.alloc();
        let values = self.operands.take_top(n as usize)?;
        let trees = value_trees(alloc, p, self.instances.as_slice(), values.as_slice());
        drop(values);
        told.push(What::Print(trees?))?;
        self.pc += 1;
        Ok(())
    }

    /// What a body of a hook tells when it begins.
    fn event(&self, p: &Program, body: &BodyCode) -> Result<What, NoMemory>
        requires { body.now.takes ≤ length self.now.operands }
        ensures { IfOk result (λ what. what ≡ hook_event (names_of p.now) (body_of body.now)
            (take body.now.takes self.now.operands) (state_of self.now)) }
    {
        let alloc = self.alloc();
        let name = name(alloc, &body.of)?;
        let values = self.operands.on_top(body.takes as usize);
        let count = (told_count(&body.of) as usize).min(values.len());
        let args = or_drop!(trees_of(alloc, p, self.instances.as_slice(), &values[..count]); name);
        Ok(What::Hook { name, args })
    }

    /// Runs a body of a hook.
    pub(crate) fn run_hook(
        &mut self,
        p: &Program,
        limits: &Limits,
        body: &BodyCode,
        told: &mut Vec<What>,
    ) -> Result<(), NoMemory>
        requires running { self.old.mode ≡ Running }
        requires within { self.old.pc + 1 < 2 ^ 64 }
        requires there { body.now.takes ≤ length self.old.operands }
        ensures { OnOk result (Tells told.old.items told.new.items (plain self.new) (hook_next (names_of p.now)
            limits.now.turns (Some (body_of body.now)) (self.old.pc + 1) self.old.operands self.old.stack
            (state_of self.old))) }
    {
        if self.count_turn(limits) {
            let event = self.event(p, body)?;
            told.push(event)?;
            let failing = self.stack.is_failing();
            self.open_body(body, callee_where(failing, &body.of))?;
        }
        Ok(())
    }
}
