// The slots of a body that are those of variables of `for`.
ghost use Rattle.std.specs.Prelude.{◌≡◌, ◌==◌, ◌||◌, ◌++◌, false, List, [], ℕ, IfOk, OnOk};
ghost use Rattle.std.proofs.Common.{get_or};
ghost use Rattle.sp_typed.specs.Stmts.{stmts, branch_row, case_row};
ghost use Rattle.sp_rule_lists.specs.Slots.{for_slots, for_slots_all, for_slots_branches, for_slots_cases, has};

use sp_base::NoMemory;
use sp_typed::{Expr, Stmt, StmtNode};
use std::alloc::Global;
use std::marker::Model;

/// The slots of variables of `for`, seen as their list.
#[derive(Drop)]
pub(crate) struct ForSlots {
    slots: Vec<u32>,
    /// Whether each slot, up to the greatest of these, is one of them.
    marks: Vec<bool>,
}

impl Model for ForSlots {
    ghost use Rattle.std.specs.Prelude.{List, ℕ, ◌≡◌, false};
    ghost use Rattle.std.proofs.Common.{get_or};
    ghost use Rattle.sp_rule_lists.specs.Slots.{has};

    ghost Value = { List ℕ };

    ghost view = { λ s. s.slots.items };

    ghost invariant = { λ s. (n : ℕ) → get_or s.marks.items n false ≡ has s.slots.items n };
}

#[cycle(slots)]
fn gather_all(all: &[Stmt], slots: &mut Vec<u32>) -> Result<(), NoMemory>
    ensures { OnOk result (slots.new.items ≡ slots.old.items ++ for_slots_all (stmts all.now)) }
{
    for stmt in all {
        gather(stmt, slots)?;
    }
    Ok(())
}

#[cycle(slots)]
fn gather_branches(branches: &[(Expr, Stmt)], slots: &mut Vec<u32>) -> Result<(), NoMemory>
    ensures { OnOk result (slots.new.items ≡ slots.old.items
        ++ for_slots_branches (branch_row branches.now)) }
{
    for branch in branches {
        gather(&branch.1, slots)?;
    }
    Ok(())
}

#[cycle(slots)]
fn gather_cases(cases: &[(Vec<Expr>, Stmt)], slots: &mut Vec<u32>) -> Result<(), NoMemory>
    ensures { OnOk result (slots.new.items ≡ slots.old.items
        ++ for_slots_cases (case_row cases.now)) }
{
    for case in cases {
        gather(&case.1, slots)?;
    }
    Ok(())
}

/// Puts the slots of the variables of `for` in a statement behind others.
#[cycle(slots)]
#[tactic(auto, using(crate::proofs::SlotSteps::append_more, crate::proofs::SlotSteps::append_none))]
fn gather(s: &Stmt, slots: &mut Vec<u32>) -> Result<(), NoMemory>
    ensures { OnOk result (slots.new.items ≡ slots.old.items ++ for_slots s.now) }
{
    match s.level() {
        StmtNode::Bare(_) | StmtNode::Valued(..) | StmtNode::Assign(..) | StmtNode::Print(..) => {
            Ok(())
        }
        StmtNode::Block(all) => gather_all(all, slots),
        StmtNode::If(branches, otherwise) => {
            gather_branches(branches, slots)?;
            gather(otherwise, slots)
        }
        StmtNode::While(_, body) => gather(body, slots),
        StmtNode::For(head, _, body) => {
            slots.push(head.slot)?;
            gather(body, slots)
        }
        StmtNode::Switch(_, _, cases, otherwise) => {
            gather_cases(cases, slots)?;
            gather(otherwise, slots)
        }
    }
}

/// Marks a slot, or changes nothing.
fn mark(marks: &mut Vec<bool>, slot: u32) -> Result<(), NoMemory>
    ensures { OnOk result ((n : ℕ) → get_or marks.new.items n false
        ≡ ((n == slot) || get_or marks.old.items n false)) }
{
    let at = slot as usize;
    if at >= marks.len() {
        marks.resize(at + 1, false)?;
    }
    marks[at] = true;
    Ok(())
}

fn marked(alloc: Global, slots: &[u32]) -> Result<Vec<bool>, NoMemory>
    ensures { IfOk result (λ m. (n : ℕ) → get_or m.items n false ≡ has slots.now n) }
{
    let mut marks = Vec::new(alloc);
    for slot in slots {
        mark(&mut marks, *slot)?;
    }
    Ok(marks)
}

impl ForSlots {
    ghost use Rattle.std.specs.Prelude.{◌≡◌, [], IfOk};
    ghost use Rattle.sp_rule_lists.specs.Slots.{for_slots, has};

    /// None. Takes no memory.
    pub(crate) fn none(alloc: Global) -> ForSlots
        ensures { result ≡ [] }
    {
        ForSlots {
            slots: Vec::new(alloc),
            marks: Vec::new(alloc),
        }
    }

    /// Those of a body.
    pub(crate) fn of(alloc: Global, body: &Stmt) -> Result<ForSlots, NoMemory>
        ensures { IfOk result (λ s. s ≡ for_slots body.now) }
    {
        let mut slots = Vec::new(alloc);
        gather(body, &mut slots)?;
        let marks = marked(alloc, &slots)?;
        Ok(ForSlots { slots, marks })
    }

    /// Whether a slot is one of them.
    pub(crate) fn has(&self, slot: u32) -> bool
        ensures { result ≡ has self.now slot }
    {
        match self.marks.get(slot as usize) {
            Some(mark) => *mark,
            None => false,
        }
    }
}
