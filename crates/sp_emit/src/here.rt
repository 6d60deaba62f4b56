// The shape to which code has led, with its kinds by their numbers.
ghost use Rattle.std.specs.Prelude.{◌≡◌, ◌≤◌, ◌∷◌, [], drop, length, IfOk, OnOk, OnErr, IfSome, IfNone};
ghost use Rattle.sp_code.specs.Programs.{stacks_from};
ghost use Rattle.sp_emit.specs.Numbered.{nothing_numbered, begun, with_numbers, lowest_numbers, Moves, IsRow, IsAt};

use crate::kinds::number;
use crate::stacks::StackTable;
use sp_base::NoMemory;
use sp_code::{RoundRow, ShapeRow, StackRow};
use std::alloc::Global;
use std::marker::Model;

/// The shape to which code has led, and the rows by which shapes are told. Clauses see both, with kinds by their numbers.
#[derive(Drop)]
pub(crate) struct Here {
    stacks: StackTable,
    unit: Option<u32>,
    round: RoundRow,
    /// The kinds of the locals.
    kinds: Vec<u32>,
    /// The row of them once it is made, and 0 before that.
    locals: u32,
    /// The row of the kinds of the operands.
    operands: u32,
    /// How many operands there are.
    depth: u32,
}

impl Model for Here {
    ghost use Rattle.sp_emit.specs.Numbered.{Numbered};

    ghost Value = { Numbered };

    ghost use Rattle.sp_emit.specs.inside.Standing.{numbered_in, IsHere};

    ghost view = { numbered_in };

    ghost invariant = { IsHere };
}

impl Here {
    /// The shape before the first instruction, and no rows. Takes no memory.
    pub fn new(alloc: Global) -> Here
        ensures { result ≡ nothing_numbered }
    {
        Here {
            stacks: StackTable::new(alloc),
            unit: None,
            round: RoundRow::Unit,
            kinds: Vec::new(alloc),
            locals: 0,
            operands: 0,
            depth: 0,
        }
    }

    /// The rows by which shapes are told.
    pub fn into_rows(self) -> Vec<StackRow>
        ensures { stacks_from [] result.items ≡ self.stacks }
    {
        self.stacks.into_rows()
    }

    /// The shape at the begin of a body. Takes no memory.
    pub fn begin(&mut self, unit: Option<u32>, round: RoundRow, locals: Vec<u32>)
        ensures { Moves self.old self.new (begun unit round locals.items) }
    {
        self.unit = unit;
        self.round = round;
        self.kinds = locals;
        self.locals = 0;
        self.operands = 0;
        self.depth = 0;
    }

    /// A row of the table of shapes for this one. The first in a body makes the rows of its locals, and those after it take no memory.
    pub fn row(&mut self) -> Result<ShapeRow, NoMemory>
        ensures row { IfOk result (IsRow self.new) }
        ensures same { Moves self.old self.new self.old.shape }
    {
        if self.locals == 0 {
            self.locals = self.stacks.put_all(&self.kinds, 0)?;
        }
        Ok(ShapeRow {
            unit: self.unit,
            round: self.round,
            locals: self.locals,
            operands: self.operands,
            opens: 0,
        })
    }

    /// The number of the kind of the local at a place, where there is one.
    pub fn local(&self, l: u32) -> Option<u32>
        ensures some { IfSome result (IsAt self.now.shape.locals l) }
        ensures none { IfNone result (length self.now.shape.locals ≤ l) }
    {
        let l = l as usize;
        if l < self.kinds.len() {
            Some(self.kinds[l])
        } else {
            None
        }
    }

    /// How many operands there are.
    pub fn depth(&self) -> usize
        ensures { result ≡ length self.now.shape.operands }
    {
        self.depth as usize
    }

    /// One more operand, of the kind with this number.
    pub fn push(&mut self, n: u32) -> Result<(), NoMemory>
        ensures ok { OnOk result (Moves self.old self.new
            (with_numbers self.old.shape (n ∷ self.old.shape.operands))) }
        ensures err { OnErr result (Moves self.old self.new self.old.shape) }
    {
        let depth = number(self.depth as usize + 1)?;
        self.operands = self.stacks.put(n, self.operands)?;
        self.depth = depth;
        Ok(())
    }

    /// The last operand is gone, if there is one.
    pub fn pop(&mut self)
        ensures { Moves self.old self.new
            (with_numbers self.old.shape (drop 1 self.old.shape.operands)) }
    {
        self.operands = self.stacks.below(self.operands);
        self.depth = self.depth.saturating_sub(1);
    }

    /// Only so many operands are left.
    pub fn lower(&mut self, depth: usize)
        ensures { Moves self.old self.new
            (with_numbers self.old.shape (lowest_numbers depth self.old.shape.operands)) }
    {
        while depth < self.depth() {
            self.pop();
        }
    }
}
