// The table of rows of numbers, which shapes share.
ghost use Rattle.std.specs.Prelude.{◌≡◌, ◌≤◌, ◌++◌, ◌∷◌, [], drop, length, IfOk};
ghost use Rattle.sp_code.specs.Programs.{stack_at, stacks_from};
ghost use Rattle.sp_emit.specs.Stacks.{Extends, IsRowOf};

use crate::kinds::number;
use sp_base::NoMemory;
use sp_code::StackRow;
use std::alloc::Global;
use std::marker::Model;

/// Rows of numbers by their own, each with one number on top of an earlier row. Clauses see the list of the rows; the number 0 is that of
/// no numbers.
#[derive(Drop)]
pub(crate) struct StackTable {
    rows: Vec<StackRow>,
}

impl Model for StackTable {
    ghost use Rattle.std.specs.Prelude.{List, ℕ, []};
    ghost use Rattle.sp_code.specs.Programs.{stacks_from};
    ghost use Rattle.sp_emit.specs.Stacks.{StandEarlier};

    ghost Value = { List (List ℕ) };

    ghost view = { λ t. stacks_from [] t.rows.items };

    ghost invariant = { λ t. StandEarlier 0 t.rows.items };
}

impl StackTable {
    /// No rows. Takes no memory.
    pub fn new(alloc: Global) -> StackTable
        ensures { result ≡ [] }
    {
        StackTable {
            rows: Vec::new(alloc),
        }
    }

    /// The rows, each of which may stand on one of those before it.
    pub fn into_rows(self) -> Vec<StackRow>
        ensures { stacks_from [] result.items ≡ self }
    {
        self.rows
    }

    /// The number of a new row, with a number on top of a row.
    pub fn put(&mut self, top: u32, below: u32) -> Result<u32, NoMemory>
        requires { below ≤ length self.old }
        ensures row { IfOk result (IsRowOf self.new (top ∷ stack_at self.old below)) }
        ensures grows { Extends self.old self.new }
    {
        self.rows.push(StackRow { top, below })?;
        number(self.rows.len())
    }

    /// The number of a row with numbers before those of a row, the first of them on top.
    pub fn put_all(&mut self, numbers: &[u32], below: u32) -> Result<u32, NoMemory>
        requires { below ≤ length self.old }
        ensures row { IfOk result (IsRowOf self.new (numbers.now ++ stack_at self.old below)) }
        ensures grows { Extends self.old self.new }
    {
        let mut row = below;
        let mut left = numbers.len();
        while left > 0 {
            left -= 1;
            row = self.put(numbers[left], row)?;
        }
        Ok(row)
    }

    /// The row below the top of a row. Nothing is below no numbers.
    pub fn below(&self, row: u32) -> u32
        requires { row ≤ length self.now }
        ensures { IsRowOf self.now (drop 1 (stack_at self.now row)) result }
    {
        if row == 0 {
            return 0;
        }
        self.rows[row as usize - 1].below
    }
}
