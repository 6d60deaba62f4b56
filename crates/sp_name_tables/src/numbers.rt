// Counts as numbers. Rows of more things than numbers don't fit into memory.
ghost use Rattle.std.specs.Prelude.{◌≡◌, ◌+◌, IfOk};

use sp_base::NoMemory;

/// A count as a number.
pub fn number(count: usize) -> Result<u32, NoMemory>
    ensures { IfOk result (λ n. n ≡ count) }
{
    u32::try_from(count).map_err(|_| NoMemory)
}

/// The sum of two numbers.
pub fn sum(a: u32, b: u32) -> Result<u32, NoMemory>
    ensures { IfOk result (λ n. n ≡ a + b) }
{
    a.checked_add(b).ok_or(NoMemory)
}
