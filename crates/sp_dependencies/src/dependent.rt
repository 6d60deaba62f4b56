// Declarations whose answers depend on those of others.
ghost use Rattle.std.specs.Prelude.{◌≡◌, ◌<◌, ℕ, List, Option, length, IfOk};
ghost use Rattle.sp_solver.specs.Told.{told};
ghost use Rattle.sp_dependencies.specs.Tries.{Hangs, IsInRange};

use sp_base::NoMemory;
use std::alloc::Global;

/// Declarations by number, from 0. The answer of each depends on those of the declarations that it names.
pub trait Dependent {
    type Answer: Drop;

    // How many there are.
    ghost amount: { Self → ℕ };

    // The numbers of those that each names.
    ghost needs: { Self → ℕ → List ℕ };

    // The answer of each, where those of what it names are known.
    ghost gives: { Self → (ℕ → Option Self.Answer) → ℕ → Self.Answer };

    /// How many there are.
    fn count(&self) -> usize
        ensures { result ≡ amount self.now };

    /// The numbers of those that one names, in order.
    fn needs(&self, i: usize) -> &[usize]
        requires { i < amount self.now }
        ensures { result.now ≡ needs self.now i };

    /// The answer of one, where those of what it names are known.
    fn answer(
        &self,
        alloc: Global,
        known: &[Option<Self::Answer>],
        i: usize,
    ) -> Result<Self::Answer, NoMemory>
        requires here { i < amount self.now }
        requires all { length known.now ≡ amount self.now }
        ensures { IfOk result (λ a. a ≡ gives self.now (told known.now) i) };

    // An answer hangs on the answers of what is named, and on no others.
    ghost hangs: { (q : Self) → Hangs (needs q) (gives q) };

    // What is named is there.
    ghost in_range: { (q : Self) → IsInRange (amount q) (needs q) };
}
