// The priorities of hooks.
ghost use Rattle.std.specs.Prelude.{◌≡◌, IfOk};

use sp_base::NoMemory;
use sp_type_constants::value_of;
use sp_type_functions::Ranks;
use sp_type_values::Known;
use sp_typed::Expr;
use std::alloc::Global;

/// The signed numbers that constant expressions of a list are.
#[derive(Drop)]
pub struct SignedNumbers<'a> {
    pub known: &'a Known<'a>,
}

impl<'a> Ranks for SignedNumbers<'a> {
    ghost use Rattle.sp_solver.specs.Told.{told};
    ghost use Rattle.sp_type_declarations.specs.FunctionsAndOrders.{ranks};

    ghost ranks = { λ s. ranks s.known.now.row.now.0 (told s.known.now.row.now.1) (told s.known.now.answers.now) };

    fn rank(&self, alloc: Global, e: &Expr) -> Result<Option<i64>, NoMemory> {
        let found = value_of(alloc, self.known, e)?;
        let rank = found.outcome().signed();
        drop(found);
        Ok(rank)
    }
}
