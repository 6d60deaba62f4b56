// What constant expressions are worth to what is read.
ghost use Rattle.std.specs.Prelude.{◌≡◌, option_copied, IfOk};
ghost use Rattle.sp_type_constants.specs.Places.{bytes_of};
ghost use Rattle.sp_type_values.specs.Answers.{regex_of};

use crate::known::Known;
use sp_base::{ByteList, NoMemory, Text};
use sp_type_constants::{Outcome, value_of};
use sp_typed::Expr;
use std::alloc::Global;

/// The bytes that an expression is, if it is constant bytes.
fn bytes_of(alloc: Global, found: &Outcome) -> Result<Option<ByteList>, NoMemory>
    ensures { IfOk result (λ b. b ≡ bytes_of found.now) }
{
    match found.bytes() {
        Some(bytes) => Ok(Some(ByteList::from_slice(alloc, bytes)?)),
        None => Ok(None),
    }
}

/// What stands between the slashes, if it is a regular expression.
fn regex_of(found: &Outcome) -> Result<Option<Text>, NoMemory>
    ensures { IfOk result (λ t. t ≡ regex_of found.now) }
{
    match found {
        Outcome::Regex(text) => Ok(Some(text.copy()?)),
        Outcome::Value(_) => Ok(None),
        Outcome::NotConstant => Ok(None),
        Outcome::Error => Ok(None),
        Outcome::Unknown => Ok(None),
    }
}

impl<'a> sp_type_fields::Constants for Known<'a> {
    ghost use Rattle.sp_solver.specs.Told.{told};
    ghost use Rattle.sp_type_values.specs.Answers.{values};

    ghost values = { λ k. values k.row.now.0 (told k.row.now.1) (told k.answers.now) };

    fn number(&self, alloc: Global, e: &Expr) -> Result<Option<u64>, NoMemory> {
        let found = value_of(alloc, self, e)?;
        let number = found.outcome().label_number();
        drop(found);
        Ok(number)
    }

    fn bytes(&self, alloc: Global, e: &Expr) -> Result<Option<ByteList>, NoMemory> {
        let found = value_of(alloc, self, e)?;
        let bytes = bytes_of(alloc, found.outcome());
        drop(found);
        bytes
    }

    fn regex(&self, alloc: Global, e: &Expr) -> Result<Option<Text>, NoMemory> {
        let found = value_of(alloc, self, e)?;
        let regex = regex_of(found.outcome());
        drop(found);
        regex
    }
}
