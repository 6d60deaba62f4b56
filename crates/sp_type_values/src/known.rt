// What is known of constants and labels, where some are answered.
ghost use Rattle.std.specs.Prelude.{◌≡◌, Some, option_copied, slice_get, IfOk};
ghost use Rattle.sp_types.specs.Types.{Ty};
ghost use Rattle.sp_solver.specs.Told.{told};
ghost use Rattle.sp_type_values.specs.Valued.{valued};
ghost use Rattle.sp_type_values.specs.Answers.{answer_at, value_or, type_or, written_of};

use crate::answer::Answer;
use crate::row::ValueRow;
use crate::valued::Valued;
use sp_base::NoMemory;
use sp_names::LIBRARY_ENUMS;
use sp_type_constants::{Measured, index_of, label_of};
use sp_typed::Expr;
use sp_types::{Type, Word};
use std::alloc::Global;

/// The constants and labels of a row, as they are answered.
#[derive(Drop)]
pub struct Known<'a> {
    pub row: &'a ValueRow<'a>,
    /// By their places in the row. What is made of itself has no answer.
    pub answers: &'a [Option<Answer>],
}

/// What is answered at a place.
fn answer_at<'k>(answers: &'k [Option<Answer>], place: Option<usize>) -> Option<&'k Answer>
    ensures { option_copied result ≡ answer_at (told answers.now) place }
{
    match place {
        Some(place) => match answers.get(place) {
            Some(Some(answer)) => Some(answer),
            _ => None,
        },
        None => None,
    }
}

/// The value that is answered.
fn value_or(answer: Option<&Answer>) -> Result<Measured, NoMemory>
    ensures { IfOk result (λ v. v ≡ value_or (option_copied answer.entry)) }
{
    match answer {
        Some(answer) => answer.value.copy(),
        None => Ok(Measured::not_constant()),
    }
}

/// The value of what stands at a place.
pub(crate) fn value_at(
    answers: &[Option<Answer>],
    place: Option<usize>,
) -> Result<Measured, NoMemory>
    ensures { IfOk result (λ v. v ≡ value_or (answer_at (told answers.now) place)) }
{
    value_or(answer_at(answers, place))
}

/// The type that is answered, or the one that is written.
fn type_or(written: Option<&Type>, answer: Option<&Answer>) -> Result<Type, NoMemory>
    ensures { IfOk result (λ t. t
        ≡ type_or (option_copied written.entry) (option_copied answer.entry)) }
{
    match answer {
        Some(answer) => answer.ty.copy(),
        None => match written {
            Some(written) => written.copy(),
            None => Ok(Type::word(Word::Unknown)),
        },
    }
}

fn written_of<'k>(row: &'k Valued<'_>) -> Option<&'k Type>
    ensures { option_copied result ≡ written_of (Some row.now) }
{
    match row {
        Valued::Constant { written, .. } => written.as_ref(),
        Valued::Numbered { .. } => None,
        Valued::First(_) => None,
        Valued::Next(_) => None,
    }
}

/// The type that is written for what stands at a place.
fn written_at<'k>(rows: &'k [Valued<'_>], place: usize) -> Option<&'k Type>
    ensures { option_copied result ≡ written_of (slice_get rows.now place) }
{
    match rows.get(place) {
        Some(row) => written_of(row),
        None => None,
    }
}

impl<'a> sp_type_modules::Constants for Known<'a> {
    ghost use Rattle.sp_solver.specs.Told.{told};
    ghost use Rattle.sp_type_values.specs.Answers.{constant_type, number_of};

    ghost constant_type = { λ k. constant_type k.row.now.0 (told k.row.now.1) (told k.answers.now) };

    ghost number = { λ k. number_of k.row.now.0 (told k.row.now.1) (told k.answers.now) };

    fn constant_type(&self, constant: u32) -> Result<Type, NoMemory> {
        let answer = answer_at(self.answers, self.row.constant_place(constant));
        type_or(written_at(self.row.rows(), constant as usize), answer)
    }

    fn number(&self, alloc: Global, e: &Expr) -> Result<Option<u32>, NoMemory> {
        index_of(alloc, self, e)
    }
}

impl<'a> sp_type_constants::Constants for Known<'a> {
    ghost use Rattle.sp_solver.specs.Told.{told};
    ghost use Rattle.sp_type_values.specs.Answers.{known_values};

    ghost known = { λ k. known_values k.row.now.0 (told k.row.now.1) (told k.answers.now) };

    fn constant(&self, number: u32) -> Result<Measured, NoMemory> {
        value_at(self.answers, self.row.constant_place(number))
    }

    fn label(&self, owner: u32, label: u32) -> Result<Measured, NoMemory> {
        if owner < LIBRARY_ENUMS {
            return Ok(label_of(owner, label as u64));
        }
        value_at(self.answers, self.row.label_place(owner, label))
    }
}
