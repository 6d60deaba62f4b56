// The answers of all that is declared with a value: each waits for what is named in it.
ghost use Rattle.std.specs.Prelude.{◌≡◌, Some, length, option_copied, IfOk};
ghost use Rattle.sp_solver.specs.Rounds.{IsSettled};
ghost use Rattle.sp_solver.specs.Told.{told};
ghost use Rattle.sp_dependencies.specs.Tries.{tries};
ghost use Rattle.sp_names.specs.Tables.{Each};
ghost use Rattle.sp_type_context.specs.Typing.{typed, to_maybe};
ghost use Rattle.sp_type_values.specs.Valued.{valued, needs};
ghost use Rattle.sp_type_values.specs.Answers.{here, written_or, constant_expr, label_expr, constant_answer, label_answer, answer_of, gives};
ghost use Rattle.sp_type_values.specs.inside.Places.{AreNeeds};

use crate::answer::Answer;
use crate::known::{Known, value_at};
use crate::row::ValueRow;
use crate::valued::Valued;
use sp_ast::{ExprKind, Ref};
use sp_base::{NoMemory, or_drop};
use sp_dependencies::{Dependent, answers_of};
use sp_numbers::Width;
use sp_type_constants::{Measured, constant_value, first_label, label_value, next_label, value_of};
use sp_type_exprs::{to_maybe, to_target, typed};
use sp_type_modules::Here;
use sp_type_operands::seen;
use sp_typed::Expr;
use sp_types::{Type, Word};
use std::alloc::Global;

/// The type of a constant: the one that is written, else that of its value.
fn written_or(written: Option<&Type>, e: &Expr) -> Result<Type, NoMemory>
    ensures { IfOk result (λ t. t ≡ written_or (option_copied written.entry) e.now) }
{
    match written {
        Some(written) => written.copy(),
        None => seen(e),
    }
}

fn label_answer(owner: u32, value: Measured) -> Answer
    ensures { result ≡ label_answer owner value }
{
    Answer {
        ty: Type::word(Word::Enum(owner)),
        value,
    }
}

impl<'a> Known<'a> {
    /// A tree in what stands round the expressions of a module.
    fn typed_in(
        &self,
        alloc: Global,
        owner: u32,
        tree: &Ref<'_, ExprKind>,
    ) -> Result<Expr, NoMemory>
        ensures { IfOk result (λ e. e ≡ typed (here self.now.row.now.0 (told self.now.row.now.1)
            (told self.now.answers.now) owner) tree.now) }
    {
        let here = Here {
            tables: self.row.tables(),
            stored: &[],
            constants: self,
            owner,
        };
        typed(alloc, &here, tree)
    }

    /// The value of a constant, which goes to the type that is written.
    pub(crate) fn constant_expr(
        &self,
        alloc: Global,
        owner: u32,
        written: &Option<Type>,
        value: &Ref<'_, ExprKind>,
    ) -> Result<Expr, NoMemory>
        ensures { IfOk result (λ e. e ≡ constant_expr self.now.row.now.0
            (told self.now.row.now.1) (told self.now.answers.now) owner
            written.now value.now) }
    {
        let e = self.typed_in(alloc, owner, value)?;
        to_maybe(alloc, written, e)
    }

    /// The number of a label.
    pub(crate) fn label_expr(
        &self,
        alloc: Global,
        owner: u32,
        number: &Ref<'_, ExprKind>,
    ) -> Result<Expr, NoMemory>
        ensures { IfOk result (λ e. e ≡ label_expr self.now.row.now.0 (told self.now.row.now.1)
            (told self.now.answers.now) owner number.now) }
    {
        let e = self.typed_in(alloc, owner, number)?;
        let to = Type::word(Word::Uint(Width::W64));
        let sent = to_target(alloc, &to, e);
        drop(to);
        sent
    }

    fn constant_answer(
        &self,
        alloc: Global,
        written: Option<&Type>,
        e: &Expr,
    ) -> Result<Answer, NoMemory>
        ensures { IfOk result (λ a. a ≡ constant_answer self.now.row.now.0
            (told self.now.row.now.1) (told self.now.answers.now)
            (option_copied written.entry) e.now) }
    {
        let ty = written_or(written, e)?;
        let value = or_drop!(constant_value(alloc, self, written, e); ty);
        Ok(Answer { ty, value })
    }

    /// The answer of what stands at a place.
    fn answer_of(&self, alloc: Global, place: usize, row: &Valued<'_>) -> Result<Answer, NoMemory>
        ensures { IfOk result (λ a. a ≡ answer_of self.now.row.now.0 (told self.now.row.now.1)
            (told self.now.answers.now) place (Some row.now)) }
    {
        match row {
            Valued::Constant {
                owner,
                written,
                value,
            } => {
                let e = self.constant_expr(alloc, *owner, written, value)?;
                self.constant_answer(alloc, written.as_ref(), &e)
            }
            Valued::Numbered {
                kind,
                owner,
                number,
            } => {
                let e = self.label_expr(alloc, *owner, number)?;
                let value = value_of(alloc, self, &e)?;
                Ok(label_answer(*kind, label_value(*kind, value)))
            }
            Valued::First(owner) => Ok(label_answer(*owner, first_label(*owner))),
            Valued::Next(owner) => {
                let before = value_at(self.answers, Some(place.saturating_sub(1)))?;
                Ok(label_answer(*owner, next_label(*owner, before)))
            }
        }
    }
}

impl<'a> Known<'a> {
    /// The answer of what stands at a place, if something does.
    fn answer_at(&self, alloc: Global, place: usize) -> Result<Answer, NoMemory>
        ensures { IfOk result (λ a. a ≡ gives self.now.row.now.0 (told self.now.row.now.1)
            (told self.now.answers.now) place) }
    {
        match self.row.rows().get(place) {
            Some(row) => self.answer_of(alloc, place, row),
            None => Ok(Answer {
                ty: Type::word(Word::Unknown),
                value: Measured::not_constant(),
            }),
        }
    }
}

/// A question for each: what its type and its value are.
#[derive(Drop)]
struct System<'a> {
    row: &'a ValueRow<'a>,
    needs: Vec<Vec<usize>>,
    ghost all: { length needs.items ≡ length (valued row.now.0 (told row.now.1)) },
    ghost each: { Each (AreNeeds row.now.0 (told row.now.1)) needs.items },
}

impl<'a> Dependent for System<'a> {
    ghost use Rattle.std.specs.Prelude.{length};
    ghost use Rattle.sp_solver.specs.Told.{told};
    ghost use Rattle.sp_type_values.specs.Valued.{valued, needs};
    ghost use Rattle.sp_type_values.specs.Answers.{gives};
    ghost use Rattle.sp_type_values.specs.Laws.{hangs, in_range};

    type Answer = Answer;

    ghost amount = { λ s. length (valued s.row.now.0 (told s.row.now.1)) };

    ghost needs = { λ s. needs s.row.now.0 (told s.row.now.1) };

    ghost gives = { λ s. gives s.row.now.0 (told s.row.now.1) };

    fn count(&self) -> usize {
        self.row.rows().len()
    }

    fn needs(&self, i: usize) -> &[usize] {
        &self.needs[i]
    }

    fn answer(
        &self,
        alloc: Global,
        known: &[Option<Answer>],
        i: usize,
    ) -> Result<Answer, NoMemory> {
        let known = Known {
            row: self.row,
            answers: known,
        };
        known.answer_at(alloc, i)
    }

    ghost hangs = { λ s. hangs s.row.now.0 (told s.row.now.1) };

    ghost in_range = { λ s. in_range s.row.now.0 (told s.row.now.1) };
}

/// The type and the value of each constant and each label, by their places in the row; none of what is made of itself, or of
/// what is. The time is linear in the names, and a chain of any length takes none of the machine's stack.
pub fn answers(alloc: Global, row: &ValueRow<'_>) -> Result<Vec<Option<Answer>>, NoMemory>
    ensures settled { IfOk result (λ v. IsSettled (tries (length (valued row.now.0
        (told row.now.1))) (needs row.now.0 (told row.now.1)) (gives row.now.0 (told row.now.1)))
        (told v.items)) }
    ensures all { IfOk result (λ v. length v.items ≡ length (valued row.now.0 (told row.now.1))) }
{
    let needs = row.all_needs(alloc)?;
    let system = System { row, needs };
    let found = answers_of(alloc, &system);
    drop(system);
    found
}
