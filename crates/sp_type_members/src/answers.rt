// The types of what is stored in the members of all units.
ghost use Rattle.std.specs.Prelude.{◌≡◌, map, length, slice_get, IfOk};
ghost use Rattle.sp_solver.specs.Told.{told};
ghost use Rattle.sp_types.specs.Types.{word};
ghost use Rattle.sp_types.specs.declared.words.Word.TheVariants as word_is;
ghost use Rattle.sp_typed.specs.declared.words.Standing.TheVariants as standing_is;
ghost use Rattle.sp_type_scopes.specs.Decorators.{with_self};
ghost use Rattle.sp_type_modules.specs.Sources.{questions};
ghost use Rattle.sp_type_members.specs.Opens.{with_members};
ghost use Rattle.sp_type_members.specs.Tries.{tries, try_in, try_unit, AreStored};

use crate::fields::source_try;
use crate::members::WithMembers;
use crate::rows::MemberRows;
use sp_base::NoMemory;
use sp_solver::{Attempt, Questions, answers};
use sp_type_context::Context;
use sp_type_fields::Constants;
use sp_type_modules::{Question, Tables};
use sp_type_scopes::WithSelf;
use sp_typed::Standing;
use sp_types::{Type, Word};
use std::alloc::Global;

/// A question for each member: what is the type of what is stored there?
#[derive(Drop)]
struct System<'b, 'a, C: Context, V: Constants> {
    rows: &'b MemberRows<'a>,
    tables: &'b Tables<'b>,
    contexts: &'b [C],
    constants: &'b V,
    ghost same: { tables.now.0 ≡ rows.now },
}

/// A try where `self` is a unit.
fn inside_try<C: Context, V: Constants>(
    alloc: Global,
    rows: &MemberRows<'_>,
    known: &[Option<Type>],
    context: &C,
    constants: &V,
    question: &Question<'_>,
) -> Result<Attempt<Type>, NoMemory>
    requires { length known.now ≡ length (questions rows.now) }
    ensures { IfOk result (λ t. t ≡ try_in rows.now (length (questions rows.now)) (told known.now)
        (with_self (word (word_is.Unit question.now.unit)) standing_is.Meant
        (C.around context.now)) (V.values constants.now) question.now.source) }
{
    let unit = Type::word(Word::Unit(question.unit));
    let found = source_try(
        alloc,
        rows,
        known,
        &WithSelf::new(context, &unit, Standing::Meant),
        constants,
        &question.source,
    );
    drop(unit);
    found
}

/// A try in the context of the unit.
fn question_try<C: Context, V: Constants>(
    alloc: Global,
    rows: &MemberRows<'_>,
    tables: &Tables<'_>,
    known: &[Option<Type>],
    context: &C,
    constants: &V,
    question: &Question<'_>,
) -> Result<Attempt<Type>, NoMemory>
    requires { length known.now ≡ length (questions rows.now) }
    ensures { IfOk result (λ t. t ≡ try_in rows.now (length (questions rows.now)) (told known.now)
        (with_self (word (word_is.Unit question.now.unit)) standing_is.Meant
        (with_members tables.now.0 (told known.now) (C.around context.now)))
        (V.values constants.now) question.now.source) }
{
    inside_try(
        alloc,
        rows,
        known,
        &WithMembers::new(context, tables, known),
        constants,
        question,
    )
}

/// A try in the context of the unit, if it has one.
fn unit_try<C: Context, V: Constants>(
    alloc: Global,
    rows: &MemberRows<'_>,
    tables: &Tables<'_>,
    known: &[Option<Type>],
    contexts: &[C],
    constants: &V,
    question: &Question<'_>,
) -> Result<Attempt<Type>, NoMemory>
    requires all { length known.now ≡ length (questions rows.now) }
    requires same { tables.now.0 ≡ rows.now }
    ensures { IfOk result (λ t. t ≡ try_unit rows.now (length (questions rows.now))
        (told known.now) (V.values constants.now) question.now
        (slice_get (map C.around contexts.now) question.now.unit)) }
{
    match contexts.get(question.unit as usize) {
        Some(context) => Ok(question_try(
            alloc, rows, tables, known, context, constants, question,
        )?),
        None => Ok(Attempt::Done(Type::word(Word::Unknown))),
    }
}

impl<'b, 'a, C: Context, V: Constants> Questions for System<'b, 'a, C, V> {
    ghost use Rattle.sp_type_members.specs.inside.Laws.{ready, is_fair, is_outside, is_inside, is_first, is_later};

    type Answer = Type;

    ghost amount = { λ s. length (questions s.rows.now) };

    ghost tries = { λ s. tries s.rows.now (map C.around s.contexts.now) (V.values s.constants.now) };

    ghost ready = { λ s. ready s.rows.now (map C.around s.contexts.now) (V.values s.constants.now) };

    fn count(&self) -> usize {
        self.rows.count()
    }

    fn attempt(
        &self,
        alloc: Global,
        known: &[Option<Type>],
        i: usize,
        _cursor: &mut usize,
    ) -> Result<Attempt<Type>, NoMemory> {
        match self.rows.question(i) {
            Some(question) => Ok(unit_try(
                alloc,
                self.rows,
                self.tables,
                known,
                self.contexts,
                self.constants,
                question,
            )?),
            None => match known.get(i) {
                Some(Some(found)) => Ok(Attempt::Done(found.copy()?)),
                _ => Ok(Attempt::Waits(i)),
            },
        }
    }

    ghost fair = { λ s. is_fair s.rows.now (map C.around s.contexts.now) (V.values s.constants.now) };

    ghost outside = { λ s. is_outside s.rows.now (map C.around s.contexts.now)
        (V.values s.constants.now) };

    ghost inside = { λ s. is_inside s.rows.now (map C.around s.contexts.now)
        (V.values s.constants.now) };

    ghost at_first = { λ s. is_first s.rows.now (map C.around s.contexts.now)
        (V.values s.constants.now) };

    ghost later = { λ s. is_later s.rows.now (map C.around s.contexts.now)
        (V.values s.constants.now) };
}

/// The types of what is stored in the members of all units, in one row. `contexts` are what stands round the expressions of each
/// unit, by its number; what they say of members and of `self` doesn't count. A member has no type where it is made of itself.
pub fn stored_types<C: Context, V: Constants>(
    alloc: Global,
    rows: &MemberRows<'_>,
    tables: &Tables<'_>,
    contexts: &[C],
    constants: &V,
) -> Result<Vec<Option<Type>>, NoMemory>
    requires { tables.now.0 ≡ rows.now }
    ensures { IfOk result (λ v. AreStored rows.now (map C.around contexts.now)
        (V.values constants.now) v.items) }
{
    answers(
        alloc,
        &System {
            rows,
            tables,
            contexts,
            constants,
        },
    )
}
