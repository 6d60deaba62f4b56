// The values of constants, kept with how large they are.
ghost use Rattle.std.specs.Prelude.{◌≡◌, ◌++◌, IfOk, OnOk};
ghost use Rattle.sp_solver.specs.Told.{told};
ghost use Rattle.sp_names.specs.Declarations.{sort_of};
ghost use Rattle.sp_type_constants.specs.declared.outcome.Outcome.{Outcome as Data};
ghost use Rattle.sp_type_values.specs.Answers.{constant_value};
ghost use Rattle.sp_type_values.specs.TypedRows.{shown_value, next_constant};
ghost use Rattle.sp_rule_lists.specs.Told.{constant_outcome};
ghost use Rattle.sp_scope.specs.Kept.{if_kept, kept};

use sp_ast::DeclView;
use sp_base::{NoMemory, or_drop};
use sp_names::{Declaration, RowView};
use sp_type_constants::{Constants, Measured, Outcome};
use sp_type_values::Known;
use std::alloc::Global;

/// What a constant is to the typed list: where its value is an error, it has none.
fn shown(value: Measured) -> Measured
    ensures { result ≡ constant_outcome (shown_value value) }
{
    match value.outcome() {
        Outcome::Error => Measured::not_constant(),
        _ => value,
    }
}

/// What the constant of a number is.
fn kept_value(known: &Known<'_>, number: u32) -> Result<Measured, NoMemory>
    ensures { IfOk result (λ v. v ≡ constant_outcome (shown_value
        (constant_value known.now.row.now.0 (told known.now.row.now.1) (told known.now.answers.now)
        number))) }
{
    Ok(shown(known.constant(number)?))
}

/// Adds a declaration if it is a constant, and tells the number of the next.
fn add_constant(
    known: &Known<'_>,
    all: &mut Vec<Measured>,
    number: u32,
    row: &Declaration<'_>,
) -> Result<u32, NoMemory>
    ensures added { OnOk result (all.new.items ≡ all.old.items ++ if_kept known.now.row.now.0
        (told known.now.row.now.1) (told known.now.answers.now) number (sort_of row.now.tree)) }
    ensures next { IfOk result (λ n. n ≡ next_constant known.now.row.now.0
        (told known.now.row.now.1) (told known.now.answers.now) number (sort_of row.now.tree)) }
{
    match row.tree.view() {
        RowView::Declared(DeclView::Const { .. }) => {
            all.push(kept_value(known, number)?)?;
            number.checked_add(1).ok_or(NoMemory)
        }
        _ => Ok(number),
    }
}

/// What all constants of a list are, by their numbers.
pub(crate) fn kept(alloc: Global, known: &Known<'_>) -> Result<Vec<Measured>, NoMemory>
    ensures { IfOk result (λ v. v.items ≡ kept known.now.row.now.0 (told known.now.row.now.1)
        (told known.now.answers.now)) }
{
    let rows = known.row.tables().names().rows();
    let mut all = Vec::new(alloc);
    let mut number: u32 = 0;
    for row in rows {
        number = or_drop!(add_constant(known, &mut all, number, row); all);
    }
    Ok(all)
}
