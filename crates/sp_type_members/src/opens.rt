// Members whose types aren't known yet, in what is typed.
ghost use Rattle.std.specs.Prelude.{◌≡◌, length, IfOk};
ghost use Rattle.sp_solver.specs.Told.{told};
ghost use Rattle.sp_typed.specs.Exprs.{exprs};
ghost use Rattle.sp_type_operands.specs.Literals.{seen};
ghost use Rattle.sp_type_modules.specs.Sources.{questions};
ghost use Rattle.sp_type_modules.specs.Members.{first_member};
ghost use Rattle.std.specs.Prelude.{◌+◌};
ghost use Rattle.sp_type_members.specs.Opens.{or_else, open_at, open_of, open_member, open_in, open_among};

use crate::rows::MemberRows;
use sp_base::NoMemory;
use sp_type_operands::seen;
use sp_typed::{Expr, ExprLevel, OneOp};
use sp_types::{Level, Type, Word};

/// A question of the row that has no answer.
#[tactic(auto, using(crate::proofs::Places::open_here, crate::proofs::Places::closed_here, crate::proofs::Places::open_past))]
fn open_at(known: &[Option<Type>], place: usize) -> Option<usize>
    ensures { result ≡ open_at (length known.now) (told known.now) place }
{
    match known.get(place) {
        Some(None) => Some(place),
        _ => None,
    }
}

/// The member of a number of a unit, if its type isn't known.
fn open_of(rows: &MemberRows<'_>, known: &[Option<Type>], number: u32, of: &Type) -> Option<usize>
    requires { length known.now ≡ length (questions rows.now) }
    ensures { result ≡ open_of rows.now (length (questions rows.now)) (told known.now) number
        of.now }
{
    match of.level() {
        Level::Word(Word::Unit(unit)) => open_in_unit(rows, known, number, unit),
        _ => None,
    }
}

fn open_in_unit(
    rows: &MemberRows<'_>,
    known: &[Option<Type>],
    number: u32,
    unit: u32,
) -> Option<usize>
    requires { length known.now ≡ length (questions rows.now) }
    ensures { result ≡ open_at (length (questions rows.now)) (told known.now)
        (first_member rows.now unit + number) }
{
    match rows.first(unit) {
        Some(first) => open_at(known, first as usize + number as usize),
        None => None,
    }
}

/// A field or variable whose type isn't known.
fn open_member(
    rows: &MemberRows<'_>,
    known: &[Option<Type>],
    op: &OneOp,
    of: &Type,
) -> Option<usize>
    requires { length known.now ≡ length (questions rows.now) }
    ensures { result ≡ open_member rows.now (length (questions rows.now)) (told known.now) op.now
        of.now }
{
    match op {
        OneOp::Field(number) => open_of(rows, known, *number, of),
        OneOp::Variable(number) => open_of(rows, known, *number, of),
        _ => None,
    }
}

fn open_node(
    rows: &MemberRows<'_>,
    known: &[Option<Type>],
    op: &OneOp,
    a: &Expr,
) -> Result<Option<usize>, NoMemory>
    requires { length known.now ≡ length (questions rows.now) }
    ensures { IfOk result (λ o. o ≡ open_member rows.now (length (questions rows.now))
        (told known.now) op.now (seen a.now)) }
{
    let of = seen(a)?;
    let found = open_member(rows, known, op, &of);
    drop(of);
    Ok(found)
}

#[cycle(open)]
fn open_among(
    rows: &MemberRows<'_>,
    known: &[Option<Type>],
    parts: &[Expr],
) -> Result<Option<usize>, NoMemory>
    requires { length known.now ≡ length (questions rows.now) }
    ensures { IfOk result (λ o. o ≡ open_among rows.now (length (questions rows.now))
        (told known.now) (exprs parts.now)) }
{
    for e in parts {
        let found = open_in(rows, known, e)?;
        if found.is_some() {
            return Ok(found);
        }
    }
    Ok(None)
}

#[cycle(open)]
fn open_two(
    rows: &MemberRows<'_>,
    known: &[Option<Type>],
    a: &Expr,
    b: &Expr,
) -> Result<Option<usize>, NoMemory>
    requires { length known.now ≡ length (questions rows.now) }
    ensures { IfOk result (λ o. o ≡ or_else (open_in rows.now (length (questions rows.now))
        (told known.now) a.now) (open_in rows.now (length (questions rows.now))
        (told known.now) b.now)) }
{
    match open_in(rows, known, a)? {
        Some(place) => Ok(Some(place)),
        None => open_in(rows, known, b),
    }
}

/// The first member in an expression whose type isn't known yet, by its number in the row of all.
#[cycle(open)]
pub(crate) fn open_in(
    rows: &MemberRows<'_>,
    known: &[Option<Type>],
    e: &Expr,
) -> Result<Option<usize>, NoMemory>
    requires { length known.now ≡ length (questions rows.now) }
    ensures { IfOk result (λ o. o ≡ open_in rows.now (length (questions rows.now))
        (told known.now) e.now) }
{
    match e.level() {
        ExprLevel::Leaf(_) => Ok(None),
        ExprLevel::One(head, a) => match open_in(rows, known, a)? {
            Some(place) => Ok(Some(place)),
            None => open_node(rows, known, &head.op, a),
        },
        ExprLevel::Two(_, a, b) => open_two(rows, known, a, b),
        ExprLevel::Three(_, a, b, c) => match open_in(rows, known, a)? {
            Some(place) => Ok(Some(place)),
            None => open_two(rows, known, b, c),
        },
        ExprLevel::Many(_, parts) => open_among(rows, known, parts),
    }
}
