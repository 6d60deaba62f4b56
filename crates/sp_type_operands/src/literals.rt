// Literals: what type they take, and whether it has their number.
ghost use Rattle.std.specs.Prelude.{◌≡◌, ◌-◌, ◌^◌, IfOk};
ghost use Rattle.sp_numbers.specs.Numbers.{width_bits};
ghost use Rattle.sp_type_operands.specs.Literals.{leaf_number, number_of, is_negative, can_take, taken, has_number, type_has, is_typed_number, is_over, is_past, seen, literal_word};

use sp_base::NoMemory;
use sp_numbers::Width;
use sp_typed::{Expr, ExprLevel, LeafOp};
use sp_types::{Level, Type, Word};

fn leaf_number(op: &LeafOp) -> u64
    ensures { result ≡ leaf_number op.now }
{
    match op {
        LeafOp::Number(n) | LeafOp::TypedNumber(n) => *n,
        _ => 0,
    }
}

/// The number of a literal, without its sign.
pub fn number_of(e: &Expr) -> u64
    ensures { result ≡ number_of e.now }
{
    match e.level() {
        ExprLevel::Leaf(head) => leaf_number(&head.op),
        ExprLevel::One(_, part) => match part.level() {
            ExprLevel::Leaf(head) => leaf_number(&head.op),
            _ => 0,
        },
        _ => 0,
    }
}

/// Whether a literal has a minus sign.
pub fn is_negative(e: &Expr) -> bool
    ensures { result ≡ is_negative e.now }
{
    matches!(e.level(), ExprLevel::One(..))
}

fn can_take(to: Word) -> bool
    ensures { result ≡ can_take to }
{
    matches!(to, Word::Uint(_) | Word::Int(_))
}

/// A literal with the type of its place, where it can take that.
pub fn taken(to: &Type, e: Expr) -> Expr
    ensures { result ≡ taken to.now e }
{
    match to.level() {
        Level::Word(word) => {
            if e.is_literal() && can_take(word) {
                e.settle(word)
            } else {
                e
            }
        }
        Level::Made(..) => e,
    }
}

/// The least number that is past a signed type of this width.
pub fn past_signed(width: Width) -> u64
    ensures { result ≡ 2 ^ (width_bits width - 1) }
{
    match width {
        Width::W8 => 0x80,
        Width::W16 => 0x8000,
        Width::W32 => 0x8000_0000,
        Width::W64 => 0x8000_0000_0000_0000,
    }
}

fn has_number(word: Word, negative: bool, n: u64) -> bool
    ensures { result ≡ has_number word negative n }
{
    match word {
        Word::Uint(width) => if negative {
            n == 0
        } else {
            n <= width.greatest()
        },
        Word::Int(width) => if negative {
            n <= past_signed(width)
        } else {
            n < past_signed(width)
        },
        _ => true,
    }
}

fn type_has(ty: &Type, negative: bool, n: u64) -> bool
    ensures { result ≡ type_has ty.now negative n }
{
    match ty.level() {
        Level::Word(word) => has_number(word, negative, n),
        Level::Made(..) => true,
    }
}

fn is_typed_number(e: &Expr) -> bool
    ensures { result ≡ is_typed_number e.now }
{
    match e.level() {
        ExprLevel::Leaf(head) => matches!(&head.op, LeafOp::TypedNumber(_)),
        _ => false,
    }
}

/// Whether it is a number past its type.
pub fn is_over(e: &Expr) -> bool
    ensures { result ≡ is_over e.now }
{
    if e.is_literal() {
        return !type_has(e.ty(), is_negative(e), number_of(e));
    }
    is_typed_number(e) && !type_has(e.ty(), false, number_of(e))
}

/// Whether it is a literal past the type of its place.
pub fn is_past(e: &Expr) -> bool
    ensures { result ≡ is_past e.now }
{
    e.is_literal() && is_over(e)
}

/// The type that a node round an expression sees: that of a literal past it is unknown.
pub fn seen(e: &Expr) -> Result<Type, NoMemory>
    ensures { IfOk result (λ t. t ≡ seen e.now) }
{
    if is_past(e) {
        Ok(Type::word(Word::Unknown))
    } else {
        e.ty().copy()
    }
}

/// The type that two literals have: a signed one where one of them has a minus sign.
pub fn literal_word(negative: bool) -> Word
    ensures { result ≡ literal_word negative }
{
    if negative {
        Word::Int(Width::W64)
    } else {
        Word::Uint(Width::W64)
    }
}
