// Sizes of what stands behind the code of parts.
ghost use Rattle.std.specs.Prelude.{◌≡◌, ◌+◌, ◌&&◌, IfOk, is_some, if◌then◌else◌};
ghost use Rattle.sp_types.specs.Types.{Ty};
ghost use Rattle.sp_meaning.specs.Operations.{negative, negative_literal};
ghost use Rattle.sp_code_meaning.specs.Exprs.{gives_result, is_item_place};
ghost use Rattle.sp_code_programs.specs.exprs.Sizes.{one_size, binary_size, two_size, change_size, keep_size, owner_size};
ghost use Rattle.sp_lower_size.specs.Beside.{beside};

use sp_base::NoMemory;
use sp_lower_expr::{stands_on, sum};
use sp_typed::{Expr, ExprLevel, LeafOp, One, OneOp, TwoOp};
use sp_words::{BinaryOp, Method};

/// Whether a node, of whatever type, is a literal with a minus sign.
fn is_negative(op: OneOp, part: &LeafOp) -> bool
    ensures { (t : Ty) → result ≡ is_some (negative op part.now t) }
{
    match (op, part) {
        (OneOp::Negate, LeafOp::Number(_)) => true,
        _ => false,
    }
}

/// Whether a node is a literal with a minus sign, which is one constant.
pub(crate) fn is_negative_literal(head: &One, part: &Expr) -> bool
    ensures { result ≡ is_some (negative_literal head.now part.now) }
{
    match part.level() {
        ExprLevel::Leaf(leaf) => is_negative(head.op, &leaf.op),
        _ => false,
    }
}

/// What stands behind a part.
pub(crate) fn one_size(op: OneOp) -> u32
    ensures { result ≡ one_size op }
{
    match op {
        OneOp::Bit(_) => 3,
        _ => 1,
    }
}

/// How many instructions an operator between two parts has beside these.
fn beside(op: BinaryOp) -> u32
    ensures { result ≡ beside op }
{
    match op {
        BinaryOp::And => 3,
        BinaryOp::Or => 3,
        _ => 1,
    }
}

/// An operator between two parts that have so many.
fn binary_size(op: BinaryOp, a: u32, b: u32) -> Result<u32, NoMemory>
    ensures { IfOk result (λ n. n ≡ binary_size op a b) }
{
    sum(sum(a, b)?, beside(op))
}

/// A node with two parts that have so many.
pub(crate) fn two_size(op: TwoOp, a: u32, b: u32) -> Result<u32, NoMemory>
    ensures { IfOk result (λ n. n ≡ two_size op a b) }
{
    match op {
        TwoOp::Binary(op) => binary_size(op, a, b),
        TwoOp::Index => sum(a, sum(b, 1)?),
        TwoOp::Item(_) => sum(a, 2),
    }
}

/// `c ? a : b`, where the parts have so many.
pub(crate) fn three_size(c: u32, a: u32, b: u32) -> Result<u32, NoMemory>
    ensures { IfOk result (λ n. n ≡ c + (1 + (a + (1 + b)))) }
{
    sum(sum(sum(c, a)?, b)?, 2)
}

/// The void that a method without a result has.
fn result_size(m: Method) -> u32
    ensures { result ≡ (if gives_result m then 0 else 1) }
{
    match m {
        Method::PopBack => 0,
        _ => 1,
    }
}

/// What puts a result under the container on which it stands.
pub(crate) fn under_size(m: Method, receiver: &Expr) -> u32
    ensures { result ≡ (if gives_result m && is_item_place receiver.now then 1 else 0) }
{
    if stands_on(m, receiver) { 1 } else { 0 }
}

/// A method that changes its receiver, of which the load, the arguments and the store have so many.
pub(crate) fn change_size(m: Method, load: u32, args: u32, store: u32) -> Result<u32, NoMemory>
    ensures { IfOk result (λ n. n ≡ change_size m load args store) }
{
    sum(sum(sum(sum(load, args)?, store)?, result_size(m))?, 1)
}

/// An owner that has so many, as it is kept in a local, where it has one.
pub(crate) fn keep_size(owner: Option<u32>, n: u32) -> Result<u32, NoMemory>
    ensures { IfOk result (λ k. k ≡ keep_size owner n) }
{
    match owner {
        Some(_) => sum(n, 1),
        None => Ok(0),
    }
}

/// The same owner, as it is had again.
fn owner_size(owner: Option<u32>, n: u32) -> u32
    ensures { result ≡ owner_size owner n }
{
    match owner {
        Some(_) => 1,
        None => n,
    }
}

/// What takes an owner that has so many.
pub(crate) fn member_size(owner: Option<u32>, n: u32) -> Result<u32, NoMemory>
    ensures { IfOk result (λ k. k ≡ owner_size owner n + 1) }
{
    sum(owner_size(owner, n), 1)
}

/// What changes a place, whose load, operand and store have so many.
pub(crate) fn changed_size(load: u32, operand: u32, store: u32) -> Result<u32, NoMemory>
    ensures { IfOk result (λ n. n ≡ load + (operand + (1 + store))) }
{
    sum(sum(sum(load, operand)?, store)?, 1)
}

/// `while`, where the test and the body have so many.
pub(crate) fn while_size(test: u32, body: u32) -> Result<u32, NoMemory>
    ensures { IfOk result (λ n. n ≡ test + (1 + (1 + (body + 1)))) }
{
    sum(sum(test, body)?, 3)
}

/// `for`, where the sequence and the body have so many.
pub(crate) fn for_size(sequence: u32, body: u32) -> Result<u32, NoMemory>
    ensures { IfOk result (λ n. n ≡ sequence + (1 + (1 + (1 + (body + (1 + (1 + 1))))))) }
{
    sum(sum(sequence, body)?, 6)
}

/// A branch or a case, where the test and the body have so many.
pub(crate) fn part_size(test: u32, body: u32) -> Result<u32, NoMemory>
    ensures { IfOk result (λ n. n ≡ test + (1 + (body + 1))) }
{
    sum(sum(test, body)?, 2)
}
