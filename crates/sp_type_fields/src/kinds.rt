// What is read, by the attributes that can stand on it.
ghost use Rattle.std.specs.Prelude.{◌≡◌};
ghost use Rattle.sp_type_fields.specs.Kinds.{token_kind, read_kind, list_kind, kind_of};

use crate::roles::{Kind, grouped};
use sp_typed::Expr;
use sp_typed_units::{Rare, ReadOp, Spec, SpecNode, TokenOp};

fn token_kind(token: &TokenOp) -> Kind
    ensures { result ≡ token_kind token.now }
{
    match token {
        TokenOp::Number(_) => Kind::TypedLiteral,
        TokenOp::Bytes(_) | TokenOp::Regex(_) => Kind::Literal,
    }
}

/// What is read alone.
pub fn read_kind(op: &ReadOp) -> Kind
    ensures { result ≡ read_kind op.now }
{
    match op {
        ReadOp::Int => Kind::Integer,
        ReadOp::Bits(_) => Kind::Bitfield,
        ReadOp::Bytes => Kind::Bytes,
        ReadOp::Token(token, _) => token_kind(token),
        ReadOp::Void => Kind::Void,
        ReadOp::Broken(_) => Kind::Broken,
    }
}

/// What is read again and again.
pub fn list_kind(count: &Rare<Expr>) -> Kind
    ensures { result ≡ list_kind count.now }
{
    match count.get() {
        None => Kind::Open,
        Some(_) => Kind::Counted,
    }
}

/// What is read, by the attributes that can stand on it.
#[cycle(kinds)]
pub fn kind_of(spec: &Spec) -> Kind
    ensures { result ≡ kind_of spec.now }
{
    match spec.level() {
        SpecNode::Read(head) => read_kind(&head.op),
        SpecNode::Unit(..) => Kind::Unit,
        SpecNode::List(_, _, count) => list_kind(count),
        SpecNode::Group(_, inner, _) => grouped(kind_of(inner)),
    }
}
