// Typed nodes.
ghost use Rattle.std.specs.Prelude.{◌≡◌};
ghost use Rattle.sp_type_context.specs.Typing.{leaf_at};

use sp_base::Span;
use sp_typed::{Expr, Leaf, LeafOp};
use sp_types::Type;

/// A leaf on a slice of the text, of a type.
pub fn leaf_at(span: Span, ty: Type, op: LeafOp) -> Expr
    ensures { result ≡ leaf_at span ty op }
{
    Expr::leaf(Leaf { span, ty, op })
}
