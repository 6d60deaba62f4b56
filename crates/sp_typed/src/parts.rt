// So many parts out of a vector.
ghost use Rattle.std.specs.Prelude.{◌≡◌, ◌≢◌, ◌⊎◌, [], ◌∷◌, length, Some, None, IfSome, IfNone};

use crate::exprs::Expr;

/// The one expression, where there is one.
pub fn one_of(mut parts: Vec<Expr>) -> Option<Expr>
    ensures some { IfSome result (λ a. parts.items ≡ a ∷ []) }
    ensures none { IfNone result (length parts.items ≢ 1) }
{
    if parts.len() != 1 {
        return None;
    }
    parts.pop()
}

/// Both expressions, where both are there.
fn both(a: Option<Expr>, b: Option<Expr>) -> Option<(Expr, Expr)>
    ensures some { IfSome result (λ p. (a ≡ Some p.0) × (b ≡ Some p.1)) }
    ensures none { IfNone result ((a ≡ None) ⊎ (b ≡ None)) }
{
    let Some(a) = a else {
        drop(b);
        return None;
    };
    let Some(b) = b else {
        drop(a);
        return None;
    };
    Some((a, b))
}

/// The two expressions, where there are two.
pub fn two_of(mut parts: Vec<Expr>) -> Option<(Expr, Expr)>
    ensures some { IfSome result (λ p. parts.items ≡ p.0 ∷ (p.1 ∷ [])) }
    ensures none { IfNone result (length parts.items ≢ 2) }
{
    let last = parts.pop();
    both(one_of(parts), last)
}

/// The three expressions, where there are three.
pub fn three_of(mut parts: Vec<Expr>) -> Option<(Expr, Expr, Expr)>
    ensures some { IfSome result (λ p. parts.items ≡ p.0 ∷ (p.1 ∷ (p.2 ∷ []))) }
    ensures none { IfNone result (length parts.items ≢ 3) }
{
    let last = parts.pop();
    match (two_of(parts), last) {
        (Some((a, b)), Some(c)) => Some((a, b, c)),
        (found, last) => {
            drop(found);
            drop(last);
            None
        }
    }
}
