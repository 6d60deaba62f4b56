// What the least fault of an expression and of a body is.
ghost use Rattle.std.specs.Prelude.{ℕ, Option, None};
ghost use Rattle.sp_rules.specs.Least.{IsLeast};
ghost use Rattle.sp_types.specs.Types.{Ty};
ghost use Rattle.sp_typed.specs.Exprs.{Expr};
ghost use Rattle.sp_typed.specs.Stmts.{Stmt};
ghost use Rattle.sp_rule_bodies.specs.Known.{Known};
ghost use Rattle.sp_rule_bodies.specs.Sweeps.{swept_expr, swept_body, Breaks, BreaksIn};

/// What is noted of an expression is the least of the rules that are broken at its nodes, and nothing where none is; and what
/// is noted of a body is the least of those that are broken at its statements and at the nodes of their expressions.
pub fn least_of_broken()
    ensures exprs { (k : Known) (m : ℕ) (e : Expr)
        → IsLeast (Breaks k m e) (swept_expr k m None e) }
    ensures bodies { (k : Known) (w : Option Ty) (m : ℕ) (s : Stmt)
        → IsLeast (BreaksIn k w m s) (swept_body k w m None s) }
{}
