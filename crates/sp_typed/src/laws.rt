// What holds of all nodes.
ghost use Rattle.std.specs.Prelude.{◌≡◌, Bool};
ghost use Rattle.std.specs.List.{list_all};
ghost use Rattle.sp_typed.specs.Exprs.{Expr};
ghost use Rattle.sp_typed.specs.Nodes.{nodes, holds};
ghost use Rattle.sp_typed.specs.StmtNodes.{stmt_nodes, nodes_hold};
ghost use Rattle.sp_typed.specs.Stmts.{Stmt};

/// A test holds at all nodes of an expression exactly where it holds at the first one and at all nodes of each part; and at
/// all nodes of a statement exactly where it holds at all nodes of each part.
pub fn law_of_nodes()
    ensures exprs { (p : Expr → Bool) (e : Expr) → list_all p (nodes e) ≡ holds p e }
    ensures stmts { (p : Expr → Bool) (s : Stmt) → list_all p (stmt_nodes s) ≡ nodes_hold p s }
{}
