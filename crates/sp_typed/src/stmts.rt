// Statements: a few shapes, by which parts a statement has.
ghost use Rattle.std.specs.Prelude.{◌≡◌};
ghost use Rattle.sp_typed.specs.Stmts.{stmts, branch_row, case_row};
ghost use Rattle.sp_typed.specs.Heights.{stmts_height, branches_height, cases_height};

use crate::exprs::{Expr, above, higher, highest};
use crate::stmt_words::{Assign, Bare, For, Valued};
use sp_base::{ResourceError, Span, or_drop};
use std::marker::Model;

/// A typed statement, at most [`MOST_LEVELS`](crate::MOST_LEVELS) levels high, its expressions among them. Clauses see the
/// statement.
#[cycle(stmt)]
#[derive(Drop)]
pub struct Stmt {
    node: StmtNode,
    levels: u16,
}

/// One level of a statement.
#[cycle(stmt)]
#[derive(Drop)]
pub enum StmtNode {
    Bare(Bare),
    Valued(Valued, Expr),
    /// The target and the value.
    Assign(Assign, Expr, Expr),
    Print(Span, Vec<Expr>),
    Block(Vec<Stmt>),
    /// Conditions with their statements, and the last `else`, which is an empty block where there is none.
    If(Vec<(Expr, Stmt)>, Box<Stmt>),
    While(Expr, Box<Stmt>),
    For(For, Expr, Box<Stmt>),
    /// The slot in which the subject is kept, the subject, the values of each case with its statement, and the `default`,
    /// which is an empty block where there is none.
    Switch(u32, Expr, Vec<(Vec<Expr>, Stmt)>, Box<Stmt>),
}

impl Model for Stmt {
    ghost use Rattle.std.specs.Prelude.{◌≡◌, ◌≤◌};
    ghost use Rattle.std.specs.Coded.{codes};
    ghost use Rattle.sp_types.specs.contracts.types.Type as type_row;
    ghost use Rattle.sp_typed.specs.contracts.exprs.Expr as expr_row;
    ghost use Rattle.sp_typed.specs.Stmts.{Stmt as Data};
    ghost use Rattle.sp_typed.specs.inside.StmtCodes.{stmt_size, coded_stmt};

    ghost Value = { Data };

    ghost coded = { coded_stmt (Prim.hlevel (codes, type_row.the_row.coded))
        (Prim.hlevel (codes, type_row.the_row.coded)) (Prim.hlevel codes) (Prim.hlevel codes)
        (Prim.hlevel (codes, type_row.the_row.coded)) expr_row.the_row.coded };

    ghost use Rattle.sp_typed.specs.StmtViews.{stmt_of};
    ghost use Rattle.sp_typed.specs.Heights.{stmt_height, most_levels};

    ghost view = { λ s. stmt_of s.node };

    ghost invariant = { λ s. (s.levels ≡ stmt_height (stmt_of s.node)) × (s.levels ≤ most_levels) };

    ghost size = { stmt_size };

    ghost use Rattle.std.proofs.Common.{arith};
    ghost use Rattle.sp_typed.specs.inside.StmtFalls.{deep-StmtNode-le};

    ghost size_decreases = { λ s h. Prim.omega (arith, deep-StmtNode-le s.node) };
}

fn highest_stmt(all: &[Stmt]) -> u16
    ensures { result ≡ stmts_height (stmts all.now) }
{
    let mut most = 0;
    for stmt in all {
        most = higher(most, stmt.levels());
    }
    most
}

fn highest_branch(branches: &[(Expr, Stmt)]) -> u16
    ensures { result ≡ branches_height (branch_row branches.now) }
{
    let mut most = 0;
    for branch in branches {
        most = higher(most, higher(branch.0.levels(), branch.1.levels()));
    }
    most
}

fn highest_case(cases: &[(Vec<Expr>, Stmt)]) -> u16
    ensures { result ≡ cases_height (case_row cases.now) }
{
    let mut most = 0;
    for case in cases {
        most = higher(most, higher(highest(&case.0), case.1.levels()));
    }
    most
}

impl Stmt {
    ghost use Rattle.std.specs.Prelude.{◌≡◌, ◌≤◌, ◌<◌, ◌+◌, ◌↔◌, IfOk, IsErrOf, IsOkUnless};
    ghost use Rattle.sp_base.specs.declared.resources.ResourceError.TheVariants.{LimitExceeded};
    ghost use Rattle.sp_typed.specs.StmtViews.{stmt_of};
    ghost use Rattle.sp_typed.specs.Heights.{stmt_height, most_levels};

    /// How high the parts of a statement of this first level are.
    fn inside(node: &StmtNode) -> u16
        ensures { stmt_height (stmt_of node.now) ≡ result + 1 }
    {
        match node {
            StmtNode::Bare(_) => 0,
            StmtNode::Valued(_, e) => e.levels(),
            StmtNode::Assign(_, target, value) => higher(target.levels(), value.levels()),
            StmtNode::Print(_, values) => highest(values),
            StmtNode::Block(all) => highest_stmt(all),
            StmtNode::If(branches, otherwise) => higher(
                highest_branch(branches),
                otherwise.levels(),
            ),
            StmtNode::While(condition, body) => higher(condition.levels(), body.levels()),
            StmtNode::For(_, sequence, body) => higher(sequence.levels(), body.levels()),
            StmtNode::Switch(_, subject, cases, otherwise) => {
                higher(
                    subject.levels(),
                    higher(highest_case(cases), otherwise.levels()),
                )
            }
        }
    }

    /// The statement of this first level, unless it would be too high. Takes no memory.
    pub fn new(node: StmtNode) -> Result<Stmt, ResourceError>
        ensures made { IfOk result (λ s. s ≡ stmt_of node) }
        ensures unless { IsOkUnless result LimitExceeded }
        ensures limit { IsErrOf result LimitExceeded ↔ (most_levels < stmt_height (stmt_of node)) }
    {
        let levels = or_drop!(above(Stmt::inside(&node)); node);
        Ok(Stmt { node, levels })
    }

    /// How high it is: how many statements and nodes of expressions stand inside one another.
    pub fn levels(&self) -> u16
        ensures exact { result ≡ stmt_height self.now }
        ensures most { result ≤ most_levels }
    {
        self.levels
    }

    /// Its first level. It copies nothing.
    pub fn level(&self) -> &StmtNode
        ensures { stmt_of result.now ≡ self.now }
    {
        &self.node
    }
}
