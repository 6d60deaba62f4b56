// Expressions: a few shapes, by how many parts a node has.
ghost use Rattle.std.specs.Prelude.{◌≡◌, ◌≤◌, ◌<◌, ◌+◌, ◌↔◌, max, IfOk, IsErrOf, IsOkUnless};
ghost use Rattle.sp_base.specs.declared.resources.ResourceError.TheVariants.{LimitExceeded};
ghost use Rattle.sp_typed.specs.Exprs.{exprs};
ghost use Rattle.sp_typed.specs.Heights.{heights, most_levels};

use crate::heads::{Leaf, Many, One, Three, Two};
use crate::words::{LeafOp, OneOp};
use sp_base::{ResourceError, Span, or_drop};
use sp_types::{Type, Word};
use std::alloc::Global;
use std::marker::Model;

/// The most levels of what is typed: twice as many as a tree of the grammar has, since each part may stand in a node that
/// widens it. The stack is memory too, so that what is higher exceeds the limit.
pub const MOST_LEVELS: u16 = 2000;

/// A typed expression, at most [`MOST_LEVELS`] levels high. Clauses see the expression.
#[cycle(expr)]
#[derive(Drop)]
pub struct Expr {
    node: ExprNode,
    levels: u16,
}

/// One level of an expression.
#[cycle(expr)]
#[derive(Drop)]
pub(crate) enum ExprNode {
    Leaf(Leaf),
    One(One, Box<Expr>),
    Two(Two, Box<Expr>, Box<Expr>),
    Three(Three, Box<Expr>, Box<Expr>, Box<Expr>),
    Many(Many, Vec<Expr>),
}

/// One level of an expression, with its parts lent.
#[derive(Clone, Copy)]
pub enum ExprLevel<'a> {
    Leaf(&'a Leaf),
    One(&'a One, &'a Expr),
    Two(&'a Two, &'a Expr, &'a Expr),
    Three(&'a Three, &'a Expr, &'a Expr, &'a Expr),
    Many(&'a Many, &'a [Expr]),
}

/// One level of an expression, with its parts owned.
#[derive(Drop)]
pub enum ExprParts {
    Leaf(Leaf),
    One(One, Expr),
    Two(Two, Expr, Expr),
    Three(Three, Expr, Expr, Expr),
    Many(Many, Vec<Expr>),
}

impl Model for Expr {
    ghost use Rattle.std.specs.Prelude.{◌≡◌, ◌≤◌};
    ghost use Rattle.std.specs.Coded.{codes};
    ghost use Rattle.sp_types.specs.contracts.types.Type as type_row;
    ghost use Rattle.sp_typed.specs.Exprs.{Expr as Data};
    ghost use Rattle.sp_typed.specs.inside.ExprCodes.{expr_size, coded_expr};

    ghost Value = { Data };

    ghost coded = { coded_expr (Prim.hlevel (codes, type_row.the_row.coded))
        (Prim.hlevel (codes, type_row.the_row.coded)) (Prim.hlevel (codes, type_row.the_row.coded))
        (Prim.hlevel (codes, type_row.the_row.coded)) (Prim.hlevel (codes, type_row.the_row.coded)) };

    ghost use Rattle.sp_typed.specs.ExprViews.{expr_of};
    ghost use Rattle.sp_typed.specs.Heights.{height, most_levels};

    ghost view = { λ e. expr_of e.node };

    ghost invariant = { λ e. (e.levels ≡ height (expr_of e.node)) × (e.levels ≤ most_levels) };

    ghost size = { expr_size };

    ghost use Rattle.std.proofs.Common.{arith};
    ghost use Rattle.sp_typed.specs.inside.ExprFalls.{deep-ExprNode-le};

    ghost size_decreases = { λ e h. Prim.omega (arith, deep-ExprNode-le e.node) };
}

/// The higher of two heights.
pub(crate) fn higher(a: u16, b: u16) -> u16
    ensures { result ≡ max a b }
{
    if a < b { b } else { a }
}

/// How high the highest expression is.
pub(crate) fn highest(parts: &[Expr]) -> u16
    ensures { result ≡ heights (exprs parts.now) }
{
    let mut most = 0;
    for part in parts {
        most = higher(most, part.levels());
    }
    most
}

/// The height of a node over parts of this height, unless it exceeds the limit. It takes no memory.
pub(crate) fn above(levels: u16) -> Result<u16, ResourceError>
    ensures height { IfOk result (λ n. (n ≡ levels + 1) × (n ≤ most_levels)) }
    ensures unless { IsOkUnless result LimitExceeded }
    ensures limit { IsErrOf result LimitExceeded ↔ (most_levels < levels + 1) }
{
    if levels < MOST_LEVELS {
        Ok(levels + 1)
    } else {
        Err(ResourceError::LimitExceeded)
    }
}

impl Expr {
    ghost use Rattle.std.specs.Prelude.{◌≡◌, ◌≤◌, ◌<◌, ◌↔◌, true, IfOk, IsErrOf, IsOkUnless};
    ghost use Rattle.sp_base.specs.declared.resources.ResourceError.TheVariants.{LimitExceeded};
    ghost use Rattle.sp_typed.specs.Exprs.{leaf, one, two, three, many, exprs, type_of, span_of, is_literal, is_number, retyped, settled};
    ghost use Rattle.sp_typed.specs.ExprLevels.{level_expr, expr_of_parts};
    ghost use Rattle.sp_typed.specs.Heights.{height, most_levels};

    /// A node without parts. Takes no memory.
    pub fn leaf(head: Leaf) -> Expr
        ensures { result ≡ leaf head }
    {
        Expr {
            node: ExprNode::Leaf(head),
            levels: 1,
        }
    }

    /// A node with one part, unless it would be too high.
    pub fn one(alloc: Global, head: One, a: Expr) -> Result<Expr, ResourceError>
        ensures made { IfOk result (λ e. e ≡ one head a) }
        ensures limit { IsErrOf result LimitExceeded ↔ (most_levels < height (one head a)) }
    {
        let levels = or_drop!(above(a.levels()); head, a);
        let a = or_drop!(Box::new(alloc, a); head);
        Ok(Expr {
            node: ExprNode::One(head, a),
            levels,
        })
    }

    /// A node with two parts, unless it would be too high.
    pub fn two(alloc: Global, head: Two, a: Expr, b: Expr) -> Result<Expr, ResourceError>
        ensures made { IfOk result (λ e. e ≡ two head a b) }
        ensures limit { IsErrOf result LimitExceeded ↔ (most_levels < height (two head a b)) }
    {
        let levels = or_drop!(above(higher(a.levels(), b.levels())); head, a, b);
        let a = or_drop!(Box::new(alloc, a); head, b);
        let b = or_drop!(Box::new(alloc, b); head, a);
        Ok(Expr {
            node: ExprNode::Two(head, a, b),
            levels,
        })
    }

    /// A node with three parts, unless it would be too high.
    pub fn three(
        alloc: Global,
        head: Three,
        a: Expr,
        b: Expr,
        c: Expr,
    ) -> Result<Expr, ResourceError>
        ensures made { IfOk result (λ e. e ≡ three head a b c) }
        ensures limit { IsErrOf result LimitExceeded ↔ (most_levels < height (three head a b c)) }
    {
        let inside = higher(a.levels(), higher(b.levels(), c.levels()));
        let levels = or_drop!(above(inside); head, a, b, c);
        let a = or_drop!(Box::new(alloc, a); head, b, c);
        let b = or_drop!(Box::new(alloc, b); head, a, c);
        let c = or_drop!(Box::new(alloc, c); head, a, b);
        Ok(Expr {
            node: ExprNode::Three(head, a, b, c),
            levels,
        })
    }

    /// A node with any number of parts, unless it would be too high. Takes no memory.
    pub fn many(head: Many, parts: Vec<Expr>) -> Result<Expr, ResourceError>
        ensures made { IfOk result (λ e. e ≡ many head (exprs parts.items)) }
        ensures unless { IsOkUnless result LimitExceeded }
        ensures limit { IsErrOf result LimitExceeded ↔ (most_levels < height (many head (exprs parts.items))) }
    {
        let levels = or_drop!(above(highest(&parts)); head, parts);
        Ok(Expr {
            node: ExprNode::Many(head, parts),
            levels,
        })
    }

    /// How high it is: how many nodes stand inside one another.
    pub fn levels(&self) -> u16
        ensures exact { result ≡ height self.now }
        ensures most { result ≤ most_levels }
    {
        self.levels
    }

    /// Its first level. It copies nothing.
    pub fn level(&self) -> ExprLevel<'_>
        ensures { level_expr result ≡ self.now }
    {
        match &self.node {
            ExprNode::Leaf(h) => ExprLevel::Leaf(h),
            ExprNode::One(h, a) => ExprLevel::One(h, a),
            ExprNode::Two(h, a, b) => ExprLevel::Two(h, a, b),
            ExprNode::Three(h, a, b, c) => ExprLevel::Three(h, a, b, c),
            ExprNode::Many(h, parts) => ExprLevel::Many(h, parts.as_slice()),
        }
    }

    /// Its first level, taken apart.
    pub fn into_parts(self) -> ExprParts
        ensures { expr_of_parts result ≡ self }
    {
        match self.node {
            ExprNode::Leaf(h) => ExprParts::Leaf(h),
            ExprNode::One(h, a) => ExprParts::One(h, Box::into_inner(a)),
            ExprNode::Two(h, a, b) => ExprParts::Two(h, Box::into_inner(a), Box::into_inner(b)),
            ExprNode::Three(h, a, b, c) => {
                ExprParts::Three(
                    h,
                    Box::into_inner(a),
                    Box::into_inner(b),
                    Box::into_inner(c),
                )
            }
            ExprNode::Many(h, parts) => ExprParts::Many(h, parts),
        }
    }

    /// Its type.
    pub fn ty(&self) -> &Type
        ensures { result.now ≡ type_of self.now }
    {
        match &self.node {
            ExprNode::Leaf(h) => &h.ty,
            ExprNode::One(h, _) => &h.ty,
            ExprNode::Two(h, _, _) => &h.ty,
            ExprNode::Three(h, _, _, _) => &h.ty,
            ExprNode::Many(h, _) => &h.ty,
        }
    }

    /// The slice of the text on which it stands.
    pub fn span(&self) -> Span
        ensures { result ≡ span_of self.now }
    {
        match &self.node {
            ExprNode::Leaf(h) => h.span,
            ExprNode::One(h, _) => h.span,
            ExprNode::Two(h, _, _) => h.span,
            ExprNode::Three(h, _, _, _) => h.span,
            ExprNode::Many(h, _) => h.span,
        }
    }

    /// Whether it is a number that takes the type of its place.
    pub fn is_number(&self) -> bool
        ensures { result ≡ is_number self.now }
    {
        match &self.node {
            ExprNode::Leaf(h) => h.op.is_number(),
            _ => false,
        }
    }

    /// Whether it is a literal: a number that takes the type of its place, with a minus sign or without.
    pub fn is_literal(&self) -> bool
        ensures { result ≡ is_literal self.now }
    {
        match &self.node {
            ExprNode::Leaf(h) => h.op.is_number(),
            ExprNode::One(h, a) => h.op.is_minus() && a.is_number(),
            _ => false,
        }
    }

    /// A literal with the type of its place; what is no literal stays as it is.
    pub fn settle(self, to: Word) -> Expr
        ensures { result ≡ settled to self }
    {
        if self.is_literal() {
            self.retyped(Type::word(to))
        } else {
            self
        }
    }

    /// A literal with another type: a node of no part or of one. Other nodes stay as they are.
    fn retyped(self, ty: Type) -> Expr
        ensures { is_literal self ≡ true → result ≡ retyped ty self }
    {
        let levels = self.levels;
        let node = match self.node {
            ExprNode::Leaf(h) => ExprNode::Leaf(Leaf { ty, ..h }),
            ExprNode::One(h, a) => ExprNode::One(One { ty, ..h }, a),
            other => {
                drop(ty);
                other
            }
        };
        Expr { node, levels }
    }
}

impl LeafOp {
    ghost use Rattle.std.specs.Prelude.{◌≡◌};
    ghost use Rattle.sp_typed.specs.Exprs.{number_leaf};

    pub(crate) fn is_number(&self) -> bool
        ensures { result ≡ number_leaf self.now }
    {
        matches!(self, LeafOp::Number(_))
    }
}

impl OneOp {
    ghost use Rattle.std.specs.Prelude.{◌≡◌};
    ghost use Rattle.sp_typed.specs.Exprs.{is_minus};

    pub(crate) fn is_minus(&self) -> bool
        ensures { result ≡ is_minus self.now }
    {
        matches!(self, OneOp::Negate)
    }
}
