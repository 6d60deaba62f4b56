// How a field, an element or a group is read.
use crate::attributes::Attribute;
use crate::rare::Rare;
use sp_base::{ByteList, ResourceError, Span, Text, or_drop};
use sp_typed::{Expr, MOST_LEVELS, Written};
use sp_types::Type;
use std::marker::Model;

/// A literal that is to be matched.
#[derive(Drop)]
pub enum TokenOp {
    Bytes(ByteList),
    /// What stands between the slashes of a regular expression.
    Regex(Text),
    /// `uint8(1)`, in the byte order of its field. The type is that of the node.
    Number(u64),
}

/// What is read as one.
#[derive(Drop)]
pub enum ReadOp {
    /// An integer of the type of the node.
    Int,
    /// A bitfield of the list.
    Bits(u32),
    Bytes,
    /// A literal, and the constant of the list whose value it is, where a path stands.
    Token(TokenOp, Option<u32>),
    Void,
    /// What can't be read, and what is wrong with it.
    Broken(Written),
}

/// A reading without parts: the slice of the text, the type of what is read, and what it is.
#[derive(Drop)]
pub struct Reading {
    pub span: Span,
    pub ty: Type,
    pub op: ReadOp,
}

/// A unit of the list.
#[derive(Clone, Copy)]
pub struct UnitOf {
    pub span: Span,
    pub unit: u32,
}

/// How a field, an element or a group is read, at most [`MOST_LEVELS`] levels high. Clauses see the reading.
#[cycle(spec)]
#[derive(Drop)]
pub struct Spec {
    node: SpecNode,
    levels: u16,
}

/// One level of a reading.
#[cycle(spec)]
#[derive(Drop)]
pub enum SpecNode {
    Read(Reading),
    /// A unit, with its arguments.
    Unit(UnitOf, Vec<Expr>),
    /// A container: its element, and how many there are where that is written.
    List(Span, Box<Spec>, Rare<Expr>),
    /// What stands in parentheses, with its attributes.
    Group(Span, Box<Spec>, Vec<Attribute>),
}

impl Model for Spec {
    ghost use Rattle.std.specs.Prelude.{◌≡◌, ◌≤◌};
    ghost use Rattle.std.specs.Coded.{codes};
    ghost use Rattle.sp_types.specs.contracts.types.Type as type_row;
    ghost use Rattle.sp_typed.specs.contracts.exprs.Expr as expr_row;
    ghost use Rattle.sp_typed.specs.Heights.{most_levels};
    ghost use Rattle.sp_typed_units.specs.Specs.{Spec as Data};
    ghost use Rattle.sp_typed_units.specs.inside.SpecCodes.{spec_size, coded_spec};

    ghost Value = { Data };

    ghost coded = { coded_spec (Prim.hlevel (codes, type_row.the_row.coded)) (Prim.hlevel codes)
        (Prim.hlevel codes) expr_row.the_row.coded (Prim.hlevel (codes, expr_row.the_row.coded)) };

    ghost use Rattle.sp_typed_units.specs.SpecViews.{spec_of};
    ghost use Rattle.sp_typed_units.specs.SpecHeights.{spec_height};

    ghost view = { λ s. spec_of s.node };

    ghost invariant = { λ s. (s.levels ≡ spec_height (spec_of s.node)) × (s.levels ≤ most_levels) };

    ghost size = { spec_size };

    ghost use Rattle.std.proofs.Common.{arith};
    ghost use Rattle.sp_typed_units.specs.inside.SpecFalls.{deep-SpecNode-le};

    ghost size_decreases = { λ s h. Prim.omega (arith, deep-SpecNode-le s.node) };
}

impl Spec {
    ghost use Rattle.std.specs.Prelude.{◌≡◌, ◌≤◌, ◌<◌, ◌+◌, ◌↔◌, IfOk, IsErrOf, IsOkUnless};
    ghost use Rattle.sp_base.specs.declared.resources.ResourceError.TheVariants.{LimitExceeded};
    ghost use Rattle.sp_typed.specs.Heights.{most_levels};
    ghost use Rattle.sp_typed_units.specs.SpecViews.{spec_of};
    ghost use Rattle.sp_typed_units.specs.SpecHeights.{spec_height};

    fn node_levels(node: &SpecNode) -> Result<u16, ResourceError>
        ensures height { IfOk result (λ n. (n ≡ spec_height (spec_of node.now)) × (n ≤ most_levels)) }
        ensures unless { IsOkUnless result LimitExceeded }
        ensures limit { IsErrOf result LimitExceeded
            ↔ (most_levels < spec_height (spec_of node.now)) }
    {
        let inside = match node {
            SpecNode::Read(_) | SpecNode::Unit(..) => 0,
            SpecNode::List(_, element, _) => element.levels(),
            SpecNode::Group(_, inner, _) => inner.levels(),
        };
        if inside < MOST_LEVELS {
            Ok(inside + 1)
        } else {
            Err(ResourceError::LimitExceeded)
        }
    }

    /// The reading of this first level, unless it would be too high. Takes no memory.
    pub fn new(node: SpecNode) -> Result<Spec, ResourceError>
        ensures made { IfOk result (λ s. s ≡ spec_of node) }
        ensures unless { IsOkUnless result LimitExceeded }
        ensures limit { IsErrOf result LimitExceeded ↔ (most_levels < spec_height (spec_of node)) }
    {
        let levels = or_drop!(Spec::node_levels(&node); node);
        Ok(Spec { node, levels })
    }

    /// How many readings stand inside one another.
    pub fn levels(&self) -> u16
        ensures exact { result ≡ spec_height self.now }
        ensures most { result ≤ most_levels }
    {
        self.levels
    }

    /// Its first level. It copies nothing.
    pub fn level(&self) -> &SpecNode
        ensures { spec_of result.now ≡ self.now }
    {
        &self.node
    }
}
