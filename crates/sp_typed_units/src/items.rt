// Parts of units: fields and switches.
use crate::attributes::Attribute;
use crate::numbers::Numbers;
use crate::rare::Rare;
use crate::readings::Spec;
use crate::rows::Row;
use sp_base::Span;
use sp_typed::Expr;
use sp_types::Type;
use std::marker::Model;

/// A field.
#[derive(Drop)]
pub struct Field {
    /// Its name, or the colon of an anonymous field.
    pub span: Span,
    /// Its member's number from 0 among those of its unit, if it has a name.
    pub member: Option<u32>,
    /// Whether its unit has the name already, and not for a field of another arm with the same type.
    pub taken: bool,
    /// The type of the value that is stored.
    pub ty: Type,
    pub spec: Spec,
    /// In the order of the text.
    pub attributes: Row<Attribute>,
    pub condition: Rare<Expr>,
    /// What stands behind `->`.
    pub sink: Rare<Expr>,
    /// The numbers of its hooks in the list, in the order in which they run.
    pub hooks: Numbers,
}

/// What an arm of a switch is chosen by.
#[derive(Drop)]
pub struct Arm {
    /// Its `->`.
    pub span: Span,
    /// Its values, none where it is chosen by look-ahead.
    pub values: Row<Expr>,
    /// Whether it is chosen where no other is.
    pub otherwise: bool,
}

/// A part of a unit. Clauses see the part.
#[cycle(part)]
#[derive(Drop)]
pub struct Part {
    node: PartNode,
}

/// One level of a part.
#[cycle(part)]
#[derive(Drop)]
pub enum PartNode {
    Field(Field),
    /// A switch: what its arms are compared with, unless it is by look-ahead, and its arms with their parts.
    Switch(Span, Option<Expr>, Vec<(Arm, Vec<Part>)>),
}

impl Model for Part {
    ghost use Rattle.std.specs.Coded.{codes};
    ghost use Rattle.sp_types.specs.contracts.types.Type as type_row;
    ghost use Rattle.sp_typed.specs.contracts.exprs.Expr as expr_row;
    ghost use Rattle.sp_typed_units.specs.contracts.readings.Spec as spec_row;
    ghost use Rattle.sp_typed_units.specs.Parts.{Part as Data};
    ghost use Rattle.sp_typed_units.specs.inside.PartCodes.{part_size, coded_part};

    ghost Value = { Data };

    ghost coded = { coded_part
        (Prim.hlevel (codes, type_row.the_row.coded, expr_row.the_row.coded, spec_row.the_row.coded))
        (Prim.hlevel (codes, expr_row.the_row.coded)) (Prim.hlevel codes) expr_row.the_row.coded };

    ghost use Rattle.sp_typed_units.specs.PartViews.{part_of};

    ghost view = { λ p. part_of p.node };

    ghost size = { part_size };

    ghost use Rattle.std.proofs.Common.{arith};
    ghost use Rattle.sp_typed_units.specs.inside.PartFalls.{deep-PartNode-le};

    ghost size_decreases = { λ p h. Prim.omega (arith, deep-PartNode-le p.node) };
}

impl Part {
    ghost use Rattle.std.specs.Prelude.{◌≡◌};
    ghost use Rattle.sp_typed_units.specs.PartViews.{part_of};

    /// The part of this first level.
    pub fn new(node: PartNode) -> Part
        ensures { result ≡ part_of node }
    {
        Part { node }
    }

    /// Its first level. It copies nothing.
    pub fn level(&self) -> &PartNode
        ensures { part_of result.now ≡ self.now }
    {
        &self.node
    }
}
