// Regular expressions as trees.
ghost use Rattle.std.specs.Prelude.{◌≡◌, ◌-◌, ◌^◌, min, IfOk};
ghost use Rattle.sp_regex.specs.Trees.{byte, any, class, repeat, sequence, alternatives, literal, times_of, positions_of};

use crate::bytes::ByteRange;
use sp_base::NoMemory;
use std::alloc::Global;
use std::marker::Model;

/// How many times an atom stands: at least `least` times, and at most `most` times where there is such
/// a bound.
#[derive(Clone, Copy)]
pub struct Count {
    pub least: u8,
    pub most: Option<u8>,
}

impl Count {
    // How often the positions of the atom count.
    fn times(self) -> u64
        ensures { result ≡ times_of self.least self.most }
    {
        match self.most {
            Some(most) => u64::from(most),
            None => u64::from(self.least.max(1)),
        }
    }
}

/// A regular expression, or the bytes of a literal. One that was read from a text is at most 64 groups deep, so that to count its
/// positions or to drop it takes little of the stack.
#[derive(Drop)]
#[cycle(tree)]
pub struct Regex {
    pub(crate) node: Node,
}

#[derive(Drop)]
#[cycle(tree)]
pub(crate) enum Node {
    Byte(u8),
    Any,
    Class(Class),
    Sequence(Vec<Regex>),
    Alternatives(Vec<Regex>),
    Repeat(Box<Regex>, Count),
    Literal(Vec<u8>),
}

// The bytes of a class: those of its ranges, or all others.
#[derive(Drop)]
pub(crate) struct Class {
    pub(crate) negated: bool,
    pub(crate) ranges: Vec<ByteRange>,
}

impl Model for Regex {
    ghost use Rattle.sp_regex.specs.Trees.{Syntax, syntax_size};
    ghost use Rattle.sp_regex.specs.inside.SyntaxCodes.{coded_syntax};

    ghost Value = { Syntax };

    ghost coded = { coded_syntax };

    ghost size = { syntax_size };

    ghost use Rattle.sp_regex.specs.Views.{node_syntax};

    ghost view = { λ r. node_syntax r.node };

    ghost use Rattle.sp_regex.specs.inside.Falls.{node_falls};

    ghost size_decreases = { λ r h. node_falls r.node };
}

impl Regex {
    pub(crate) fn byte(b: u8) -> Regex
        ensures { result ≡ byte b }
    {
        Regex {
            node: Node::Byte(b),
        }
    }

    pub(crate) fn any() -> Regex
        ensures { result ≡ any }
    {
        Regex { node: Node::Any }
    }

    pub(crate) fn class(negated: bool, ranges: Vec<ByteRange>) -> Regex
        ensures { result ≡ class negated ranges.items }
    {
        Regex {
            node: Node::Class(Class { negated, ranges }),
        }
    }

    pub(crate) fn sequence(pieces: Vec<Regex>) -> Regex
        ensures { result ≡ sequence pieces.items }
    {
        Regex {
            node: Node::Sequence(pieces),
        }
    }

    pub(crate) fn alternatives(all: Vec<Regex>) -> Regex
        ensures { result ≡ alternatives all.items }
    {
        Regex {
            node: Node::Alternatives(all),
        }
    }

    pub(crate) fn repeat(alloc: Global, atom: Regex, count: Count) -> Result<Regex, NoMemory>
        ensures { IfOk result (λ r. r ≡ repeat count.least count.most atom) }
    {
        let atom = Box::new(alloc, atom)?;
        Ok(Regex {
            node: Node::Repeat(atom, count),
        })
    }

    /// The literal of these bytes: its language is these bytes alone, and where a match is as long as that
    /// of another member of a token set, a literal wins over what was read from a text.
    pub fn literal(alloc: Global, bytes: &[u8]) -> Result<Regex, NoMemory>
        ensures { IfOk result (λ r. r ≡ literal bytes.now) }
    {
        let bytes = bytes.to_vec(alloc)?;
        Ok(Regex {
            node: Node::Literal(bytes),
        })
    }

    /// The count of byte positions: bytes, escapes, `.`, classes and the bytes of a literal, one each; those of an atom count as
    /// often as its bounds allow at most, and once or, where that is more, the least number of times
    /// without such a bound. A count past 2^64 - 1 is given as 2^64 - 1.
    pub fn positions(&self) -> u64
        ensures { result ≡ min (positions_of self.now) (2 ^ 64 - 1) }
    {
        match &self.node {
            Node::Byte(_) | Node::Any | Node::Class(_) => 1,
            Node::Sequence(parts) | Node::Alternatives(parts) => {
                let mut total: u64 = 0;
                for part in parts {
                    total = total.saturating_add(part.positions());
                }
                total
            }
            Node::Literal(bytes) => bytes.len() as u64,
            Node::Repeat(atom, count) => count.times().saturating_mul(atom.positions()),
        }
    }
}
