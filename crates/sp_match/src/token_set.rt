// Token sets: their members as one automaton.
ghost use Rattle.std.specs.Prelude.{◌≡◌, ◌≢◌, ◌+◌, ◌-◌, ◌^◌, ◌++◌, ◌∷◌, ◌<◌, ◌≤◌, ◌⊎◌, ℕ, List, [], length, min, true, false, Option, Some, None, IfOk, OnOk, OnErr, Err};
ghost use Rattle.sp_regex.specs.Trees.{Syntax};
ghost use Rattle.sp_regex.specs.Language.{InL};
ghost use Rattle.sp_match.specs.Matching.{HasWord, NoneEmpty, is_literal};
ghost use Rattle.sp_match.specs.Running.{Begins, IsNetOf};
ghost use Rattle.sp_match.specs.Sizes.{IsSetOf, positions_together};

use crate::compile::compile;
use crate::empties::has_empty_word;
use crate::machine::Machine;
use crate::sets::join;
use crate::spot::Spot;
use crate::table::Table;
use sp_base::NoMemory;
use sp_regex::{Regex, Shape};
use std::alloc::Global;
use thiserror::Error;

/// The most byte positions of the members of a token set together.
pub const POSITIONS: u64 = 4096;

/// Why a token set is not built.
#[derive(Debug, Drop, Error)]
pub enum SetFault {
    /// The member of this number, from 0, is the first that has the empty word.
    #[error("token {0} matches nothing at all")]
    Empty(u64),
    /// The members have over 4,096 byte positions together.
    #[error("too many positions in a token set")]
    TooMany,
    /// There was no memory.
    #[error("out of memory")]
    NoMemory,
}

impl From<NoMemory> for SetFault {
    ghost use Rattle.sp_match.specs.declared.token_set.SetFault.TheVariants;

    ghost from_gives = { λ _ e. e ≡ TheVariants.NoMemory };

    fn from(_: NoMemory) -> SetFault {
        SetFault::NoMemory
    }
}

/// Tokens among which the longest match decides.
#[derive(Drop)]
pub struct TokenSet {
    pub(crate) machine: Machine,
    pub(crate) table: Table,
}

/// Whether it is a literal.
#[tactic(auto, using(crate::proofs::Whole::sequence_no_literal, crate::proofs::Whole::alternatives_no_literal))]
fn literal(regex: &Regex) -> bool
    ensures { result ≡ is_literal regex.now }
{
    match regex.shape() {
        Shape::Literal(_) => true,
        Shape::Byte(_) | Shape::Any | Shape::Class(_, _) | Shape::Repeat(_, _) => false,
        Shape::Sequence(_) => false,
        Shape::Alternatives(_) => false,
    }
}

/// The first member that has the empty word.
fn first_empty(tokens: &[Regex]) -> Option<usize>
    ensures first { (i : ℕ) → result ≡ Some i → HasWord tokens.now i [] }
    ensures before { (i : ℕ) → result ≡ Some i → (j : ℕ) → j < i → HasWord tokens.now j [] → ⊥ }
    ensures none { result ≡ None → NoneEmpty tokens.now }
{
    for (i, token) in tokens.iter().enumerate() {
        if has_empty_word(token) {
            return Some(i);
        }
    }
    None
}

/// The byte positions of the members together, up to 2^64 - 1.
fn positions(tokens: &[Regex]) -> u64
    ensures { result ≡ min (positions_together tokens.now) (2 ^ 64 - 1) }
{
    let mut total: u64 = 0;
    for token in tokens {
        total = total.saturating_add(token.positions());
    }
    total
}

/// Adds a member: its goal, and the spots that lead there.
fn add_token(
    alloc: Global,
    net: &mut Vec<Spot>,
    start: &mut Vec<usize>,
    token: &Regex,
    number: u32,
) -> Result<(), NoMemory>
    ensures { (tokens : List Syntax) → number ≡ length tokens → (InL token.now [] → ⊥)
        → Begins tokens net.old.items start.old.items
        → OnOk result (Begins (tokens ++ token.now ∷ []) net.new.items start.new.items) }
{
    let goal = net.len();
    let kind = literal(token);
    net.push(Spot::Goal {
        token: number,
        literal: kind,
    })?;
    let entry = compile(alloc, net, token, goal)?;
    join(start, &entry)?;
    Ok(())
}

/// The set whose automaton begins at these spots.
fn set_of_net(alloc: Global, net: &[Spot], start: &[usize]) -> Result<TokenSet, NoMemory>
    ensures { (tokens : List Syntax) → IsNetOf tokens net.now start.now
        → IfOk result (λ set. IsSetOf set tokens) }
{
    let machine = Machine::of_net(alloc, net)?;
    let first = machine.start(alloc, start)?;
    let table = Table::of_machine(alloc, &machine, first)?;
    Ok(TokenSet { machine, table })
}

/// The set of all members.
fn build_net(alloc: Global, tokens: &[Regex]) -> Result<TokenSet, NoMemory>
    requires few { length tokens.now < 2 ^ 32 }
    requires none_empty { NoneEmpty tokens.now }
    ensures { IfOk result (λ set. IsSetOf set tokens.now) }
{
    let mut net = Vec::new(alloc);
    let mut start = Vec::new(alloc);
    for i in 0..tokens.len() {
        add_token(alloc, &mut net, &mut start, &tokens[i], i as u32)?;
    }
    let set = set_of_net(alloc, &net, &start)?;
    Ok(set)
}

impl TokenSet {
    /// The set of these members. `Empty` goes before `TooMany`.
    pub fn build(alloc: Global, tokens: &[Regex]) -> Result<TokenSet, SetFault>
        ensures set { IfOk result (λ set. IsSetOf set tokens.now) }
        ensures none_empty { OnOk result (NoneEmpty tokens.now) }
        ensures few { OnOk result (positions_together tokens.now ≤ 4096) }
        ensures empty { (i : ℕ) → result ≡ Err (SetFault.Empty i) → HasWord tokens.now i [] }
        ensures first { (i : ℕ) → result ≡ Err (SetFault.Empty i) → (j : ℕ) → j < i
            → HasWord tokens.now j [] → ⊥ }
        ensures not_empty { result ≡ Err SetFault.TooMany → NoneEmpty tokens.now }
        ensures too_many { result ≡ Err SetFault.TooMany → (4096 < positions_together tokens.now)
            ⊎ (2 ^ 32 ≤ length tokens.now) }
    {
        if let Some(i) = first_empty(tokens) {
            return Err(SetFault::Empty(i as u64));
        }
        if positions(tokens) > POSITIONS || tokens.len() > u32::MAX as usize {
            return Err(SetFault::TooMany);
        }
        let set = build_net(alloc, tokens)?;
        Ok(set)
    }
}
