// The automaton of a regular expression, made from its end to its front: each part is given the spot that stands
// behind it, and answers the set of spots where its reading begins.
ghost use Rattle.std.specs.Prelude.{◌≡◌, ℕ, ◌<◌, List, [], ◌∷◌, length, IfOk};
ghost use Rattle.std.specs.Prelude.{◌||◌, ◌&&◌, ◌==◌, not, true, false, Some, None, set as put_at};
ghost use Rattle.sp_regex.specs.Trees.{Syntax, byte as byte_syntax, any, class, empty, followed, sequence, alternatives, repeat, literal, positions_of};
ghost use Rattle.sp_match.specs.declared.spot.Spot.{Spot as NetSpot};
ghost use Rattle.sp_regex.specs.Language.{InL};
ghost use Rattle.sp_match.specs.Sets.{has, class_has};
ghost use Rattle.sp_match.specs.Parts.{Below, IsCompiled, IsChain, OneByte, Many, copies};

use crate::classes::{all_bytes, bytes_of_class, has_byte, one_byte};
use crate::empties::repetition_has;
use crate::rounds::rounds_of;
use crate::sets::{contains, copy, is_empty, join, join_others, put, single};
use crate::spot::Spot;
use sp_base::NoMemory;
use sp_regex::{ByteRange, Count, Regex, Shape};
use std::alloc::Global;

/// Adds a spot that reads a byte of the class.
fn add_byte(net: &mut Vec<Spot>, bytes: Vec<bool>, then: usize) -> Result<usize, NoMemory>
    requires below { then < length net.old.items }
    requires some { (x : ℕ) × (class_has bytes.items x ≡ true) }
    ensures { IfOk result (λ spot. IsCompiled (OneByte bytes.items)
        (then ∷ []) (spot ∷ []) net.old.items net.new.items) }
{
    let spot = net.len();
    net.push(Spot::Byte { bytes, next: then })?;
    Ok(spot)
}

/// A byte of the class.
fn leaf(
    alloc: Global,
    net: &mut Vec<Spot>,
    bytes: Vec<bool>,
    then: usize,
) -> Result<Vec<usize>, NoMemory>
    requires { then < length net.old.items }
    ensures { IfOk result (λ entry. IsCompiled (OneByte bytes.items)
        (then ∷ []) entry.items net.old.items net.new.items) }
{
    if !has_byte(&bytes) {
        return Ok(Vec::new(alloc));
    }
    let spot = add_byte(net, bytes, then)?;
    let entry = single(alloc, spot)?;
    Ok(entry)
}

/// One byte.
fn byte_part(
    alloc: Global,
    net: &mut Vec<Spot>,
    byte: u8,
    then: usize,
) -> Result<Vec<usize>, NoMemory>
    requires { then < length net.old.items }
    ensures { IfOk result (λ entry. IsCompiled (InL (byte_syntax byte))
        (then ∷ []) entry.items net.old.items net.new.items) }
{
    let class = one_byte(alloc, byte)?;
    let entry = leaf(alloc, net, class, then)?;
    Ok(entry)
}

/// Any byte.
fn any_part(alloc: Global, net: &mut Vec<Spot>, then: usize) -> Result<Vec<usize>, NoMemory>
    requires { then < length net.old.items }
    ensures { IfOk result (λ entry. IsCompiled (InL any)
        (then ∷ []) entry.items net.old.items net.new.items) }
{
    let class = all_bytes(alloc)?;
    let entry = leaf(alloc, net, class, then)?;
    Ok(entry)
}

/// A byte of a class.
fn class_part(
    alloc: Global,
    net: &mut Vec<Spot>,
    negated: bool,
    ranges: &[ByteRange],
    then: usize,
) -> Result<Vec<usize>, NoMemory>
    requires { then < length net.old.items }
    ensures { IfOk result (λ entry. IsCompiled (InL (class negated ranges.now))
        (then ∷ []) entry.items net.old.items net.new.items) }
{
    let class = bytes_of_class(alloc, negated, ranges)?;
    let entry = leaf(alloc, net, class, then)?;
    Ok(entry)
}

/// The bytes of a literal, one behind the other.
fn word(
    alloc: Global,
    net: &mut Vec<Spot>,
    bytes: &[u8],
    then: usize,
) -> Result<Vec<usize>, NoMemory>
    requires { then < length net.old.items }
    ensures { IfOk result (λ entry. IsCompiled (InL (literal bytes.now))
        (then ∷ []) entry.items net.old.items net.new.items) }
{
    let mut spot = then;
    let mut i = bytes.len();
    while i > 0 {
        i -= 1;
        let class = one_byte(alloc, bytes[i])?;
        spot = add_byte(net, class, spot)?;
    }
    let entry = single(alloc, spot)?;
    Ok(entry)
}

/// Where the reading of parts in a row begins.
#[derive(Drop)]
struct Chain {
    /// Each spot where it begins, that behind the row among them if nothing has to be read.
    entry: Vec<usize>,
    /// The same, where what begins at a later part may stand as one spot that jumps to it.
    begin: Vec<usize>,
}

/// A row of no parts.
fn no_parts(alloc: Global, then: usize) -> Result<Chain, NoMemory>
    ensures { (net : List NetSpot) → then < length net
        → IfOk result (λ chain. IsChain empty then
        chain.entry.items chain.begin.items net net) }
{
    let entry = single(alloc, then)?;
    let begin = single(alloc, then)?;
    Ok(Chain { entry, begin })
}

/// One spot in place of a set: a new one jumps to all of them, if they are several.
fn named(net: &mut Vec<Spot>, set: Vec<usize>) -> Result<usize, NoMemory>
    requires some { (p : ℕ) × (has set.items p ≡ true) }
    requires below { Below set.items (length net.old.items) }
    ensures within { IfOk result (λ name. name < length net.new.items) }
    ensures chain { (rest : Syntax) (then : ℕ) (entry : List ℕ) (first : List NetSpot)
        → IsChain rest then entry set.items first net.old.items
        → IfOk result (λ name. IsChain rest then entry (name ∷ []) first net.new.items) }
{
    if set.len() == 1 {
        return Ok(set[0]);
    }
    let name = net.len();
    net.push(Spot::Jump(set))?;
    Ok(name)
}

/// The set with those spots in place of one, if that is in the set.
fn replaced(
    alloc: Global,
    set: &Vec<usize>,
    spot: usize,
    others: Vec<usize>,
) -> Result<Vec<usize>, NoMemory>
    ensures { IfOk result (λ all. (p : ℕ) → has all.items p
        ≡ ((has set.now.items p && not (p == spot))
        || (has set.now.items spot && has others.items p))) }
{
    let mut all = if contains(set, spot) {
        others
    } else {
        Vec::new(alloc)
    };
    join_others(&mut all, set, spot)?;
    Ok(all)
}

/// A part in front of a row.
#[cycle(compile)]
fn prepend(
    alloc: Global,
    net: &mut Vec<Spot>,
    part: &Regex,
    chain: Chain,
) -> Result<Chain, NoMemory>
    requires { Below chain.begin.items (length net.old.items) }
    ensures below { IfOk result (λ all. Below all.begin.items (length net.new.items)) }
    ensures chain { (rest : Syntax) (then : ℕ) (first : List NetSpot)
        → IsChain rest then chain.entry.items chain.begin.items first net.old.items
        → IfOk result (λ all. IsChain (followed part.now rest) then
        all.entry.items all.begin.items first net.new.items) }
{
    if is_empty(&chain.begin) {
        return Ok(chain);
    }
    let name = named(net, chain.begin)?;
    let begin = compile(alloc, net, part, name)?;
    let entry = replaced(alloc, &begin, name, chain.entry)?;
    Ok(Chain { entry, begin })
}

/// Parts that stand one behind the other.
#[cycle(compile)]
fn in_order(
    alloc: Global,
    net: &mut Vec<Spot>,
    parts: &[Regex],
    then: usize,
) -> Result<Vec<usize>, NoMemory>
    requires { then < length net.old.items }
    ensures { IfOk result (λ entry. IsCompiled (InL (sequence parts.now))
        (then ∷ []) entry.items net.old.items net.new.items) }
{
    let mut chain = no_parts(alloc, then)?;
    let mut i = parts.len();
    while i > 0 {
        i -= 1;
        chain = prepend(alloc, net, &parts[i], chain)?;
    }
    Ok(chain.entry)
}

/// One of the parts.
#[cycle(compile)]
fn one_of(
    alloc: Global,
    net: &mut Vec<Spot>,
    parts: &[Regex],
    then: usize,
) -> Result<Vec<usize>, NoMemory>
    requires { then < length net.old.items }
    ensures { IfOk result (λ entry. IsCompiled (InL (alternatives parts.now))
        (then ∷ []) entry.items net.old.items net.new.items) }
{
    let mut entry = Vec::new(alloc);
    for part in parts {
        let more = compile(alloc, net, part, then)?;
        join(&mut entry, &more)?;
    }
    Ok(entry)
}

/// The part so many times.
#[cycle(compile)]
fn times(
    alloc: Global,
    net: &mut Vec<Spot>,
    part: &Regex,
    count: u8,
    chain: Chain,
) -> Result<Vec<usize>, NoMemory>
    requires { Below chain.begin.items (length net.old.items) }
    ensures { (rest : Syntax) (then : ℕ) (first : List NetSpot)
        → IsChain rest then chain.entry.items chain.begin.items first net.old.items
        → IfOk result (λ entry. IsCompiled (InL (copies count part.now rest))
        (then ∷ []) entry.items first net.new.items) }
{
    let mut chain = chain;
    for _ in 0..count {
        chain = prepend(alloc, net, part, chain)?;
    }
    Ok(chain.entry)
}

/// The part at most so many times.
#[cycle(compile)]
fn up_to(
    alloc: Global,
    net: &mut Vec<Spot>,
    part: &Regex,
    count: u8,
    then: usize,
) -> Result<Chain, NoMemory>
    requires { then < length net.old.items }
    ensures { IfOk result (λ chain. IsChain (repeat 0 (Some count) part.now) then
        chain.entry.items chain.begin.items net.old.items net.new.items) }
{
    let mut chain = no_parts(alloc, then)?;
    for _ in 0..count {
        chain = prepend(alloc, net, part, chain)?;
        put(&mut chain.entry, then)?;
        put(&mut chain.begin, then)?;
    }
    Ok(chain)
}

/// Where a round of a repetition leads: to its body, or to what stands behind it.
fn round(
    alloc: Global,
    entry: &Vec<usize>,
    spot: usize,
    then: usize,
) -> Result<Vec<usize>, NoMemory>
    ensures { IfOk result (λ to. (p : ℕ)
        → has to.items p ≡ (has (then ∷ []) p || (has entry.now.items p && not (p == spot)))) }
{
    let mut to = single(alloc, then)?;
    join_others(&mut to, entry, spot)?;
    Ok(to)
}

/// Where a repetition begins: behind it too, if it may be missing or its body has the empty word.
fn begins(
    alloc: Global,
    entry: Vec<usize>,
    to: &Vec<usize>,
    spot: usize,
    may_miss: bool,
) -> Result<Vec<usize>, NoMemory>
    ensures wide { IfOk result (λ set. (may_miss || has entry.items spot) ≡ true
        → set.items ≡ to.now.items) }
    ensures narrow { IfOk result (λ set. (may_miss || has entry.items spot) ≡ false
        → set.items ≡ entry.items) }
{
    if may_miss || contains(&entry, spot) {
        return copy(alloc, to);
    }
    Ok(entry)
}

/// Makes a spot a jump.
fn set_jump(net: &mut Vec<Spot>, spot: usize, to: Vec<usize>)
    requires { spot < length net.old.items }
    ensures { net.new.items ≡ put_at net.old.items spot (Spot.Jump to) }
{
    net[spot] = Spot::Jump(to);
}

/// The part once or more or, if `may_miss`, any number of times.
#[cycle(compile)]
fn many(
    alloc: Global,
    net: &mut Vec<Spot>,
    part: &Regex,
    may_miss: bool,
    then: usize,
) -> Result<Vec<usize>, NoMemory>
    requires { then < length net.old.items }
    ensures { IfOk result (λ entry. IsCompiled (Many may_miss (InL part.now))
        (then ∷ []) entry.items net.old.items net.new.items) }
{
    let rounds = rounds_of(part, may_miss);
    let spot = net.len();
    net.push(Spot::Nothing)?;
    let entry = compile(alloc, net, rounds.part, spot)?;
    let to = round(alloc, &entry, spot, then)?;
    let begin = begins(alloc, entry, &to, spot, rounds.may_miss)?;
    set_jump(net, spot, to);
    Ok(begin)
}

/// The part as often as two bounds allow.
#[cycle(compile)]
fn bounded(
    alloc: Global,
    net: &mut Vec<Spot>,
    part: &Regex,
    least: u8,
    most: u8,
    then: usize,
) -> Result<Vec<usize>, NoMemory>
    requires { then < length net.old.items }
    ensures { IfOk result (λ entry. IsCompiled (InL (repeat least (Some most) part.now))
        (then ∷ []) entry.items net.old.items net.new.items) }
{
    if most < least {
        return Ok(Vec::new(alloc));
    }
    let rest = up_to(alloc, net, part, most - least, then)?;
    let entry = times(alloc, net, part, least, rest)?;
    Ok(entry)
}

/// The part so many times or more.
#[cycle(compile)]
fn unbounded(
    alloc: Global,
    net: &mut Vec<Spot>,
    part: &Regex,
    least: u8,
    then: usize,
) -> Result<Vec<usize>, NoMemory>
    requires { then < length net.old.items }
    ensures { IfOk result (λ entry. IsCompiled (InL (repeat least None part.now))
        (then ∷ []) entry.items net.old.items net.new.items) }
{
    let entry = many(alloc, net, part, least == 0, then)?;
    let begin = copy(alloc, &entry)?;
    let all = times(
        alloc,
        net,
        part,
        least.saturating_sub(1),
        Chain { entry, begin },
    )?;
    Ok(all)
}

/// A part that has no word but the empty one, as often as the bounds allow: no copy of it adds anything.
fn of_no_bytes(
    alloc: Global,
    part: &Regex,
    count: Count,
    then: usize,
) -> Result<Vec<usize>, NoMemory>
    requires { positions_of part.now ≡ 0 }
    ensures { IfOk result (λ entry. (net : List NetSpot) → then < length net
        → IsCompiled (InL (repeat count.least count.most part.now))
        (then ∷ []) entry.items net net) }
{
    if repetition_has(part, count) {
        let entry = single(alloc, then)?;
        Ok(entry)
    } else {
        Ok(Vec::new(alloc))
    }
}

/// The part as often as the bounds allow.
#[cycle(compile)]
fn repeated(
    alloc: Global,
    net: &mut Vec<Spot>,
    part: &Regex,
    count: Count,
    then: usize,
) -> Result<Vec<usize>, NoMemory>
    requires { then < length net.old.items }
    ensures { IfOk result (λ entry. IsCompiled (InL (repeat count.least count.most part.now))
        (then ∷ []) entry.items net.old.items net.new.items) }
{
    if part.positions() == 0 {
        return of_no_bytes(alloc, part, count, then);
    }
    match count.most {
        Some(most) => bounded(alloc, net, part, count.least, most, then),
        None => unbounded(alloc, net, part, count.least, then),
    }
}

/// Adds the spots of a regular expression. Behind it stands the spot `then`; the answer is the set of spots where
/// it begins.
#[cycle(compile)]
pub fn compile(
    alloc: Global,
    net: &mut Vec<Spot>,
    regex: &Regex,
    then: usize,
) -> Result<Vec<usize>, NoMemory>
    requires { then < length net.old.items }
    ensures { IfOk result (λ entry. IsCompiled (InL regex.now)
        (then ∷ []) entry.items net.old.items net.new.items) }
{
    match regex.shape() {
        Shape::Byte(byte) => byte_part(alloc, net, byte, then),
        Shape::Any => any_part(alloc, net, then),
        Shape::Class(negated, ranges) => class_part(alloc, net, negated, ranges, then),
        Shape::Sequence(parts) => in_order(alloc, net, parts, then),
        Shape::Alternatives(parts) => one_of(alloc, net, parts, then),
        Shape::Repeat(part, count) => repeated(alloc, net, part, count, then),
        Shape::Literal(bytes) => word(alloc, net, bytes, then),
    }
}
