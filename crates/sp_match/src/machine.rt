// The automaton by bits: what it reads by a class of bytes, and where it is then. A step costs a look at each word of
// a set, at each live spot that reads the byte, and at each jump of a word in which a spot is live.
ghost use Rattle.std.specs.Prelude.{◌≡◌, ℕ, ◌+◌, ◌*◌, ◌<◌, ◌≤◌, ◌==◌, ◌||◌, List, length, true, false, IfOk, OnOk};
ghost use Rattle.std.proofs.Common.{get_or};
ghost use Rattle.std.specs.Int.{bit_at};
ghost use Rattle.sp_match.specs.declared.spot.Spot.{Spot as NetSpot};
ghost use Rattle.sp_match.specs.Sets.{has};
ghost use Rattle.sp_match.specs.Parts.{Below};
ghost use Rattle.sp_match.specs.Bits.{holds, row, led, LeadsWithin, IsStep, IsStepTo, IsWordStep};
ghost use Rattle.sp_match.specs.Nets.{at, is_byte, Orderly};
ghost use Rattle.sp_match.specs.Running.{is_ahead, IsClosed, IsNext};
ghost use Rattle.sp_match.specs.Tables.{reads_byte as byte_is_read, AreReaders, next_of, AreNexts, AreGoals, IsMachineOf, goal_found, preferred, best_of};

use crate::bits::{clear, contains, lowest, meets, none, put_if, without, word_of};
use crate::byte_classes::{ByteClasses, byte_classes, reads_byte};
use crate::run::{add_all, close};
use crate::spot::Spot;
use crate::word_jumps::{WordJump, all_jumps};
use sp_base::NoMemory;
use std::alloc::Global;

/// The spot where a member has ended, its number, and whether it is a literal.
#[derive(Clone, Copy)]
pub struct Goal {
    pub spot: usize,
    pub token: u32,
    pub literal: bool,
}

/// An automaton as it runs.
#[derive(Drop)]
pub struct Machine {
    /// The words of a set.
    pub(crate) words: usize,
    pub(crate) classes: ByteClasses,
    /// For each class the spots that read a byte of it.
    pub(crate) readers: Vec<Vec<u64>>,
    /// The spots that read a byte.
    pub(crate) bytes: Vec<u64>,
    /// For each spot the one to which it leads by a byte.
    pub(crate) nexts: Vec<u32>,
    /// For each word the jumps of its spots.
    pub(crate) jumps: Vec<Vec<WordJump>>,
    pub(crate) goals: Vec<Goal>,
}

/// The spots that read a byte.
fn readers_of(alloc: Global, net: &[Spot], byte: u8, words: usize) -> Result<Vec<u64>, NoMemory>
    requires { length net.now ≤ 64 * words }
    ensures { IfOk result (λ set. (p : ℕ) → holds set.items p ≡ byte_is_read (at net.now p) byte) }
{
    let mut set = none(alloc, words)?;
    for i in 0..net.len() {
        put_if(&mut set, i, reads_byte(&net[i], byte));
    }
    Ok(set)
}

/// For each class the spots that read its first byte.
fn all_readers(
    alloc: Global,
    net: &[Spot],
    firsts: &Vec<u8>,
    words: usize,
) -> Result<Vec<Vec<u64>>, NoMemory>
    requires { length net.now ≤ 64 * words }
    ensures { IfOk result (λ all. AreReaders net.now firsts.now.items all.items) }
{
    let mut all = Vec::new(alloc);
    for i in 0..firsts.len() {
        let set = readers_of(alloc, net, firsts[i], words)?;
        all.push(set)?;
    }
    Ok(all)
}

/// Whether a spot reads some byte.
fn is_reader(spot: &Spot) -> bool
    ensures { result ≡ is_byte spot.now }
{
    matches!(spot, Spot::Byte { .. })
}

/// The spots that read some byte.
fn byte_spots(alloc: Global, net: &[Spot], words: usize) -> Result<Vec<u64>, NoMemory>
    requires { length net.now ≤ 64 * words }
    ensures { IfOk result (λ set. (p : ℕ) → holds set.items p ≡ is_byte (at net.now p)) }
{
    let mut set = none(alloc, words)?;
    for i in 0..net.len() {
        put_if(&mut set, i, is_reader(&net[i]));
    }
    Ok(set)
}

/// The spot to which a spot of an automaton of so many spots leads by a byte; 0 where there is none.
fn next_spot(spot: &Spot, spots: u32) -> u32
    ensures next { next_of spot.now < spots → result ≡ next_of spot.now }
    ensures within { result ≤ spots }
{
    match spot {
        Spot::Byte { next, .. } => {
            if *next < spots as usize {
                *next as u32
            } else {
                0
            }
        }
        _ => 0,
    }
}

/// For each spot the one to which it leads by a byte.
fn all_nexts(alloc: Global, net: &[Spot]) -> Result<Vec<u32>, NoMemory>
    ensures nexts { IfOk result (λ nexts. AreNexts net.now nexts.items) }
    ensures within { IfOk result (λ nexts. (p : ℕ) → led nexts.items p ≤ length net.now) }
{
    let spots = u32::try_from(net.len()).map_err(|_| NoMemory)?;
    let mut nexts = Vec::with_capacity(alloc, net.len())?;
    for i in 0..net.len() {
        nexts.push(next_spot(&net[i], spots))?;
    }
    Ok(nexts)
}

/// The goal at a spot, if there is one.
fn goal_of(spot: &Spot, number: usize) -> Option<Goal>
    ensures { result ≡ goal_found spot.now number }
{
    match spot {
        Spot::Goal { token, literal } => Some(Goal {
            spot: number,
            token: *token,
            literal: *literal,
        }),
        _ => None,
    }
}

/// Puts the goal at a spot behind the others, if there is one.
fn add_goal(goals: &mut Vec<Goal>, spot: &Spot, number: usize) -> Result<(), NoMemory>
    ensures { (net : List NetSpot) → at net number ≡ spot.now
        → AreGoals net goals.old.items number
        → OnOk result (AreGoals net goals.new.items (number + 1)) }
{
    match goal_of(spot, number) {
        Some(goal) => Ok(goals.push(goal)?),
        None => Ok(()),
    }
}

/// All goals.
fn all_goals(alloc: Global, net: &[Spot]) -> Result<Vec<Goal>, NoMemory>
    ensures { IfOk result (λ goals. AreGoals net.now goals.items (length net.now)) }
{
    let mut goals = Vec::new(alloc);
    for i in 0..net.len() {
        add_goal(&mut goals, &net[i], i)?;
    }
    Ok(goals)
}

/// The spot to which one leads; behind the end it is 0.
fn next_at(nexts: &Vec<u32>, spot: usize) -> usize
    ensures { result ≡ led nexts.now.items spot }
{
    if spot < nexts.len() {
        nexts[spot] as usize
    } else {
        0
    }
}

/// Adds the spot to which one leads.
fn step_spot(nexts: &Vec<u32>, word: usize, bit: u32, next: &mut Vec<u64>)
    requires { bit < 64 }
    ensures spots { LeadsWithin nexts.now.items (length next.old.items) → (q : ℕ)
        → holds next.new.items q
        ≡ (holds next.old.items q || (q == led nexts.now.items (word * 64 + bit))) }
    ensures len { length next.new.items ≡ length next.old.items }
{
    if word <= nexts.len() / 64 {
        let to = next_at(nexts, word * 64 + bit as usize);
        put_if(next, to, true);
    } else {
        put_if(next, 0, true);
    }
}

/// Adds the spots to which those of one word lead.
fn step_word(nexts: &Vec<u32>, word: usize, spots: u64, next: &mut Vec<u64>)
    ensures step { LeadsWithin nexts.now.items (length next.old.items)
        → IsWordStep nexts.now.items word spots (holds next.old.items) (holds next.new.items) }
    ensures len { length next.new.items ≡ length next.old.items }
{
    let mut rest = spots;
    while rest != 0 {
        let bit = lowest(rest);
        step_spot(nexts, word, bit, next);
        rest = without(rest, bit);
    }
}

/// The spots to which the live ones lead that read the byte.
fn step_by(live: &Vec<u64>, readers: &Vec<u64>, nexts: &Vec<u32>, next: &mut Vec<u64>)
    ensures step { LeadsWithin nexts.now.items (length next.old.items)
        → IsStep (holds live.now.items) (holds readers.now.items) nexts.now.items
        (holds next.new.items) }
    ensures len { length next.new.items ≡ length next.old.items }
{
    clear(next);
    for i in 0..live.len() {
        step_word(nexts, i, live[i] & word_of(readers, i), next);
    }
}

/// Whether a goal of this kind and number is taken before the other.
fn goes_first(literal: bool, token: u32, other_literal: bool, other: u32) -> bool
    ensures { result ≡ is_ahead literal token other_literal other }
{
    if literal == other_literal {
        token <= other
    } else {
        literal
    }
}

/// The better of the best goal so far and this one, if it is live.
fn prefer(goal: Goal, live: bool, best: Option<(u32, bool)>) -> Option<(u32, bool)>
    ensures { result ≡ preferred goal live best }
{
    if !live {
        return best;
    }
    match best {
        Some((token, literal)) => {
            if goes_first(literal, token, goal.literal, goal.token) {
                best
            } else {
                Some((goal.token, goal.literal))
            }
        }
        None => Some((goal.token, goal.literal)),
    }
}

/// The best live goal: the number of its member, and whether that is a literal.
fn best_goal(goals: &Vec<Goal>, live: &Vec<u64>) -> Option<(u32, bool)>
    ensures { result ≡ best_of goals.now.items (holds live.now.items) (length goals.now.items) }
{
    let mut best: Option<(u32, bool)> = None;
    for i in 0..goals.len() {
        best = prefer(goals[i], contains(live, goals[i].spot), best);
    }
    best
}

impl Machine {
    /// The machine of an automaton.
    pub fn of_net(alloc: Global, net: &[Spot]) -> Result<Machine, NoMemory>
        ensures { IfOk result (λ m. Orderly net.now → IsMachineOf net.now m) }
    {
        let words = net.len() / 64 + 1;
        let classes = byte_classes(alloc, net)?;
        let readers = all_readers(alloc, net, &classes.firsts, words)?;
        let bytes = byte_spots(alloc, net, words)?;
        let jumps = all_jumps(alloc, net)?;
        let nexts = all_nexts(alloc, net)?;
        let goals = all_goals(alloc, net)?;
        Ok(Machine {
            words,
            classes,
            readers,
            bytes,
            nexts,
            jumps,
            goals,
        })
    }

    /// The set of these spots, and of all to which they jump.
    pub fn start(&self, alloc: Global, spots: &[usize]) -> Result<Vec<u64>, NoMemory>
        ensures closed { (net : List NetSpot) → IsMachineOf net self.now
            → Below spots.now (length net)
            → IfOk result (λ set. IsClosed net (has spots.now) (holds set.items)) }
        ensures len { IfOk result (λ set. length set.items ≡ self.now.words) }
    {
        let mut set = none(alloc, self.words)?;
        add_all(&mut set, spots);
        close(&self.jumps, &mut set);
        Ok(set)
    }

    /// The class of a byte.
    pub fn class(&self, byte: u8) -> u8
        ensures { result ≡ get_or self.now.classes.of.items byte 0 }
    {
        let byte = usize::from(byte);
        if byte < self.classes.of.len() {
            self.classes.of[byte]
        } else {
            0
        }
    }

    /// The spots to which the live ones lead by a byte of the class.
    fn step_class(&self, live: &Vec<u64>, class: usize, next: &mut Vec<u64>)
        ensures step { LeadsWithin self.now.nexts.items (length next.old.items)
            → IsStep (holds live.now.items) (holds (row self.now.readers.items class))
            self.now.nexts.items (holds next.new.items) }
        ensures len { length next.new.items ≡ length next.old.items }
    {
        if class < self.readers.len() {
            step_by(live, &self.readers[class], &self.nexts, next);
        } else {
            clear(next);
        }
    }

    /// The spots to which the live ones lead by a byte of the class, and all to which these jump.
    pub fn step(&self, live: &Vec<u64>, class: usize, next: &mut Vec<u64>)
        ensures step { (net : List NetSpot) (b : ℕ) → IsMachineOf net self.now
            → length next.old.items ≡ self.now.words → b < 256
            → class ≡ get_or self.now.classes.of.items b 0
            → IsNext net (holds live.now.items) (holds next.new.items) b }
        ensures len { length next.new.items ≡ length next.old.items }
    {
        self.step_class(live, class, next);
        close(&self.jumps, next);
    }

    /// The best live goal: the number of its member, and whether that is a literal.
    pub fn winner(&self, live: &Vec<u64>) -> Option<(u32, bool)>
        ensures { result ≡ best_of self.now.goals.items (holds live.now.items)
            (length self.now.goals.items) }
    {
        best_goal(&self.goals, live)
    }

    /// Whether a live spot reads a byte.
    pub fn reads_on(&self, live: &Vec<u64>) -> bool
        ensures some { result ≡ true → (p : ℕ) × (holds live.now.items p ≡ true)
            × (holds self.now.bytes.items p ≡ true) }
        ensures none { result ≡ false → (p : ℕ) → holds live.now.items p ≡ true
            → holds self.now.bytes.items p ≡ false }
    {
        meets(live, &self.bytes)
    }
}
