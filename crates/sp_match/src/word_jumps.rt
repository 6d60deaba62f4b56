// The jumps of an automaton, by the words of a set: what each spot of a word jumps to, with all spots of one word as
// its bits. A set is closed in one pass over them.
ghost use Rattle.std.specs.Prelude.{◌≡◌, ℕ, ◌+◌, ◌*◌, ◌/◌, ◌<◌, ◌≤◌, ◌==◌, ◌||◌, ◌&&◌, [], true, false, length, IfOk, OnOk};
ghost use Rattle.std.specs.Int.{bit_at};
ghost use Rattle.sp_match.specs.Sets.{has};
ghost use Rattle.sp_match.specs.Nets.{at, jumps as jumps_to};
ghost use Rattle.sp_match.specs.Jumps.{bit_of, lead, in_word, IsRising, AreWordJumps, AreJumps};

use crate::bits::with;
use crate::spot::Spot;
use sp_base::NoMemory;
use std::alloc::Global;

/// What the spot of one place in a word jumps to, as far as it is in one other word.
#[derive(Clone, Copy)]
pub struct WordJump {
    /// The place of the spot in its word.
    pub bit: u32,
    /// The word of those to which it jumps.
    pub word: u32,
    /// Their places in that word, as bits.
    pub spots: u64,
}

/// Adds a place to the last of the jumps, if that is from the same spot and to the same word.
fn widen(jumps: &mut Vec<WordJump>, bit: u32, word: u32, place: usize) -> bool
    requires { place < 64 }
    ensures added { result ≡ true → (b q : ℕ) → lead jumps.new.items b q
        ≡ (lead jumps.old.items b q || (in_word q word place && (b == bit))) }
    ensures same { result ≡ false → jumps.new.items ≡ jumps.old.items }
    ensures bits { (j : ℕ) → bit_of jumps.new.items j ≡ bit_of jumps.old.items j }
    ensures len { length jumps.new.items ≡ length jumps.old.items }
{
    let count = jumps.len();
    if count == 0 {
        return false;
    }
    let last = jumps[count - 1];
    if last.bit != bit || last.word != word {
        return false;
    }
    let spots = with(last.spots, place);
    jumps[count - 1] = WordJump { bit, word, spots };
    true
}

/// Adds a spot to which the spot of a place jumps, behind those of the earlier places.
fn add_target(jumps: &mut Vec<WordJump>, bit: u32, spot: usize) -> Result<(), NoMemory>
    ensures lead { OnOk result ((b q : ℕ) → lead jumps.new.items b q
        ≡ (lead jumps.old.items b q || ((q == spot) && (b == bit)))) }
    ensures rising { IsRising jumps.old.items bit → OnOk result (IsRising jumps.new.items bit) }
{
    let word = u32::try_from(spot / 64).map_err(|_| NoMemory)?;
    if widen(jumps, bit, word, spot % 64) {
        return Ok(());
    }
    let spots = with(0, spot % 64);
    jumps.push(WordJump { bit, word, spots })?;
    Ok(())
}

/// Adds all spots to which the spot of a place jumps.
fn add_targets(jumps: &mut Vec<WordJump>, bit: u32, to: &[usize]) -> Result<(), NoMemory>
    ensures lead { OnOk result ((b q : ℕ) → lead jumps.new.items b q
        ≡ (lead jumps.old.items b q || (has to.now q && (b == bit)))) }
    ensures rising { IsRising jumps.old.items bit → OnOk result (IsRising jumps.new.items bit) }
{
    for i in 0..to.len() {
        add_target(jumps, bit, to[i])?;
    }
    Ok(())
}

/// Adds what a spot of a place jumps to.
fn add_spot(jumps: &mut Vec<WordJump>, bit: u32, spot: &Spot) -> Result<(), NoMemory>
    ensures lead { OnOk result ((b q : ℕ) → lead jumps.new.items b q
        ≡ (lead jumps.old.items b q || (jumps_to spot.now q && (b == bit)))) }
    ensures rising { IsRising jumps.old.items bit → OnOk result (IsRising jumps.new.items bit) }
{
    match spot {
        Spot::Jump(to) => add_targets(jumps, bit, to),
        Spot::Byte { .. } | Spot::Goal { .. } | Spot::Nothing => Ok(()),
    }
}

/// Adds what the spot of a place in a word jumps to, if there is such a spot.
fn add_place(jumps: &mut Vec<WordJump>, net: &[Spot], word: usize, bit: u32) -> Result<(), NoMemory>
    requires word { word * 64 ≤ length net.now }
    requires bit { bit < 64 }
    ensures lead { OnOk result ((b q : ℕ) → lead jumps.new.items b q
        ≡ (lead jumps.old.items b q || (jumps_to (at net.now (word * 64 + bit)) q && (b == bit)))) }
    ensures rising { IsRising jumps.old.items bit → OnOk result (IsRising jumps.new.items bit) }
{
    let spot = word * 64 + bit as usize;
    if spot < net.len() {
        add_spot(jumps, bit, &net[spot])?;
    }
    Ok(())
}

/// The jumps of the spots of one word.
fn jumps_of_word(alloc: Global, net: &[Spot], word: usize) -> Result<Vec<WordJump>, NoMemory>
    requires { word * 64 ≤ length net.now }
    ensures { IfOk result (λ jumps. AreWordJumps net.now word jumps.items) }
{
    let mut jumps = Vec::new(alloc);
    for bit in 0..64u32 {
        add_place(&mut jumps, net, word, bit)?;
    }
    Ok(jumps)
}

/// The jumps of each word.
pub fn all_jumps(alloc: Global, net: &[Spot]) -> Result<Vec<Vec<WordJump>>, NoMemory>
    ensures { IfOk result (λ all. AreJumps net.now all.items) }
{
    let mut all = Vec::new(alloc);
    for word in 0..net.len() / 64 + 1 {
        let jumps = jumps_of_word(alloc, net, word)?;
        all.push(jumps)?;
    }
    Ok(all)
}
