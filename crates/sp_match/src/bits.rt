// Sets of spots by bits: the spot p is the bit p % 64 of the word p / 64. Those behind the end are in no set.
ghost use Rattle.std.specs.Prelude.{◌≡◌, ◌≢◌, ℕ, ◌*◌, ◌/◌, ◌%◌, ◌<◌, ◌≤◌, ◌==◌, ◌||◌, ◌&&◌, true, false, length, IfOk};
ghost use Rattle.std.proofs.Common.{get_or};
ghost use Rattle.std.specs.Int.{bit_at};
ghost use Rattle.sp_match.specs.Bits.{holds};

use sp_base::NoMemory;
use std::alloc::Global;

/// The set of no spot, in so many words.
#[tactic(auto, using(crate::proofs::Words::none_held))]
pub fn none(alloc: Global, words: usize) -> Result<Vec<u64>, NoMemory>
    ensures none { IfOk result (λ set. (p : ℕ) → holds set.items p ≡ false) }
    ensures len { IfOk result (λ set. length set.items ≡ words) }
{
    let mut set = Vec::with_capacity(alloc, words)?;
    for _ in 0..words {
        set.push(0)?;
    }
    Ok(set)
}

/// The word of this number; behind the end all are 0.
pub fn word_of(set: &Vec<u64>, number: usize) -> u64
    ensures { result ≡ get_or set.now.items number 0 }
{
    if number < set.len() { set[number] } else { 0 }
}

/// The word with a bit.
pub fn with(word: u64, bit: usize) -> u64
    requires { bit < 64 }
    ensures set { bit_at result bit ≡ 1 }
    ensures others { (i : ℕ) → i ≢ bit → bit_at result i ≡ bit_at word i }
{
    word | 1 << bit
}

/// The word without a bit.
pub fn without(word: u64, bit: u32) -> u64
    requires within { bit < 64 }
    requires set { bit_at word bit ≡ 1 }
    ensures less { result < word }
    ensures cleared { bit_at result bit ≡ 0 }
    ensures others { (i : ℕ) → i < 64 → i ≢ bit → bit_at result i ≡ bit_at word i }
{
    word & !(1 << bit)
}

/// The lowest bit of a word that is not 0.
#[tactic(auto, using(crate::proofs::Words::low_bit))]
pub fn lowest(word: u64) -> u32
    requires { 0 < word }
    ensures set { bit_at word result ≡ 1 }
    ensures within { result < 64 }
{
    word.trailing_zeros()
}

/// Adds a spot, if it is to be.
pub fn put_if(set: &mut Vec<u64>, spot: usize, is_in: bool)
    ensures spots { spot < 64 * length set.old.items → (p : ℕ)
        → holds set.new.items p ≡ (holds set.old.items p || (is_in && (p == spot))) }
    ensures len { length set.new.items ≡ length set.old.items }
{
    let word = spot / 64;
    if is_in && word < set.len() {
        set[word] = with(set[word], spot % 64);
    }
}

/// Whether a word has a bit.
#[tactic(auto, using(std::proofs::lemmas::Nat::Bits::shr_and_one))]
pub fn has_bit(word: u64, bit: u32) -> bool
    requires { bit < 64 }
    ensures { result ≡ (bit_at word bit == 1) }
{
    (word >> bit) & 1 == 1
}

/// Whether a spot is in the set.
pub fn contains(set: &Vec<u64>, spot: usize) -> bool
    ensures { result ≡ holds set.now.items spot }
{
    has_bit(word_of(set, spot / 64), (spot % 64) as u32)
}

/// Adds spots of one word.
pub fn merge_word(set: &mut Vec<u64>, word: usize, spots: u64)
    ensures spots { word < length set.old.items → (p : ℕ) → holds set.new.items p
        ≡ (holds set.old.items p || ((p / 64 == word) && (bit_at spots (p % 64) == 1))) }
    ensures past { length set.old.items ≤ word → set.new.items ≡ set.old.items }
    ensures len { length set.new.items ≡ length set.old.items }
{
    if word < set.len() {
        set[word] = set[word] | spots;
    }
}

/// Empties a set.
#[tactic(auto, using(crate::proofs::Words::none_held))]
pub fn clear(set: &mut Vec<u64>)
    ensures none { (p : ℕ) → holds set.new.items p ≡ false }
    ensures len { length set.new.items ≡ length set.old.items }
{
    for i in 0..set.len() {
        set[i] = 0;
    }
}

/// Adds the spots of another set, which has no more words.
#[tactic(auto, using(crate::proofs::Words::merged_within))]
pub fn merge(set: &mut Vec<u64>, more: &Vec<u64>)
    ensures spots { length more.now.items ≤ length set.old.items → (p : ℕ)
        → holds set.new.items p ≡ (holds set.old.items p || holds more.now.items p) }
    ensures len { length set.new.items ≡ length set.old.items }
{
    for i in 0..set.len() {
        set[i] = set[i] | word_of(more, i);
    }
}

/// Makes a set the same as another, which has no more words.
pub fn assign(set: &mut Vec<u64>, other: &Vec<u64>)
    ensures spots { length other.now.items ≤ length set.old.items → (p : ℕ)
        → holds set.new.items p ≡ holds other.now.items p }
    ensures len { length set.new.items ≡ length set.old.items }
{
    clear(set);
    merge(set, other);
}

/// Whether some spot is in both sets.
pub fn meets(set: &Vec<u64>, other: &Vec<u64>) -> bool
    ensures some { result ≡ true → (p : ℕ) × (holds set.now.items p ≡ true)
        × (holds other.now.items p ≡ true) }
    ensures none { result ≡ false → (p : ℕ) → holds set.now.items p ≡ true
        → holds other.now.items p ≡ false }
{
    for i in 0..set.len() {
        let common = set[i] & word_of(other, i);
        if common > 0 {
            return true;
        }
    }
    false
}

/// How many spots are in the set.
pub fn count(set: &Vec<u64>) -> usize {
    let mut sum: usize = 0;
    for word in set {
        sum = sum.saturating_add(word.count_ones() as usize);
    }
    sum
}
