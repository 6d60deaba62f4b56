// The jumps of an automaton.
ghost use Rattle.std.specs.Prelude.{◌≡◌, ◌<◌, ◌≤◌, ◌*◌, ◌+◌, ◌==◌, ◌&&◌, ◌||◌, ℕ, Bool, List, true, length};
ghost use Rattle.std.proofs.Common.{get_or};
ghost use Rattle.std.specs.Int.{bit_at};
ghost use Rattle.sp_match.specs.declared.spot.Spot.{Spot};
ghost use Rattle.sp_match.specs.Bits.{holds};
ghost use Rattle.sp_match.specs.Sets.{has};
ghost use Rattle.sp_match.specs.Nets.{Orderly};
ghost use Rattle.sp_match.specs.Jumps.{is_target, AreWordJumps, AreJumps};
ghost use Rattle.sp_match.specs.Running.{IsClosed, Closing};

use crate::bits::{has_bit, merge_word, put_if, word_of};
use crate::word_jumps::WordJump;

/// Adds all spots of a list.
pub fn add_all(set: &mut Vec<u64>, spots: &[usize])
    ensures spots { ((q : ℕ) → has spots.now q ≡ true → q < 64 * length set.old.items)
        → (q : ℕ) → holds set.new.items q ≡ (holds set.old.items q || has spots.now q) }
    ensures len { length set.new.items ≡ length set.old.items }
{
    for i in 0..spots.len() {
        put_if(set, spots[i], true);
    }
}

/// Adds what a spot of this word jumps to, if it is in the set.
fn follow(set: &mut Vec<u64>, word: usize, jump: &WordJump)
    ensures spots { jump.now.bit < 64 → ((q : ℕ) → is_target jump.now q ≡ true
        → q < 64 * length set.old.items)
        → (q : ℕ) → holds set.new.items q ≡ (holds set.old.items q
        || ((bit_at (get_or set.old.items word 0) (jump.now.bit) == 1) && is_target jump.now q)) }
    ensures len { length set.new.items ≡ length set.old.items }
{
    if has_bit(word_of(set, word), jump.bit % 64) {
        merge_word(set, jump.word as usize, jump.spots);
    }
}

/// Adds what the spots of a word jump to.
fn close_word(jumps: &Vec<WordJump>, set: &mut Vec<u64>, word: usize)
    ensures closing { (net : List Spot) (initial : ℕ → Bool) → Orderly net
        → length net < 64 * length set.old.items → AreWordJumps net word jumps.now.items
        → Closing net initial (holds set.old.items) ((word + 1) * 64)
        → Closing net initial (holds set.new.items) (word * 64) }
    ensures len { length set.new.items ≡ length set.old.items }
{
    let mut i = jumps.len();
    while i > 0 {
        i -= 1;
        follow(set, word, &jumps[i]);
    }
}

/// Adds all spots that are jumped to. A jump leads to no later jump, so one pass from the last spot is enough.
pub fn close(jumps: &Vec<Vec<WordJump>>, set: &mut Vec<u64>)
    ensures closed { (net : List Spot) → Orderly net → length net < 64 * length set.old.items
        → AreJumps net jumps.now.items
        → IsClosed net (holds set.old.items) (holds set.new.items) }
    ensures len { length set.new.items ≡ length set.old.items }
{
    let mut word = set.len();
    while word > 0 {
        word -= 1;
        if word < jumps.len() && set[word] > 0 {
            close_word(&jumps[word], set, word);
        }
    }
}
