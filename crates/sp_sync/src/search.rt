// A search, byte by byte.
ghost use Rattle.std.specs.Prelude.{◌≡◌, ◌+◌, ◌^◌, ◌++◌, ◌∷◌, ◌<◌, ◌≤◌, ℕ, Bool, List, [], length, drop, true, false, IfOk};
ghost use Rattle.sp_regex.specs.Trees.{Syntax};
ghost use Rattle.sp_match.specs.Sizes.{IsSetOf};
ghost use Rattle.sp_sync.specs.Places.{Fails, IsByteAt, IsLeastUndecided};
ghost use Rattle.sp_sync.specs.Told.{start_of, wants_of, found_of, HasTold, HasGiven, IsStep, IsEnd, IsAnswer};

use crate::attempt::Attempt;
use crate::found::Found;
use crate::outcome::Outcome;
use sp_base::NoMemory;
use sp_match::TokenSet;
use std::alloc::Global;

/// Looks for the least place of a view at which a token of a set begins, by bytes that it asks for one by one. It
/// keeps no bytes: where a place has failed, it asks for those behind that place again. All room is made at the
/// start.
///
/// Each place is asked in its turn, by the bytes from there on until they tell whether a token begins. So a byte is
/// asked for no more often than a token's longest word, or what may still become a word, is long. Where that has no
/// bound, as for `[a-z]+:`, n bytes that all may begin a word are asked for up to n times each.
#[derive(Drop)]
pub struct Search<'s> {
    attempt: Attempt<'s>,
    found: Found,
}

impl<'s> Search<'s> {
    /// A search from this place on, which is at most 2^62.
    pub fn new(alloc: Global, set: &'s TokenSet, from: u64) -> Result<Search<'s>, NoMemory>
        requires { from ≤ 2 ^ 62 }
        ensures start { IfOk result (λ search. start_of search ≡ from) }
        ensures wants { IfOk result (λ search. wants_of search ≡ from) }
        ensures found { IfOk result (λ search. found_of search ≡ Found.Need) }
        ensures told { (tokens : List Syntax) → IsSetOf set.now tokens
            → IfOk result (λ search. (d : List ℕ) (ended : Bool)
            → HasTold search tokens from d ended) }
    {
        let attempt = Attempt::new(alloc, set, from)?;
        Ok(Search {
            attempt,
            found: Found::Need,
        })
    }

    /// The least place that is undecided; the place that was found, once it is; the end of the view, where no token
    /// begins. It takes no memory.
    pub fn start(&self) -> u64
        ensures start { result ≡ start_of self.now }
        ensures failed { (tokens : List Syntax) (from : ℕ) (d : List ℕ) (ended : Bool)
            → HasTold self.now tokens from d ended
            → (j : ℕ) → from + j < result → Fails tokens (drop j d) ended }
        ensures least { (tokens : List Syntax) (from : ℕ) (d : List ℕ)
            → HasTold self.now tokens from d false → found_of self.now ≡ Found.Need
            → wants_of self.now ≡ from + length d → IsLeastUndecided tokens from d result }
    {
        self.attempt.start
    }

    /// The place of the byte that is needed next. It goes back to the next start where a start has failed. It takes
    /// no memory.
    pub fn wants(&self) -> u64
        ensures wants { result ≡ wants_of self.now }
        ensures from_start { start_of self.now ≤ result }
        ensures within { (tokens : List Syntax) (from : ℕ) (d : List ℕ) (ended : Bool)
            → HasTold self.now tokens from d ended → result ≤ from + length d }
    {
        self.attempt.wants
    }

    /// Gives the byte that is needed, where there is no answer yet. Its place is below 2^62. It takes no memory.
    pub fn give(&mut self, byte: u8)
        requires open { found_of self.old ≡ Found.Need }
        requires near { wants_of self.old < 2 ^ 62 }
        ensures told { (tokens : List Syntax) (from : ℕ) (d : List ℕ) (ended : Bool)
            → HasTold self.old tokens from d ended → IsByteAt from d (wants_of self.old) byte
            → HasTold self.new tokens from d ended }
        ensures step { (tokens : List Syntax) (w : List ℕ) → HasGiven self.old tokens w
            → IsStep tokens (w ++ byte ∷ []) (start_of self.old) (wants_of self.old)
            (start_of self.new) (wants_of self.new) (found_of self.new) }
    {
        self.attempt.give(byte);
        match self.attempt.outcome() {
            Outcome::Begins => self.found = Found::At(self.attempt.start),
            Outcome::Waits => {}
            Outcome::Fails => self.attempt.fail(),
        }
    }

    /// Tells, where there is no answer yet, that the view ends at the place of the byte that is needed: the present
    /// start fails. It takes no memory.
    pub fn end(&mut self)
        requires open { found_of self.old ≡ Found.Need }
        ensures told { (tokens : List Syntax) (from : ℕ) (d : List ℕ)
            → HasTold self.old tokens from d true → wants_of self.old ≡ from + length d
            → HasTold self.new tokens from d true }
        ensures step { IsEnd (start_of self.old) (wants_of self.old) (start_of self.new)
            (wants_of self.new) (found_of self.new) }
    {
        if self.attempt.start < self.attempt.wants {
            self.attempt.fail();
        } else {
            self.found = Found::Nowhere;
        }
    }

    /// What is found: `Need` exactly where a byte or the end must still be told. It takes no memory.
    pub fn found(&self) -> Found
        ensures found { result ≡ found_of self.now }
        ensures place { (tokens : List Syntax) (from : ℕ) (d : List ℕ) (ended : Bool)
            → HasTold self.now tokens from d ended
            → IsAnswer tokens from d ended (wants_of self.now) result }
    {
        self.found
    }
}
