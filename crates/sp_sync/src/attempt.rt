// The present start of a search, and the bytes from there on.
ghost use Rattle.std.specs.Prelude.{◌≡◌, ◌+◌, ◌^◌, ◌++◌, ◌∷◌, ◌<◌, ◌≤◌, ℕ, List, [], IfOk};
ghost use Rattle.sp_regex.specs.Trees.{Syntax};
ghost use Rattle.sp_match.specs.Sizes.{IsSetOf, HasRead, steps};
ghost use Rattle.sp_sync.specs.Places.{Comes};

use crate::outcome::Outcome;
use sp_base::NoMemory;
use sp_match::{Matcher, TokenSet, Verdict};
use std::alloc::Global;

/// A place that is asked, and a matcher that reads from there on.
#[derive(Drop)]
pub struct Attempt<'s> {
    pub(crate) matcher: Matcher<'s>,
    /// The place that is asked.
    pub(crate) start: u64,
    /// The place of the byte that the matcher reads next.
    pub(crate) wants: u64,
    ghost counted: { start + steps matcher ≡ wants },
    ghost far: { wants ≤ 2 ^ 62 },
}

impl<'s> Attempt<'s> {
    /// Asks this place.
    pub fn new(alloc: Global, set: &'s TokenSet, from: u64) -> Result<Attempt<'s>, NoMemory>
        requires { from ≤ 2 ^ 62 }
        ensures start { IfOk result (λ attempt. attempt.start ≡ from) }
        ensures wants { IfOk result (λ attempt. attempt.wants ≡ from) }
        ensures read { (tokens : List Syntax) → IsSetOf set.now tokens
            → IfOk result (λ attempt. HasRead attempt.matcher tokens []) }
    {
        let matcher = Matcher::new(alloc, set)?;
        Ok(Attempt {
            matcher,
            start: from,
            wants: from,
        })
    }

    /// Reads the byte that is wanted.
    pub fn give(&mut self, byte: u8)
        requires { self.old.wants < 2 ^ 62 }
        ensures start { self.new.start ≡ self.old.start }
        ensures wants { self.new.wants ≡ self.old.wants + 1 }
        ensures read { (tokens : List Syntax) (w : List ℕ) → HasRead self.old.matcher tokens w
            → HasRead self.new.matcher tokens (w ++ byte ∷ []) }
    {
        self.matcher.step(byte);
        self.wants += 1;
    }

    /// Asks the next place.
    pub fn fail(&mut self)
        requires { self.old.start < self.old.wants }
        ensures start { self.new.start ≡ self.old.start + 1 }
        ensures wants { self.new.wants ≡ self.old.start + 1 }
        ensures read { (tokens : List Syntax) (w : List ℕ) → HasRead self.old.matcher tokens w
            → HasRead self.new.matcher tokens [] }
    {
        self.matcher.restart();
        self.start += 1;
        self.wants = self.start;
    }

    /// What the bytes tell, where more may come.
    pub fn outcome(&self) -> Outcome
        ensures { (tokens : List Syntax) (w : List ℕ) → HasRead self.now.matcher tokens w
            → Comes tokens w result }
    {
        match self.matcher.verdict(false) {
            Verdict::Match { .. } => Outcome::Begins,
            Verdict::None => Outcome::Fails,
            Verdict::Need => match self.matcher.verdict(true) {
                Verdict::Match { .. } => Outcome::Begins,
                Verdict::None | Verdict::Need => Outcome::Waits,
            },
        }
    }
}
