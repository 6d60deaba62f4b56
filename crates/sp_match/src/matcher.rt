// The matcher: one step a byte.
ghost use Rattle.std.specs.Prelude.{◌≡◌, ◌+◌, ◌*◌, ◌^◌, ◌++◌, ◌∷◌, ◌<◌, ◌⊎◌, ℕ, List, [], true, false, length, Option, Some, None, IfOk};
ghost use Rattle.std.proofs.Common.{get_or};
ghost use Rattle.sp_regex.specs.Trees.{Syntax};
ghost use Rattle.sp_match.specs.Matching.{IsVerdict};
ghost use Rattle.sp_match.specs.Bits.{holds};
ghost use Rattle.sp_match.specs.Running.{newest_of};
ghost use Rattle.sp_match.specs.Tables.{SomeReads, NoneReads};
ghost use Rattle.sp_match.specs.Sizes.{IsSetOf, HasRead, HasMoved, live_of, steps};

use crate::bits::none;
use crate::token_set::TokenSet;
use crate::verdict::Verdict;
use sp_base::NoMemory;
use std::alloc::Global;

/// Reads bytes one by one, and tells after each what they match. All room is made at the start.
#[derive(Drop)]
pub struct Matcher<'s> {
    set: &'s TokenSet,
    /// The state of the set's table; none where the table has none for the live spots.
    state: Option<u32>,
    /// The live spots, where there is no state.
    live: Vec<u64>,
    next: Vec<u64>,
    best: Option<(u32, u64)>,
    stepped: u64,
}

impl<'s> Matcher<'s> {
    /// A matcher that has read nothing.
    pub fn new(alloc: Global, set: &'s TokenSet) -> Result<Matcher<'s>, NoMemory>
        ensures count { IfOk result (λ matcher. steps matcher ≡ 0) }
        ensures read { (tokens : List Syntax) → IsSetOf set.now tokens
            → IfOk result (λ matcher. HasRead matcher tokens []) }
    {
        let live = none(alloc, set.machine.words)?;
        let next = none(alloc, set.machine.words)?;
        Ok(Matcher {
            set,
            state: Some(0),
            live,
            next,
            best: None,
            stepped: 0,
        })
    }

    /// Forgets all bytes that were read. It takes no memory.
    pub fn restart(&mut self)
        ensures count { steps self.new ≡ 0 }
        ensures read { (tokens : List Syntax) (w : List ℕ) → HasRead self.old tokens w
            → HasRead self.new tokens [] }
    {
        self.state = Some(0);
        self.best = None;
        self.stepped = 0;
    }

    /// Leaves a state of the table: the live spots are its own.
    fn leave_state(&mut self, state: u32)
        ensures count { steps self.new ≡ steps self.old }
        ensures set { self.new.set.now ≡ self.old.set.now }
        ensures left { self.new.state ≡ None }
        ensures read { (tokens : List Syntax) (w : List ℕ) → HasRead self.old tokens w
            → self.old.state ≡ Some state → HasRead self.new tokens w }
    {
        self.set.table.copy_set(state, &mut self.live);
        self.state = None;
    }

    /// Leaves the table.
    fn leave(&mut self)
        ensures count { steps self.new ≡ steps self.old }
        ensures set { self.new.set.now ≡ self.old.set.now }
        ensures left { self.new.state ≡ None }
        ensures read { (tokens : List Syntax) (w : List ℕ) → HasRead self.old tokens w
            → HasRead self.new tokens w }
    {
        if let Some(state) = self.state {
            self.leave_state(state);
        }
    }

    /// Goes on without a state, by a byte of the class: the best live goal.
    fn wander(&mut self, class: u8) -> Option<(u32, bool)>
        ensures count { steps self.new ≡ steps self.old }
        ensures moved { (tokens : List Syntax) (w : List ℕ) (b : ℕ) → HasRead self.old tokens w
            → b < 256 → class ≡ get_or self.old.set.now.machine.classes.of.items b 0
            → self.old.state ≡ None → HasMoved self.new tokens w b result }
    {
        self.set
            .machine
            .step(&self.live, usize::from(class), &mut self.next);
        std::mem::swap(&mut self.live, &mut self.next);
        self.set.machine.winner(&self.live)
    }

    /// The state after a byte of the class, if the table has it.
    fn after(&self, class: u8) -> Option<u32>
        ensures { (t : ℕ) → result ≡ Some t → (s : ℕ) × (self.now.state ≡ Some s)
            × (get_or self.now.set.now.table.moves.items
            (s * length self.now.set.now.machine.classes.firsts.items + class) None ≡ Some t) }
    {
        let state = self.state?;
        self.set
            .table
            .after(state, class, self.set.machine.classes.firsts.len())
    }

    /// Goes on by a byte: the best live goal.
    fn advance(&mut self, byte: u8) -> Option<(u32, bool)>
        ensures count { steps self.new ≡ steps self.old }
        ensures moved { (tokens : List Syntax) (w : List ℕ) → HasRead self.old tokens w
            → HasMoved self.new tokens w byte result }
    {
        let class = self.set.machine.class(byte);
        match self.after(class) {
            Some(state) => {
                self.state = Some(state);
                self.set.table.won(state)
            }
            None => {
                self.leave();
                self.wander(class)
            }
        }
    }

    /// Reads a byte. It takes no memory. Fewer than 2^62 bytes were read before.
    pub fn step(&mut self, byte: u8)
        requires { steps self.old < 2 ^ 62 }
        ensures count { steps self.new ≡ steps self.old + 1 }
        ensures read { (tokens : List Syntax) (w : List ℕ) → HasRead self.old tokens w
            → HasRead self.new tokens (w ++ byte ∷ []) }
    {
        let won = self.advance(byte);
        self.stepped += 1;
        self.best = newest(won, self.stepped, self.best);
    }

    /// Whether a live spot reads on.
    fn reads_on(&self) -> bool
        ensures some { result ≡ true → (tokens : List Syntax) (w : List ℕ)
            → (h : HasRead self.now tokens w) → SomeReads h.set.net
            (holds (live_of self.now.set.now.table.states.sets.items self.now.state
            self.now.live.items)) }
        ensures none { result ≡ false → (tokens : List Syntax) (w : List ℕ)
            → (h : HasRead self.now tokens w) → NoneReads h.set.net
            (holds (live_of self.now.set.now.table.states.sets.items self.now.state
            self.now.live.items)) }
    {
        match self.state {
            Some(state) => self.set.table.reads_on(state),
            None => self.set.machine.reads_on(&self.live),
        }
    }

    /// Whether more bytes may come, and a live spot reads on.
    fn waits(&self, ended: bool) -> bool
        ensures waits { result ≡ true → (tokens : List Syntax) (w : List ℕ)
            → (h : HasRead self.now tokens w) → (ended ≡ false) × SomeReads h.set.net
            (holds (live_of self.now.set.now.table.states.sets.items self.now.state
            self.now.live.items)) }
        ensures settled { result ≡ false → (tokens : List Syntax) (w : List ℕ)
            → (h : HasRead self.now tokens w) → (ended ≡ true) ⊎ NoneReads h.set.net
            (holds (live_of self.now.set.now.table.states.sets.items self.now.state
            self.now.live.items)) }
    {
        if ended {
            return false;
        }
        self.reads_on()
    }

    /// What the bytes so far tell, where more may come or, if the input is ended, where none can. It takes no
    /// memory.
    pub fn verdict(&self, ended: bool) -> Verdict
        ensures { (tokens : List Syntax) (w : List ℕ) → HasRead self.now tokens w
            → IsVerdict tokens w ended result }
    {
        if self.waits(ended) {
            return Verdict::Need;
        }
        match self.best {
            Some((token, length)) => Verdict::Match { token, length },
            None => Verdict::None,
        }
    }
}

/// The best match after one byte more.
fn newest(won: Option<(u32, bool)>, stepped: u64, best: Option<(u32, u64)>) -> Option<(u32, u64)>
    ensures { result ≡ newest_of won stepped best }
{
    match won {
        Some((token, _)) => Some((token, stepped)),
        None => best,
    }
}
