// The sets of live spots that come first, as states of a table, so that most bytes cost one look.
ghost use Rattle.std.specs.Prelude.{◌≡◌, ℕ, ◌+◌, ◌*◌, ◌<◌, ◌≤◌, List, [], length, true, false, Option, Some, None, IfOk, OnOk};
ghost use Rattle.std.proofs.Common.{get_or};
ghost use Rattle.sp_match.specs.declared.spot.Spot.{Spot};
ghost use Rattle.sp_match.specs.Bits.{holds, row};
ghost use Rattle.sp_match.specs.Nets.{at, Orderly};
ghost use Rattle.sp_match.specs.Running.{IsNext};
ghost use Rattle.sp_match.specs.Tables.{IsMachineOf, IsAcceptance, acceptance_at, IsStates, AreKept, IsState};
ghost use Rattle.sp_match.specs.Sizes.{IsTableOf};

use crate::bits::{assign, count, none};
use crate::index::Index;
use crate::machine::Machine;
use sp_base::NoMemory;
use std::alloc::Global;

/// The most moves of a table.
const MOVES: usize = 262144;

/// The most words of all sets of a table.
const WORDS: usize = 524288;

/// The most live spots of all sets from which a table has moves: what the moves cost to make.
const LIVE: usize = 1048576;

/// What a set of live spots tells: its best live goal, and whether one of its spots reads on.
#[derive(Clone, Copy)]
pub struct Acceptance {
    pub won: Option<(u32, bool)>,
    pub reads_on: bool,
}

/// The sets that are states.
#[derive(Drop)]
pub struct States {
    pub(crate) sets: Vec<Vec<u64>>,
    pub(crate) acceptances: Vec<Acceptance>,
}

/// States, and where each class of bytes leads from them.
#[derive(Drop)]
pub struct Table {
    pub(crate) states: States,
    /// The moves of each state, one for each class; none where there was no room for a further state.
    pub(crate) moves: Vec<Option<u32>>,
}

/// What a set tells.
fn acceptance_of(machine: &Machine, set: &Vec<u64>) -> Acceptance
    ensures { (net : List Spot) → IsMachineOf net machine.now
        → IsAcceptance net (holds set.now.items) result.won result.reads_on }
{
    Acceptance {
        won: machine.winner(set),
        reads_on: machine.reads_on(set),
    }
}

impl States {
    /// No states.
    fn new(alloc: Global) -> States
        ensures { (result.sets.items ≡ []) × (result.acceptances.items ≡ []) }
    {
        States {
            sets: Vec::new(alloc),
            acceptances: Vec::new(alloc),
        }
    }

    /// Adds a state with this set.
    fn add(&mut self, machine: &Machine, set: Vec<u64>) -> Result<(), NoMemory>
        ensures more { OnOk result (length self.new.sets.items
            ≡ length self.old.sets.items + 1) }
        ensures states { (net : List Spot) → IsMachineOf net machine.now
            → length set.items ≡ machine.now.words
            → IsStates net machine.now.words self.old.sets.items self.old.acceptances.items
            → OnOk result (IsStates net machine.now.words
            self.new.sets.items self.new.acceptances.items
            × AreKept self.old.sets.items self.new.sets.items
            × (length self.new.sets.items ≡ length self.old.sets.items + 1)
            × (row self.new.sets.items (length self.old.sets.items) ≡ set.items)) }
    {
        let told = acceptance_of(machine, &set);
        self.sets.push(set)?;
        self.acceptances.push(told)?;
        Ok(())
    }

    /// The state with this set, a new one if there is none and there is room.
    fn enter(
        &mut self,
        machine: &Machine,
        index: &mut Index,
        set: Vec<u64>,
        room: u32,
    ) -> Result<Option<u32>, NoMemory>
        ensures more { OnOk result (length self.old.sets.items ≤ length self.new.sets.items) }
        ensures states { (net : List Spot) → IsMachineOf net machine.now
            → length set.items ≡ machine.now.words
            → IsStates net machine.now.words self.old.sets.items self.old.acceptances.items
            → IfOk result (λ to.
            IsStates net machine.now.words self.new.sets.items self.new.acceptances.items
            × AreKept self.old.sets.items self.new.sets.items
            × IsState self.new.sets.items set.items to) }
    {
        if let Some(state) = index.find(&self.sets, &set) {
            return Ok(Some(state));
        }
        let state = self.sets.len();
        if state >= room as usize {
            return Ok(None);
        }
        index.add(state as u32, &set);
        self.add(machine, set)?;
        Ok(Some(state as u32))
    }
}

impl Table {
    /// Adds the move of a state by a class.
    fn add_move(
        &mut self,
        alloc: Global,
        machine: &Machine,
        index: &mut Index,
        state: usize,
        class: usize,
        room: u32,
    ) -> Result<(), NoMemory>
        requires { state < length self.old.states.sets.items }
        ensures table { (net : List Spot) → IsMachineOf net machine.now
            → class < length machine.now.classes.firsts.items
            → length self.old.moves.items
            ≡ state * length machine.now.classes.firsts.items + class
            → IsTableOf net machine.now self.old → OnOk result (IsTableOf net machine.now self.new
            × AreKept self.old.states.sets.items self.new.states.sets.items
            × (length self.new.moves.items ≡ length self.old.moves.items + 1)) }
        ensures more { OnOk result (length self.old.states.sets.items
            ≤ length self.new.states.sets.items) }
    {
        let mut next = none(alloc, machine.words)?;
        machine.step(&self.states.sets[state], class, &mut next);
        let to = self.states.enter(machine, index, next, room)?;
        self.moves.push(to)?;
        Ok(())
    }

    /// Adds the moves of a state by all classes.
    fn add_moves(
        &mut self,
        alloc: Global,
        machine: &Machine,
        index: &mut Index,
        state: usize,
        room: u32,
    ) -> Result<(), NoMemory>
        requires { state < length self.old.states.sets.items }
        ensures table { (net : List Spot) → IsMachineOf net machine.now
            → length self.old.moves.items ≡ state * length machine.now.classes.firsts.items
            → IsTableOf net machine.now self.old → OnOk result (IsTableOf net machine.now self.new
            × AreKept self.old.states.sets.items self.new.states.sets.items
            × (length self.new.moves.items
            ≡ (state + 1) * length machine.now.classes.firsts.items)) }
        ensures some { OnOk result (length self.old.states.sets.items
            ≤ length self.new.states.sets.items) }
    {
        for class in 0..machine.classes.firsts.len() {
            self.add_move(alloc, machine, index, state, class, room)?;
        }
        Ok(())
    }

    /// The table with its first state.
    fn begin(
        alloc: Global,
        machine: &Machine,
        index: &mut Index,
        start: Vec<u64>,
    ) -> Result<Table, NoMemory>
        ensures { (net : List Spot) → IsMachineOf net machine.now
            → length start.items ≡ machine.now.words → IfOk result (λ table.
            IsTableOf net machine.now table × (length table.moves.items ≡ 0)
            × (0 < length table.states.sets.items)
            × (row table.states.sets.items 0 ≡ start.items)) }
    {
        let mut states = States::new(alloc);
        let moves = Vec::new(alloc);
        index.add(0, &start);
        states.add(machine, start)?;
        Ok(Table { states, moves })
    }

    /// The states that come first from this set on.
    pub fn of_machine(alloc: Global, machine: &Machine, start: Vec<u64>) -> Result<Table, NoMemory>
        ensures { (net : List Spot) → IsMachineOf net machine.now
            → length start.items ≡ machine.now.words → IfOk result (λ table.
            IsTableOf net machine.now table
            × (0 < length table.states.sets.items)
            × (row table.states.sets.items 0 ≡ start.items)) }
    {
        let room = room_of(machine);
        let mut index = Index::new(alloc, 4 * room as usize)?;
        let mut table = Table::begin(alloc, machine, &mut index, start)?;
        let mut live: usize = 0;
        for state in 0..room as usize {
            if state >= table.states.sets.len() {
                break;
            }
            live = live.saturating_add(count(&table.states.sets[state]));
            if live > LIVE {
                break;
            }
            table.add_moves(alloc, machine, &mut index, state, room)?;
        }
        Ok(table)
    }

    /// The state to which a state leads by a byte of the class, if there is such a move.
    pub fn after(&self, state: u32, class: u8, classes: usize) -> Option<u32>
        ensures { (t : ℕ) → result ≡ Some t
            → get_or self.now.moves.items (state * classes + class) None ≡ Some t }
    {
        let row = (state as usize).checked_mul(classes)?;
        let at = row.checked_add(usize::from(class))?;
        if at < self.moves.len() {
            self.moves[at]
        } else {
            None
        }
    }

    /// Makes a set that of a state.
    pub fn copy_set(&self, state: u32, set: &mut Vec<u64>)
        ensures spots { state < length self.now.states.sets.items
            → length (row self.now.states.sets.items state) ≤ length set.old.items
            → (p : ℕ) → holds set.new.items p ≡ holds (row self.now.states.sets.items state) p }
        ensures len { length set.new.items ≡ length set.old.items }
    {
        let state = state as usize;
        if state < self.states.sets.len() {
            assign(set, &self.states.sets[state]);
        }
    }

    /// The best live goal of a state.
    pub fn won(&self, state: u32) -> Option<(u32, bool)>
        ensures { state < length self.now.states.acceptances.items
            → result ≡ (acceptance_at self.now.states.acceptances.items state).won }
    {
        let state = state as usize;
        if state < self.states.acceptances.len() {
            self.states.acceptances[state].won
        } else {
            None
        }
    }

    /// Whether a spot of a state reads on.
    pub fn reads_on(&self, state: u32) -> bool
        ensures { state < length self.now.states.acceptances.items
            → result ≡ (acceptance_at self.now.states.acceptances.items state).reads_on }
    {
        let state = state as usize;
        state < self.states.acceptances.len() && self.states.acceptances[state].reads_on
    }
}

/// For how many states there is room.
fn room_of(machine: &Machine) -> u32 {
    let classes = machine.classes.firsts.len();
    let most = machine.nexts.len().saturating_mul(4).saturating_add(256);
    if classes == 0 || machine.words == 0 {
        return 1;
    }
    most.min(MOVES / classes).min(WORDS / machine.words) as u32
}
