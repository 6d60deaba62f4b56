// Where states are looked for, by numbers that their sets give. A state that is missed is made again, which is right too.
ghost use Rattle.std.specs.Prelude.{◌≡◌, ℕ, ◌<◌, length, true, false, Option, Some, None};
ghost use Rattle.sp_match.specs.Bits.{row};

use sp_base::NoMemory;
use std::alloc::Global;

/// The most slots that are looked at for one set.
const TURNS: u64 = 16;

/// States by numbers of their sets.
#[derive(Drop)]
pub struct Index {
    slots: Vec<Option<u32>>,
}

/// A number that differs for most sets.
fn mixed(set: &Vec<u64>) -> u64 {
    let mut sum: u64 = 0;
    for word in set {
        sum = (sum ^ *word).wrapping_mul(0x9E37_79B9_7F4A_7C15);
        sum = sum ^ (sum >> 32);
    }
    sum
}

/// Whether two sets have the same words.
fn are_same(set: &Vec<u64>, other: &Vec<u64>) -> bool
    ensures { result ≡ true → set.now.items ≡ other.now.items }
{
    set.as_slice() == other.as_slice()
}

/// Whether the state has this set.
fn is_state(sets: &Vec<Vec<u64>>, state: u32, set: &Vec<u64>) -> bool
    ensures { result ≡ true → (state < length sets.now.items)
        × (row sets.now.items state ≡ set.now.items) }
{
    let state = state as usize;
    if state < sets.len() {
        are_same(&sets[state], set)
    } else {
        false
    }
}

impl Index {
    /// No states, and so many slots.
    pub fn new(alloc: Global, slots: usize) -> Result<Index, NoMemory> {
        let mut all = Vec::new(alloc);
        for _ in 0..slots {
            all.push(None)?;
        }
        Ok(Index { slots: all })
    }

    /// The state in the slot of a number after so many that were asked.
    fn at(&self, number: u64, turn: u64) -> Option<u32> {
        let slots = self.slots.len() as u64;
        if slots == 0 {
            return None;
        }
        self.slots[(number.wrapping_add(turn) % slots) as usize]
    }

    /// The state with this set.
    pub fn find(&self, sets: &Vec<Vec<u64>>, set: &Vec<u64>) -> Option<u32>
        ensures within { (s : ℕ) → result ≡ Some s → s < length sets.now.items }
        ensures same { (s : ℕ) → result ≡ Some s → row sets.now.items s ≡ set.now.items }
    {
        let number = mixed(set);
        for turn in 0..TURNS {
            match self.at(number, turn) {
                Some(state) => {
                    if is_state(sets, state, set) {
                        return Some(state);
                    }
                }
                None => return None,
            }
        }
        None
    }

    /// Notes a state with this set, where a slot is free.
    pub fn add(&mut self, state: u32, set: &Vec<u64>) {
        let number = mixed(set);
        for turn in 0..TURNS {
            if self.at(number, turn).is_none() {
                self.put(number, turn, state);
                return;
            }
        }
    }

    /// Puts a state into the slot of a number after so many.
    fn put(&mut self, number: u64, turn: u64, state: u32) {
        let slots = self.slots.len() as u64;
        if slots > 0 {
            self.slots[(number.wrapping_add(turn) % slots) as usize] = Some(state);
        }
    }
}
