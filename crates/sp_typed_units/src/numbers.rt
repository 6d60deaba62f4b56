// Numbers that are shared, seen as their list.
ghost use Rattle.std.specs.Prelude.{◌≡◌, [], ◌∷◌, ◌++◌, List, ℕ, IfOk};
ghost use Rattle.sp_typed_units.specs.Numbers.{listed};

use sp_base::NoMemory;
use std::alloc::Global;
use std::marker::Model;
use std::rc::Rc;
use std::slice;

/// How several numbers are kept.
#[derive(Drop)]
pub(crate) enum Kept {
    Nothing,
    One(u32),
    Many(Rc<Vec<u32>>),
}

/// Several numbers, of which a copy shares them: none and a single one take no memory of their own. Clauses see the list.
#[derive(Drop)]
pub struct Numbers {
    kept: Kept,
}

impl Model for Numbers {
    ghost Value = { List ℕ };

    ghost view = { λ n. listed n.kept };
}

impl Numbers {
    /// None. Takes no memory.
    pub fn none() -> Numbers
        ensures { result ≡ [] }
    {
        Numbers {
            kept: Kept::Nothing,
        }
    }

    pub fn as_slice(&self) -> &[u32]
        ensures { result.now ≡ self.now }
    {
        match &self.kept {
            Kept::Nothing => &[],
            Kept::One(number) => slice::from_ref(number),
            Kept::Many(list) => list.as_slice(),
        }
    }

    /// The same numbers. Takes no memory; the error answers a count of those that share them which can't be raised.
    pub fn copy(&self) -> Result<Numbers, NoMemory>
        ensures { IfOk result (λ copy. copy ≡ self.now) }
    {
        let kept = match &self.kept {
            Kept::Nothing => Kept::Nothing,
            Kept::One(number) => Kept::One(*number),
            Kept::Many(list) => Kept::Many(list.clone()?),
        };
        Ok(Numbers { kept })
    }

    /// These numbers and one more behind them. What no other shares isn't copied.
    pub fn and(self, alloc: Global, number: u32) -> Result<Numbers, NoMemory>
        ensures { IfOk result (λ more. more ≡ self ++ number ∷ []) }
    {
        let kept = match self.kept {
            Kept::Nothing => Kept::One(number),
            Kept::One(first) => Kept::Many(pair(alloc, first, number)?),
            Kept::Many(list) => Kept::Many(longer(list, number)?),
        };
        Ok(Numbers { kept })
    }
}

fn pair(alloc: Global, first: u32, second: u32) -> Result<Rc<Vec<u32>>, NoMemory>
    ensures { IfOk result (λ list. list.value.items ≡ first ∷ second ∷ []) }
{
    let mut list = Vec::with_capacity(alloc, 2)?;
    list.push(first)?;
    list.push(second)?;
    Ok(Rc::new(alloc, list)?)
}

fn longer(list: Rc<Vec<u32>>, number: u32) -> Result<Rc<Vec<u32>>, NoMemory>
    ensures { IfOk result (λ more. more.value.items ≡ list.value.items ++ number ∷ []) }
{
    let mut more = list;
    let own = Rc::make_mut(&mut more)?;
    own.push(number)?;
    Ok(more)
}
