// The kinds of types, by walks into them.
ghost use Rattle.std.specs.Prelude.{◌≡◌, ◌<◌, ◌∷◌, ℕ, List, length, IfOk, OnOk};
ghost use Rattle.std.specs.List.{AllByRecursion};
ghost use Rattle.sp_methods.specs.Kinds.{Kind, kinds_of};
ghost use Rattle.sp_meaning_states.specs.Types.{ranges_of, kind_of_word, kind_of_made, kind_of_type};
ghost use Rattle.sp_meaning.specs.Globals.{range_counts};
ghost use Rattle.sp_code.specs.Programs.{kind_at, kinds_at, kind_of_row};
ghost use Rattle.sp_emit.specs.Kinds.{Grows, IsNumberOf, NamesBelow};
ghost use Rattle.sp_emit.specs.Plans.{begin, end, plan, plans, work};
ghost use Rattle.sp_emit.specs.inside.KindPlans.{kinds_after, kinds_behind};

use crate::kinds::{KindTable, number};
use crate::walk::{Task, behind, push_parts};
use sp_base::NoMemory;
use sp_code::KindRow;
use sp_typed_units::Bitfield;
use sp_types::{Level, Maker, Type, Word};

/// How many named ranges a bitfield has.
pub fn range_count(bitfields: &[Bitfield], k: u32) -> usize
    ensures { result ≡ ranges_of (range_counts bitfields.now) k }
{
    let k = k as usize;
    if k < bitfields.len() {
        bitfields[k].ranges.as_slice().len()
    } else {
        0
    }
}

/// The row of a type without parts.
fn word_row(bitfields: &[Bitfield], word: Word) -> Result<KindRow, NoMemory>
    ensures kind { IfOk result (λ row. (ks : List Kind) → kind_of_row ks row
        ≡ kind_of_word (range_counts bitfields.now) word) }
    ensures names { IfOk result (λ row. (n : ℕ) → NamesBelow n row) }
{
    match word {
        Word::Bool => Ok(KindRow::Bool),
        Word::Uint(_) => Ok(KindRow::Unsigned),
        Word::Int(_) => Ok(KindRow::Signed),
        Word::Bytes => Ok(KindRow::Bytes),
        Word::String => Ok(KindRow::Text),
        Word::Iterator => Ok(KindRow::Iterator),
        Word::Enum(k) => Ok(KindRow::Enum(k)),
        Word::Bitfield(k) => Ok(KindRow::Bits(k, number(range_count(bitfields, k))?)),
        Word::Unit(u) => Ok(KindRow::Unit(u)),
        _ => Ok(KindRow::Void),
    }
}

impl KindTable {
    /// The number of the kind of a part, or that of void where there is no such part.
    fn part(&mut self, parts: &[u32], i: usize) -> Result<u32, NoMemory>
        requires { AllByRecursion (λ n. n < length self.old) parts.now }
        ensures number { IfOk result (IsNumberOf self.new (kind_at (kinds_at self.old parts.now)
            i)) }
        ensures grows { Grows self.old self.new }
    {
        if i < parts.len() {
            Ok(parts[i])
        } else {
            self.row(KindRow::Void)
        }
    }

    /// The number of the kind that is made of parts with these numbers.
    fn made(&mut self, maker: Maker, parts: Vec<u32>) -> Result<u32, NoMemory>
        requires { AllByRecursion (λ n. n < length self.old) parts.items }
        ensures number { IfOk result (λ n. (ranges : List ℕ) → IsNumberOf self.new
            (kind_of_made ranges maker (kinds_of (kinds_at self.old parts.items))) n) }
        ensures grows { Grows self.old self.new }
    {
        match maker {
            Maker::Tuple => self.row(KindRow::Tuple(parts)),
            Maker::Vector => {
                let item = self.part(&parts, 0)?;
                self.row(KindRow::Vector(item))
            }
            Maker::Set => {
                let key = self.part(&parts, 0)?;
                self.row(KindRow::Set(key))
            }
            Maker::Map => {
                let key = self.part(&parts, 0)?;
                let value = self.part(&parts, 1)?;
                self.row(KindRow::Map(key, value))
            }
        }
    }

    /// The number of the kind of a type without parts.
    fn word(&mut self, bitfields: &[Bitfield], word: Word) -> Result<u32, NoMemory>
        ensures number { IfOk result (IsNumberOf self.new (kind_of_word
            (range_counts bitfields.now) word)) }
        ensures grows { Grows self.old self.new }
    {
        let row = word_row(bitfields, word)?;
        self.row(row)
    }

    /// Numbers the kind of a type, or puts what is to be done for it on the list of what is left to do.
    fn begin<'a>(
        &mut self,
        bitfields: &[Bitfield],
        ty: &'a Type,
        tasks: &mut Vec<Task<'a>>,
        done: &mut Vec<u32>,
    ) -> Result<(), NoMemory>
        requires { AllByRecursion (λ n. n < length self.old) done.old.items }
        ensures below { OnOk result (AllByRecursion (λ n. n < length self.new) done.new.items) }
        ensures kinds { OnOk result (kinds_behind (range_counts bitfields.now) (plans tasks.new.items)
            (kinds_at self.new done.new.items)
            ≡ kinds_behind (range_counts bitfields.now) (begin ty.now ∷ plans tasks.old.items)
            (kinds_at self.old done.old.items)) }
        ensures falls { OnOk result (work (plans tasks.new.items)
            < work (begin ty.now ∷ plans tasks.old.items)) }
        ensures grows { Grows self.old self.new }
    {
        match ty.level() {
            Level::Word(word) => {
                let n = self.word(bitfields, word)?;
                done.push(n)?;
                Ok(())
            }
            Level::Made(maker, parts) => {
                tasks.push(Task::End(maker, done.len()))?;
                push_parts(tasks, parts)
            }
        }
    }

    /// Numbers the kind that is made of those of the numbers from a place on, in their place.
    fn end(&mut self, maker: Maker, n: usize, done: &mut Vec<u32>) -> Result<(), NoMemory>
        requires { AllByRecursion (λ n. n < length self.old) done.old.items }
        ensures below { OnOk result (AllByRecursion (λ n. n < length self.new) done.new.items) }
        ensures kinds { OnOk result ((ranges : List ℕ) → kinds_at self.new done.new.items
            ≡ kinds_after ranges (end maker n) (kinds_at self.old done.old.items)) }
        ensures grows { Grows self.old self.new }
    {
        let parts = behind(done, n)?;
        let n = self.made(maker, parts)?;
        done.push(n)?;
        Ok(())
    }

    /// Does what is next.
    fn step<'a>(
        &mut self,
        bitfields: &[Bitfield],
        task: Task<'a>,
        tasks: &mut Vec<Task<'a>>,
        done: &mut Vec<u32>,
    ) -> Result<(), NoMemory>
        requires { AllByRecursion (λ n. n < length self.old) done.old.items }
        ensures below { OnOk result (AllByRecursion (λ n. n < length self.new) done.new.items) }
        ensures kinds { OnOk result (kinds_behind (range_counts bitfields.now) (plans tasks.new.items)
            (kinds_at self.new done.new.items)
            ≡ kinds_behind (range_counts bitfields.now) (plan task.entry ∷ plans tasks.old.items)
            (kinds_at self.old done.old.items)) }
        ensures falls { OnOk result (work (plans tasks.new.items)
            < work (plan task.entry ∷ plans tasks.old.items)) }
        ensures grows { Grows self.old self.new }
    {
        match task {
            Task::Begin(ty) => self.begin(bitfields, ty, tasks, done),
            Task::End(maker, n) => self.end(maker, n, done),
        }
    }

    /// The number of the kind of a type.
    pub fn kind(&mut self, bitfields: &[Bitfield], ty: &Type) -> Result<u32, NoMemory>
        ensures number { IfOk result (IsNumberOf self.new (kind_of_type
            (range_counts bitfields.now) ty.now)) }
        ensures grows { Grows self.old self.new }
    {
        if let Level::Word(word) = ty.level() {
            return self.word(bitfields, word);
        }
        let mut tasks = Vec::new(self.allocator());
        let mut done = Vec::new(self.allocator());
        tasks.push(Task::Begin(ty))?;
        while let Some(task) = tasks.pop() {
            self.step(bitfields, task, &mut tasks, &mut done)?;
        }
        Ok(done.swap_remove(0))
    }
}
