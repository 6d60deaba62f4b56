// A class: the bytes and ranges between brackets.
ghost use Rattle.std.specs.Prelude.{◌≡◌, ◌≤◌, ◌<◌, ◌&&◌, ◌||◌, not, false, length, slice_index_or, ◌++◌, ◌∷◌, [], List, ℕ, IfOk, OnOk};
ghost use Rattle.sp_regex.specs.Room.{leaves_byte, some_below};
ghost use Rattle.sp_regex.specs.Bytes.{is_within};
ghost use Rattle.sp_regex.specs.Class.{leaves, class_step, first_step, item_step, range_step, to_step, open_step, more_step, after_step, escaped_step, escaped_to_step, can_end, can_end_with, IsClassStep};
ghost use Rattle.sp_regex.specs.Escapes.{escape_step};

use crate::bytes::{ByteRange, ClassByteRole, hex_digit};
use crate::escape::{EscapePlace, EscapeStep};
use sp_base::NoMemory;
use std::alloc::Global;
use std::marker::Model;

// No byte is marked.
fn unmarked() -> [bool; 256]
    ensures { (k : ℕ) → k < 256 → slice_index_or result k false ≡ false }
{
    [false; 256]
}

// Marks the bytes of a range.
fn cover(covered: &mut [bool], range: ByteRange)
    requires room { length covered.old ≡ 256 }
    requires order { range.from ≤ range.to }
    ensures { (k : ℕ) → k < 256 → slice_index_or covered.new k false ≡
        (slice_index_or covered.old k false || is_within k range) }
{
    for b in range.from..=range.to {
        covered[usize::from(b)] = true;
    }
}

// Whether some byte is neither marked nor in this range.
fn leaves_uncovered(covered: &[bool], range: ByteRange) -> bool
    requires { length covered.now ≡ 256 }
    ensures { result ≡ some_below 256 (λ k. not (slice_index_or covered.now k false) && not
        (is_within k range)) }
{
    for (i, covered) in covered.iter().enumerate() {
        if !*covered && !range.contains(i as u8) {
            return true;
        }
    }
    false
}

/// Ranges of bytes, and for each byte whether it is in one of them.
#[derive(Drop)]
pub struct Ranges {
    items: Vec<ByteRange>,
    covered: [bool; 256],
}

impl Model for Ranges {
    ghost use Rattle.std.specs.Prelude.{List, ℕ, ◌≡◌, ◌<◌, slice_index_or, false};
    ghost use Rattle.sp_regex.specs.declared.bytes.ByteRange.{ByteRange};
    ghost use Rattle.sp_regex.specs.Bytes.{is_covered};

    ghost Value = { List ByteRange };

    ghost view = { λ r. r.items.items };

    ghost invariant = { λ r. (k : ℕ) → k < 256 → slice_index_or r.covered k false
        ≡ is_covered r.items.items k };
}

impl Ranges {
    pub fn new(alloc: Global) -> Ranges
        ensures { result ≡ [] }
    {
        Ranges {
            items: Vec::new(alloc),
            covered: unmarked(),
        }
    }

    /// Adds a range, or changes nothing.
    pub fn push(&mut self, range: ByteRange) -> Result<(), NoMemory>
        requires { range.from ≤ range.to }
        ensures { OnOk result (self.new ≡ self.old ++ range ∷ []) }
    {
        self.items.push(range)?;
        cover(&mut self.covered, range);
        Ok(())
    }

    /// Whether some byte is in none of the ranges, and not in this one.
    pub fn leaves(&self, range: ByteRange) -> bool
        ensures { result ≡ leaves_byte self.now range }
    {
        leaves_uncovered(&self.covered, range)
    }

    /// Takes the ranges out.
    pub fn take(&mut self) -> Vec<ByteRange>
        ensures items { result.items ≡ self.old }
        ensures none { self.new ≡ [] }
    {
        self.covered = unmarked();
        let none = Vec::new(*self.items.allocator());
        std::mem::replace(&mut self.items, none)
    }
}

/// How far a class is read.
#[derive(Clone, Copy)]
pub enum ClassPlace {
    /// Behind the opening bracket.
    Open,
    /// Behind the sign of all other bytes.
    Empty,
    /// Behind an item to which nothing can be added.
    Items,
    /// Behind a byte that may begin a range.
    After(u8),
    /// Behind the dash of a range that begins with this byte.
    From(u8),
    /// In the escape of a byte that may begin a range.
    Escape(EscapePlace),
    /// In the escape of the last byte of a range that begins with this byte.
    EscapeTo(u8, EscapePlace),
}

/// What the next byte of a class leads to.
#[derive(Clone, Copy)]
pub enum ClassStep {
    Goes,
    Ends,
    Refused,
}

/// A class that is being read: whether it is of all other bytes, the ranges so far, and the place.
#[derive(Drop)]
pub struct ClassReader {
    pub negated: bool,
    pub ranges: Ranges,
    pub place: ClassPlace,
}

impl ClassReader {
    /// Reads the next byte.
    pub fn step(&mut self, byte: u8) -> Result<ClassStep, NoMemory>
        ensures { IfOk result (λ s. IsClassStep s self.new (class_step self.old byte)) }
    {
        let role = ClassByteRole::of(byte);
        match self.place {
            ClassPlace::Open => Ok(self.opened(role, byte)),
            ClassPlace::Empty => Ok(self.item(role, byte)),
            ClassPlace::Items => Ok(self.more(role, byte)),
            ClassPlace::After(from) => self.after(from, role, byte),
            ClassPlace::From(from) => self.to(from, role, byte),
            ClassPlace::Escape(place) => Ok(self.escape(place, byte)),
            ClassPlace::EscapeTo(from, place) => self.escape_to(from, place, byte),
        }
    }

    fn goes(&mut self, place: ClassPlace) -> ClassStep
        ensures step { result ≡ ClassStep.Goes }
        ensures place { self.new ≡ record self.old { place = place } }
    {
        self.place = place;
        ClassStep::Goes
    }

    // Whether some byte would belong to the class with this range.
    fn leaves(&self, range: ByteRange) -> bool
        ensures { result ≡ leaves self.now range }
    {
        !self.negated || self.ranges.leaves(range)
    }

    // A byte that may begin a range.
    fn first(&mut self, b: u8) -> ClassStep
        ensures { IsClassStep result self.new (first_step self.old b) }
    {
        if self.leaves(ByteRange { from: b, to: b }) {
            self.goes(ClassPlace::After(b))
        } else {
            ClassStep::Refused
        }
    }

    // A range from one byte up to another.
    fn range(&mut self, from: u8, to: u8) -> Result<ClassStep, NoMemory>
        ensures { IfOk result (λ s. IsClassStep s self.new (range_step self.old from to)) }
    {
        let range = ByteRange { from, to };
        if from > to || !self.leaves(range) {
            return Ok(ClassStep::Refused);
        }
        self.ranges.push(range)?;
        Ok(self.goes(ClassPlace::Items))
    }

    // The first byte of an item.
    fn item(&mut self, role: ClassByteRole, byte: u8) -> ClassStep
        ensures { IsClassStep result self.new (item_step self.old role byte) }
    {
        match role {
            ClassByteRole::Plain | ClassByteRole::Caret => self.first(byte),
            ClassByteRole::Backslash => self.goes(ClassPlace::Escape(EscapePlace::Start)),
            _ => ClassStep::Refused,
        }
    }

    // The first byte behind the opening bracket.
    fn opened(&mut self, role: ClassByteRole, byte: u8) -> ClassStep
        ensures { IsClassStep result self.new (open_step self.old role byte) }
    {
        match role {
            ClassByteRole::Caret => {
                self.negated = true;
                self.goes(ClassPlace::Empty)
            }
            _ => self.item(role, byte),
        }
    }

    // The first byte behind an item.
    fn more(&mut self, role: ClassByteRole, byte: u8) -> ClassStep
        ensures { IsClassStep result self.new (more_step self.old role byte) }
    {
        match role {
            ClassByteRole::Close => ClassStep::Ends,
            _ => self.item(role, byte),
        }
    }

    // The first byte behind a byte that may begin a range.
    fn after(&mut self, from: u8, role: ClassByteRole, byte: u8) -> Result<ClassStep, NoMemory>
        ensures { IfOk result (λ s. IsClassStep s self.new (after_step self.old from role byte)) }
    {
        match role {
            ClassByteRole::Dash => Ok(self.goes(ClassPlace::From(from))),
            _ => {
                self.ranges.push(ByteRange { from, to: from })?;
                Ok(self.more(role, byte))
            }
        }
    }

    // The first byte behind the dash of a range.
    fn to(&mut self, from: u8, role: ClassByteRole, byte: u8) -> Result<ClassStep, NoMemory>
        ensures { IfOk result (λ s. IsClassStep s self.new (to_step self.old from role byte)) }
    {
        match role {
            ClassByteRole::Plain | ClassByteRole::Caret => self.range(from, byte),
            ClassByteRole::Backslash => {
                Ok(self.goes(ClassPlace::EscapeTo(from, EscapePlace::Start)))
            }
            _ => Ok(ClassStep::Refused),
        }
    }

    // The next byte of an escape that may begin a range.
    fn escape(&mut self, place: EscapePlace, byte: u8) -> ClassStep
        ensures { IsClassStep result self.new (escaped_step self.old (escape_step place byte)) }
    {
        match place.step(byte) {
            EscapeStep::Goes(place) => self.goes(ClassPlace::Escape(place)),
            EscapeStep::Ends(b) => self.first(b),
            EscapeStep::Refused => ClassStep::Refused,
        }
    }

    // The next byte of the escape that ends a range.
    fn escape_to(&mut self, from: u8, place: EscapePlace, byte: u8) -> Result<ClassStep, NoMemory>
        ensures { IfOk result (λ s. IsClassStep s self.new
            (escaped_to_step self.old from (escape_step place byte))) }
    {
        match place.step(byte) {
            EscapeStep::Goes(place) if self.can_end(from, place) => {
                Ok(self.goes(ClassPlace::EscapeTo(from, place)))
            }
            EscapeStep::Ends(b) => self.range(from, b),
            _ => Ok(ClassStep::Refused),
        }
    }

    // Whether the escape at this place can still end a range from this byte.
    fn can_end(&self, from: u8, place: EscapePlace) -> bool
        ensures { result ≡ can_end self.now from place }
    {
        match place {
            EscapePlace::Digit(high) => match hex_digit(high) {
                Some(digit) => self.can_end_with(from, 16 * digit),
                None => false,
            },
            _ => true,
        }
    }

    // Whether a byte from this one on, of sixteen, can end a range.
    fn can_end_with(&self, from: u8, lowest: u8) -> bool
        requires { lowest ≤ 240 }
        ensures { result ≡ can_end_with self.now from lowest }
    {
        let to = if from < lowest { lowest } else { from };
        from <= lowest + 15 && self.leaves(ByteRange { from, to })
    }
}
