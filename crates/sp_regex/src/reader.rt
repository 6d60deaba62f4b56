// Reads the text of a regular expression byte by byte.
ghost use Rattle.std.specs.Prelude.{◌≡◌, [], IfOk};
ghost use Rattle.sp_regex.specs.Levels.{opened};
ghost use Rattle.sp_regex.specs.Trees.{either};
ghost use Rattle.sp_regex.specs.Escapes.{escape_step};
ghost use Rattle.sp_regex.specs.Bounds.{bounds_step};
ghost use Rattle.sp_regex.specs.Class.{class_step};
ghost use Rattle.sp_regex.specs.Machine.{initial, step, finished, IsStep, at_mode, start_step, piece_step, atom_step, escaped_step, classed_step, bounded_step, group_start, group_end, repeated};

use crate::bounds::{BoundsPlace, BoundsStep};
use crate::bytes::ByteRole;
use crate::class::{ClassPlace, ClassReader, ClassStep, Ranges};
use crate::escape::{EscapePlace, EscapeStep};
use crate::level::Level;
use crate::tree::{Count, Regex};
use sp_base::NoMemory;
use std::alloc::Global;
use std::marker::Model;

/// How many groups may stand within one another.
pub const GROUPS: usize = 64;

/// What is being read.
#[derive(Drop)]
pub enum Mode {
    /// An atom has to come.
    Start,
    /// Behind this atom, which may be repeated.
    Atom(Regex),
    /// Behind a repeated atom.
    Piece,
    /// In an escape.
    Escape(EscapePlace),
    /// In a class.
    Class,
    /// In the bounds of this atom.
    Bounds(Regex, BoundsPlace),
}

/// A text that is being read: the open groups but the innermost, the innermost one, what is being read
/// there, and the class.
#[derive(Drop)]
pub struct Reader {
    alloc: Global,
    outer: Vec<Level>,
    level: Level,
    mode: Mode,
    class: ClassReader,
}

impl Model for Reader {
    ghost use Rattle.std.specs.Prelude.{reverse};
    ghost use Rattle.sp_regex.specs.Machine.{State, state};
    ghost use Rattle.std.specs.Coded.{codes};
    ghost use Rattle.sp_regex.specs.inside.SyntaxCodes.{coded_syntax};

    ghost Value = { State };

    ghost coded = { Prim.hlevel (codes, coded_syntax) };

    ghost view = { λ r. state (reverse r.outer.items) r.level r.mode r.class };
}

impl Reader {
    pub fn new(alloc: Global) -> Reader
        ensures { result ≡ initial }
    {
        Reader {
            alloc,
            outer: Vec::new(alloc),
            level: Level::new(alloc),
            mode: Mode::Start,
            class: ClassReader {
                negated: false,
                ranges: Ranges::new(alloc),
                place: ClassPlace::Open,
            },
        }
    }

    /// Reads the next byte, if a text goes on with it.
    pub fn step(&mut self, byte: u8) -> Result<bool, NoMemory>
        ensures { IfOk result (λ taken. IsStep taken self.new (step self.old byte)) }
    {
        match std::mem::replace(&mut self.mode, Mode::Start) {
            Mode::Start => self.start(ByteRole::of(byte), byte),
            Mode::Atom(atom) => self.after_atom(atom, ByteRole::of(byte), byte),
            Mode::Piece => self.after_piece(ByteRole::of(byte), byte),
            Mode::Escape(place) => Ok(self.escape(place.step(byte))),
            Mode::Class => self.class(byte),
            Mode::Bounds(atom, place) => self.bounds(atom, place.step(byte)),
        }
    }

    /// The regular expression, if the bytes so far are the text of one.
    pub fn finish(self) -> Result<Option<Regex>, NoMemory>
        ensures { IfOk result (λ r. r ≡ finished self) }
    {
        let mut reader = self;
        let finished = reader.finished();
        drop(reader);
        finished
    }

    /// The alternatives of the level at hand.
    fn finished_level(&mut self) -> Result<Option<Regex>, NoMemory>
        ensures { IfOk result (λ r. r ≡ Some (either self.old.level.earlier self.old.level.pieces)) }
    {
        let level = std::mem::replace(&mut self.level, Level::new(self.alloc));
        Ok(Some(level.finish()?))
    }

    /// The regular expression, if the bytes so far are the text of one, which is taken out.
    fn finished(&mut self) -> Result<Option<Regex>, NoMemory>
        ensures { IfOk result (λ r. r ≡ finished self.old) }
    {
        if !self.outer.is_empty() {
            return Ok(None);
        }
        match std::mem::replace(&mut self.mode, Mode::Start) {
            Mode::Atom(atom) => {
                self.level.push(atom)?;
                self.finished_level()
            }
            Mode::Piece => self.finished_level(),
            unfinished => {
                drop(unfinished);
                Ok(None)
            }
        }
    }

    fn goes(&mut self, mode: Mode) -> bool
        ensures { IsStep result self.new (Some (at_mode self.old mode)) }
    {
        self.mode = mode;
        true
    }

    // The first byte of an atom.
    fn start(&mut self, role: ByteRole, byte: u8) -> Result<bool, NoMemory>
        ensures { IfOk result (λ taken. IsStep taken self.new (start_step self.old role byte)) }
    {
        match role {
            ByteRole::Plain => Ok(self.goes(Mode::Atom(Regex::byte(byte)))),
            ByteRole::Dot => Ok(self.goes(Mode::Atom(Regex::any()))),
            ByteRole::ClassOpen => {
                self.class.negated = false;
                self.class.place = ClassPlace::Open;
                let _none = self.class.ranges.take();
                Ok(self.goes(Mode::Class))
            }
            ByteRole::GroupOpen => self.open_group(),
            ByteRole::Backslash => Ok(self.goes(Mode::Escape(EscapePlace::Start))),
            _ => Ok(false),
        }
    }

    fn open_group(&mut self) -> Result<bool, NoMemory>
        ensures { IfOk result (λ taken. IsStep taken self.new (group_start self.old)) }
    {
        if self.outer.len() >= GROUPS {
            return Ok(false);
        }
        let level = std::mem::replace(&mut self.level, Level::new(self.alloc));
        self.outer.push(level)?;
        Ok(self.goes(Mode::Start))
    }

    fn close_group(&mut self) -> Result<bool, NoMemory>
        ensures { IfOk result (λ taken. IsStep taken self.new (group_end self.old)) }
    {
        let Some(level) = self.outer.pop() else {
            return Ok(false);
        };
        let group = std::mem::replace(&mut self.level, level).finish()?;
        Ok(self.goes(Mode::Atom(group)))
    }

    // The byte behind a piece that is whole.
    fn after_piece(&mut self, role: ByteRole, byte: u8) -> Result<bool, NoMemory>
        ensures { IfOk result (λ taken. IsStep taken self.new (piece_step self.old role byte)) }
    {
        match role {
            ByteRole::Bar => {
                self.level.end_alternative()?;
                Ok(self.goes(Mode::Start))
            }
            ByteRole::GroupClose => self.close_group(),
            _ => self.start(role, byte),
        }
    }

    // The byte behind an atom that may be repeated.
    fn after_atom(&mut self, atom: Regex, role: ByteRole, byte: u8) -> Result<bool, NoMemory>
        ensures { IfOk result (λ taken. IsStep taken self.new (atom_step self.old atom role byte)) }
    {
        match role {
            ByteRole::Star => self.repeat(atom, 0, None),
            ByteRole::Plus => self.repeat(atom, 1, None),
            ByteRole::Question => self.repeat(atom, 0, Some(1)),
            ByteRole::BoundsOpen => Ok(self.goes(Mode::Bounds(atom, BoundsPlace::Start))),
            _ => {
                self.level.push(atom)?;
                self.after_piece(role, byte)
            }
        }
    }

    // The atom stands so many times.
    fn repeat(&mut self, atom: Regex, least: u8, most: Option<u8>) -> Result<bool, NoMemory>
        ensures { IfOk result (λ taken. IsStep taken self.new
            (Some (repeated self.old atom least most))) }
    {
        let piece = Regex::repeat(self.alloc, atom, Count { least, most })?;
        self.level.push(piece)?;
        Ok(self.goes(Mode::Piece))
    }

    fn escape(&mut self, step: EscapeStep) -> bool
        ensures { IsStep result self.new (escaped_step self.old step) }
    {
        match step {
            EscapeStep::Goes(place) => self.goes(Mode::Escape(place)),
            EscapeStep::Ends(b) => self.goes(Mode::Atom(Regex::byte(b))),
            EscapeStep::Refused => false,
        }
    }

    fn class(&mut self, byte: u8) -> Result<bool, NoMemory>
        ensures { IfOk result (λ taken. IsStep taken self.new
            (classed_step self.old (class_step self.old.class byte))) }
    {
        match self.class.step(byte)? {
            ClassStep::Goes => Ok(self.goes(Mode::Class)),
            ClassStep::Ends => {
                let ranges = self.class.ranges.take();
                let class = Regex::class(self.class.negated, ranges);
                Ok(self.goes(Mode::Atom(class)))
            }
            ClassStep::Refused => Ok(false),
        }
    }

    fn bounds(&mut self, atom: Regex, step: BoundsStep) -> Result<bool, NoMemory>
        ensures { IfOk result (λ taken. IsStep taken self.new (bounded_step self.old atom step)) }
    {
        match step {
            BoundsStep::Goes(place) => Ok(self.goes(Mode::Bounds(atom, place))),
            BoundsStep::Ends(count) => self.repeat(atom, count.least, count.most),
            BoundsStep::Refused => Ok(false),
        }
    }
}
