// A sink: the calls, each by its definition.
ghost use Rattle.std.specs.Prelude.{◌≡◌, ℕ, ◌+◌, ◌-◌, ◌≤◌, ◌^◌, ◌++◌, length, drop, min, IfOk, OnOk, OnErr};
ghost use Rattle.sp_reasm.specs.Sink.{Sink, new_sink, next_number, write as write_call, gap as gap_call, skip as skip_call, close as close_call, set_initial as set_initial_call};
ghost use Rattle.sp_reasm.specs.State.{StandsFor, Answers, IsSet};
ghost use Rattle.sp_reasm.specs.inside.Settling.{Settles, IsWritten, IsLost, IsGivenUp, checked, number_or, reached, given_up, closing};
ghost use Rattle.sp_reasm.specs.Pieces.{spot_len, laid};

use crate::fill::fill;
use crate::note_list::Notes;
use crate::notes::{Note, ReasmFault};
use crate::overlay::Overlay;
use crate::pending::Pending;
use crate::piece::Spot;
use sp_base::{NoMemory, PKind};
use std::alloc::Global;

/// The last number at which a call may end.
const LAST: u64 = 1 << 62;

/// A sink's data, in order of their sequence numbers: what has come but cannot be delivered yet. It takes a time that
/// grows with what a call brings and with what it delivers, and as the logarithm of how much is pending; only a gap
/// goes over the pieces that it spans. Its memory is what is pending.
#[derive(Drop)]
pub struct Reasm {
    alloc: Global,
    pieces: Pending,
    /// The first sequence number.
    initial: u64,
    /// Up to where all was delivered, skipped or reached as a gap.
    head: u64,
    /// Where a write without a number begins.
    top: u64,
    /// Whether there was a write, a gap or a skip.
    begun: bool,
    closed: bool,
}

impl Reasm {
    /// A new sink. Takes no memory.
    pub fn new(alloc: Global) -> Reasm
        ensures { StandsFor result new_sink }
    {
        Reasm {
            alloc,
            pieces: Pending::new(alloc),
            initial: 0,
            head: 0,
            top: 0,
            begun: false,
            closed: false,
        }
    }

    /// The sequence number at which a write without a number begins. Takes no memory.
    pub fn next(&self) -> u64
        ensures { (sink : Sink) → StandsFor self.now sink → result ≡ next_number sink }
    {
        self.top
    }

    /// Data from a sequence number on, or from `next` on.
    pub fn write(
        &mut self,
        seq: Option<u64>,
        bytes: &[u8],
        notes: &mut Notes,
    ) -> Result<(), ReasmFault>
        ensures { (sink : Sink) → StandsFor self.old sink
            → Answers sink (write_call seq bytes.now) result self.old self.new notes.old notes.new }
    {
        let at = number_or(seq, self.top);
        self.check(at, bytes.len() as u64)?;
        self.put_data(at, bytes, notes)?;
        Ok(())
    }

    /// So many positions from a sequence number on are lost.
    pub fn gap(&mut self, seq: u64, len: u64, notes: &mut Notes) -> Result<(), ReasmFault>
        ensures { (sink : Sink) → StandsFor self.old sink
            → Answers sink (gap_call seq len) result self.old self.new notes.old notes.new }
    {
        self.check(seq, len)?;
        self.put_gap(seq, len, notes)?;
        Ok(())
    }

    /// All before a sequence number is given up.
    pub fn skip(&mut self, seq: u64, notes: &mut Notes) -> Result<(), ReasmFault>
        ensures { (sink : Sink) → StandsFor self.old sink
            → Answers sink (skip_call seq) result self.old self.new notes.old notes.new }
    {
        self.check(seq, 0)?;
        self.give_up(seq, notes)?;
        Ok(())
    }

    /// Gives up what is pending and begins anew, or closes for good where this is the last call.
    pub fn close(&mut self, last: bool, notes: &mut Notes) -> Result<(), ReasmFault>
        ensures { (sink : Sink) → StandsFor self.old sink
            → Answers sink (close_call last) result self.old self.new notes.old notes.new }
    {
        if self.closed {
            return Ok(());
        }
        self.tell_close(notes)?;
        self.pieces.clear();
        self.initial = 0;
        self.head = 0;
        self.top = 0;
        self.begun = false;
        self.closed = last;
        Ok(())
    }

    /// Sets the first sequence number, before the first write, gap or skip.
    pub fn set_initial(&mut self, n: u64) -> Result<(), ReasmFault>
        ensures { (sink : Sink) → StandsFor self.old sink
            → IsSet sink (set_initial_call n) result self.old self.new }
    {
        if self.closed {
            return Ok(());
        }
        if self.begun {
            return Err(ReasmFault::Run(PKind::LateInitial));
        }
        self.initial = n;
        self.head = n;
        self.top = n;
        Ok(())
    }
}

impl Reasm {
    /// Refuses a call that ends past the last number, or begins before the first, or comes after the sink has closed.
    fn check(&self, seq: u64, len: u64) -> Result<(), ReasmFault>
        ensures { result ≡ checked self.now.closed self.now.initial seq len }
    {
        if self.closed {
            return Err(ReasmFault::Run(PKind::SinkClosed));
        }
        if seq < self.initial || LAST < seq || LAST - seq < len {
            return Err(ReasmFault::Run(PKind::Overflow));
        }
        Ok(())
    }

    /// Data from a number on: those below the head are dropped.
    fn put_data(&mut self, at: u64, bytes: &[u8], notes: &mut Notes) -> Result<(), NoMemory>
        requires { at + length bytes.now ≤ 2 ^ 62 }
        ensures ok { OnOk result (IsWritten self.old self.new at bytes.now notes.old notes.new) }
        ensures err { OnErr result (self.new ≡ self.old) }
        ensures err_notes { OnErr result (notes.new ≡ notes.old) }
    {
        let len = bytes.len() as u64;
        let past = passed(self.head, at, len);
        let start = at + past;
        let rest = behind(bytes, past);
        let mut told = Notes::new(self.alloc);
        let pending = Overlay {
            pieces: &self.pieces,
            start: 0,
            cover: Spot::Free(0),
        };
        pending.overlaps(self.alloc, start, rest, &mut told)?;
        let top = reached(self.top, len, at + len);
        self.settle(start, Spot::Bytes(rest), top, self.head, told, notes)
    }

    /// A gap from a number on: what is below the head is dropped.
    fn put_gap(&mut self, at: u64, len: u64, notes: &mut Notes) -> Result<(), NoMemory>
        requires { at + len ≤ 2 ^ 62 }
        ensures ok { OnOk result (IsLost self.old self.new at len notes.old notes.new) }
        ensures err { OnErr result (self.new ≡ self.old) }
        ensures err_notes { OnErr result (notes.new ≡ notes.old) }
    {
        let past = passed(self.head, at, len);
        let top = reached(self.top, len, at + len);
        let told = Notes::new(self.alloc);
        let cover = Spot::Missing(len - past);
        self.settle(at + past, cover, top, self.head, told, notes)
    }

    /// Gives up what is below a number.
    fn give_up(&mut self, seq: u64, notes: &mut Notes) -> Result<(), NoMemory>
        ensures ok { OnOk result (IsGivenUp self.old self.new seq notes.old notes.new) }
        ensures err { OnErr result (self.new ≡ self.old) }
        ensures err_notes { OnErr result (notes.new ≡ notes.old) }
    {
        let told = self.given_up(seq)?;
        let from = self.head.max(seq);
        self.settle(0, Spot::Free(0), self.top, from, told, notes)
    }

    /// What a skip to a number tells before anything is delivered.
    fn given_up(&self, seq: u64) -> Result<Notes, NoMemory>
        ensures { IfOk result (λ told. told ≡ given_up self.now seq) }
    {
        let mut told = Notes::new(self.alloc);
        if seq <= self.head {
            return Ok(told);
        }
        let pending = Overlay {
            pieces: &self.pieces,
            start: 0,
            cover: Spot::Free(0),
        };
        pending.undelivered(self.alloc, self.head, seq, &mut told)?;
        told.push(Note::Skipped { seq })?;
        Ok(told)
    }

    /// Tells that all that is pending is given up, and that the input ends; or changes nothing.
    fn tell_close(&self, notes: &mut Notes) -> Result<(), NoMemory>
        ensures ok { OnOk result (notes.new ≡ notes.old ++ closing self.now) }
        ensures err { OnErr result (notes.new ≡ notes.old) }
    {
        let mut told = Notes::new(self.alloc);
        let pending = Overlay {
            pieces: &self.pieces,
            start: 0,
            cover: Spot::Free(0),
        };
        pending.undelivered(self.alloc, self.head, self.top, &mut told)?;
        told.push(Note::Closed)?;
        notes.append(told)
    }

    /// Delivers from a number on, tells it behind `told`, and puts what cannot be delivered yet into the list; or
    /// changes nothing.
    fn settle(
        &mut self,
        start: u64,
        cover: Spot<'_>,
        top: u64,
        from: u64,
        told: Notes,
        notes: &mut Notes,
    ) -> Result<(), NoMemory>
        requires { start + spot_len cover ≤ 2 ^ 62 }
        ensures ok { OnOk result (Settles self.old self.new (laid start cover.entry) top from told
            notes.old notes.new) }
        ensures err { OnErr result (self.new ≡ self.old) }
        ensures err_notes { OnErr result (notes.new ≡ notes.old) }
    {
        let mut told = told;
        let overlay = Overlay {
            pieces: &self.pieces,
            start,
            cover,
        };
        let head = overlay.deliver(self.alloc, from, &mut told)?;
        let kept = notes.len();
        notes.append(told)?;
        if fill(self.alloc, &mut self.pieces, start, cover, start.max(head)).is_err() {
            notes.truncate(kept);
            return Err(NoMemory);
        }
        self.pieces.drop_below(head);
        self.head = head;
        self.top = top.max(head);
        self.begun = true;
        Ok(())
    }
}

/// The number at which a write begins.
fn number_or(seq: Option<u64>, top: u64) -> u64
    ensures { result ≡ number_or seq top }
{
    match seq {
        Some(seq) => seq,
        None => top,
    }
}

/// How many positions, of so many from a number on, are below the head.
fn passed(head: u64, at: u64, len: u64) -> u64
    ensures { result ≡ min (head - at) len }
{
    head.saturating_sub(at).min(len)
}

/// The bytes without the first.
fn behind(bytes: &[u8], past: u64) -> &[u8]
    requires { past ≤ length bytes.now }
    ensures { result.now ≡ drop past bytes.now }
{
    &bytes[past as usize..]
}

/// Where the next write without a number begins: an empty one covers nothing.
fn reached(top: u64, len: u64, end: u64) -> u64
    ensures { result ≡ reached top len end }
{
    if len == 0 { top } else { top.max(end) }
}
