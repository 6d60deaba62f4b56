// What is pending, with data or a gap laid over it that are not put into the list: read in runs.
ghost use Rattle.std.specs.Prelude.{◌≡◌, ℕ, ◌+◌, ◌-◌, ◌<◌, ◌≤◌, ◌^◌, ◌++◌, length, map, IfOk, OnOk, take};
ghost use Rattle.sp_reasm.specs.Pieces.{IsSpot};
ghost use Rattle.sp_reasm.specs.Notes.{runs, undelivered_note};
ghost use Rattle.sp_reasm.specs.inside.Overlays.{owner_in, Fits, IsDataRun, IsLostRun, IsNext, IsStep, AreDelivered, data_in, overlaps_in};

use crate::note_list::Notes;
use crate::notes::Note;
use crate::pending::Pending;
use crate::piece::Spot;
use sp_base::{ByteList, NoMemory};
use std::alloc::Global;

/// What is pending, and what is laid over it from `start` on: it owns the numbers that have no owner.
#[derive(Clone, Copy)]
pub(crate) struct Overlay<'a> {
    pub(crate) pieces: &'a Pending,
    pub(crate) start: u64,
    pub(crate) cover: Spot<'a>,
}

/// Data from a number on.
#[derive(Drop)]
pub(crate) struct Run {
    pub(crate) start: u64,
    pub(crate) bytes: ByteList,
}

impl<'a> Overlay<'a> {
    /// What is there at a number and behind it.
    fn spot(&self, at: u64) -> Spot<'a>
        requires { Fits self.now }
        ensures { IsSpot (owner_in self.now) at result }
    {
        match self.pieces.spot(at) {
            Spot::Free(room) => self.cover.part(self.start, at, room),
            Spot::Bytes(bytes) => Spot::Bytes(bytes),
            Spot::Missing(len) => Spot::Missing(len),
        }
    }

    /// The data from a number on, up to another or where something else comes.
    fn data_run(&self, alloc: Global, from: u64, to: u64) -> Result<ByteList, NoMemory>
        requires { Fits self.now }
        ensures { IfOk result (IsDataRun (owner_in self.now) from to) }
    {
        let mut run = ByteList::new(alloc);
        let mut at = from;
        while at < to {
            let Spot::Bytes(bytes) = self.spot(at) else {
                return Ok(run);
            };
            let part = front(bytes, to - at);
            run.append(part)?;
            at += part.len() as u64;
        }
        Ok(run)
    }

    /// Where what is lost from a number on ends.
    fn lost_end(&self, from: u64) -> u64
        requires { Fits self.now }
        ensures { IsLostRun (owner_in self.now) from result }
    {
        let mut at = from;
        while let Spot::Missing(len) = self.spot(at) {
            at += len;
        }
        at
    }

    /// The first run of data between two numbers.
    fn next_data(&self, alloc: Global, from: u64, to: u64) -> Result<Option<Run>, NoMemory>
        requires { Fits self.now }
        ensures { IfOk result (IsNext (owner_in self.now) from to) }
    {
        let mut at = from;
        while at < to {
            match self.spot(at) {
                Spot::Bytes(_) => {
                    let bytes = self.data_run(alloc, at, to)?;
                    return Ok(Some(Run { start: at, bytes }));
                }
                Spot::Missing(len) => at += len,
                Spot::Free(len) => at += len,
            }
        }
        Ok(None)
    }

    /// Tells each run of data between two numbers as not delivered.
    pub(crate) fn undelivered(
        &self,
        alloc: Global,
        from: u64,
        to: u64,
        notes: &mut Notes,
    ) -> Result<(), NoMemory>
        requires { Fits self.now }
        ensures { OnOk result (notes.new
            ≡ notes.old ++ map undelivered_note (runs from (data_in (owner_in self.now) from to))) }
    {
        let mut at = from;
        while let Some(run) = self.next_data(alloc, at, to)? {
            let Run { start, bytes } = run;
            at = start + bytes.len() as u64;
            notes.push(Note::Undelivered { seq: start, bytes })?;
        }
        Ok(())
    }

    /// Tells where these bytes, from a number on, meet data that are pending.
    pub(crate) fn overlaps(
        &self,
        alloc: Global,
        from: u64,
        bytes: &[u8],
        notes: &mut Notes,
    ) -> Result<(), NoMemory>
        requires fits { Fits self.now }
        requires small { from + length bytes.now ≤ 2 ^ 62 }
        ensures { OnOk result (notes.new
            ≡ notes.old ++ overlaps_in (owner_in self.now) from bytes.now) }
    {
        let to = from + bytes.len() as u64;
        let mut at = from;
        while let Some(run) = self.next_data(alloc, at, to)? {
            let Run { start, bytes: old } = run;
            let past = (start - from) as usize;
            let new = ByteList::from_slice(alloc, &bytes[past..past + old.len()])?;
            at = start + old.len() as u64;
            notes.push(Note::Overlap {
                seq: start,
                old,
                new,
            })?;
        }
        Ok(())
    }

    /// Tells the run from a number on, and answers where it ends; nothing where the number has no owner.
    fn deliver_run(
        &self,
        alloc: Global,
        at: u64,
        notes: &mut Notes,
    ) -> Result<Option<u64>, NoMemory>
        requires { Fits self.now }
        ensures { IfOk result (λ next. IsStep (owner_in self.now) at next notes.old notes.new) }
    {
        match self.spot(at) {
            Spot::Bytes(_) => {
                let bytes = self.data_run(alloc, at, u64::MAX)?;
                let next = at + bytes.len() as u64;
                notes.push(Note::Deliver { seq: at, bytes })?;
                Ok(Some(next))
            }
            Spot::Missing(_) => {
                let next = self.lost_end(at);
                notes.push(Note::Gap {
                    seq: at,
                    len: next - at,
                })?;
                Ok(Some(next))
            }
            Spot::Free(_) => Ok(None),
        }
    }

    /// Tells what comes from a number on, up to the first without an owner, and answers that.
    pub(crate) fn deliver(
        &self,
        alloc: Global,
        from: u64,
        notes: &mut Notes,
    ) -> Result<u64, NoMemory>
        requires { Fits self.now }
        ensures { IfOk result (λ head.
            AreDelivered (owner_in self.now) from head notes.old notes.new) }
    {
        let mut at = from;
        while let Some(next) = self.deliver_run(alloc, at, notes)? {
            at = next;
        }
        Ok(at)
    }
}

/// The first bytes, so many at most.
fn front(bytes: &[u8], most: u64) -> &[u8]
    ensures { result.now ≡ take most bytes.now }
{
    if bytes.len() as u64 <= most {
        bytes
    } else {
        &bytes[..most as usize]
    }
}
