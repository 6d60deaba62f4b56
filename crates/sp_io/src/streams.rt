// A source over a reader and an output over a writer: the standard streams, and a file. Each error raises the count
// of faults. As a source or an output they tell no content, since the real thing tells none; what they do over a reader
// or a writer that tells its bytes is said by clauses of their own.
ghost use Rattle.std.specs.Prelude.{◌≡◌, ◌≢◌, ◌≤◌, [], None, Err, false, length, IfOk, MatchResult};
ghost use Rattle.std.specs.Io.Buffered.{reader_remaining};
ghost use Rattle.std.specs.Io.KnownBytes.{WriteAppends};
ghost use Rattle.sp_io.specs.Causes.{OutCause, SourceCause};
ghost use Rattle.sp_io.specs.Moved.{Takes, TakesTold, PutsTold};
ghost use Rattle.sp_io.specs.declared.traits.SourceFault.TheVariants as source_fault;

use crate::traits::{Out, OutFault, Source, SourceFault, Took};
use sp_base::{ByteList, NoMemory};
use std::alloc::Global;
use std::fs::File;
use std::io;
use std::io::{BufRead, BufReader, ErrorKind, Read, Stdin, Write};
use std::marker::Model;
use std::rt::Files;

/// How many bytes are read at once.
const CHUNK: usize = 65_536;

/// Reads again where a signal interrupted a read.
#[derive(Drop)]
struct Retrying<R> {
    inner: R,
}

impl<R: Read> Read for Retrying<R> {
    ghost remaining = { λ r. R.remaining r.inner };

    #[tactic(auto, using(crate::proofs::Told::keeps_more, crate::proofs::Told::read_again))]
    fn read(&mut self, buf: &mut [u8]) -> io::Result<usize> {
        for _ in 0..u64::MAX {
            match self.inner.read(buf) {
                Err(error) if error.kind() == ErrorKind::Interrupted => {}
                answer => return answer,
            }
        }
        Err(io::Error::from(ErrorKind::Interrupted))
    }
}

/// Reads in chunks, and again where a signal interrupted a read.
fn reader_of<R: Read + Drop>(alloc: Global, inner: R) -> Result<BufReader<Retrying<R>>, NoMemory>
    ensures { IfOk result (λ reader. reader_remaining (λ r. R.remaining r.inner) reader
        ≡ R.remaining inner) }
{
    BufReader::with_capacity(alloc, CHUNK, Retrying { inner }).map_err(|_| NoMemory)
}

/// Appends up to `most` bytes of what the reader has at hand, after a read where it has none.
fn take_from<R: BufRead>(
    reader: &mut R,
    most: u64,
    into: &mut ByteList,
) -> Result<Took, SourceFault>
    requires { 1 ≤ most }
    ensures takes { Takes most None None into.old into.new result }
    ensures told { TakesTold most (R.remaining reader.old) (R.remaining reader.new)
        into.old into.new result }
{
    let bytes = reader.fill_buf().map_err(|_| SourceFault::Failed)?;
    if bytes.is_empty() {
        return Ok(Took::End);
    }
    let count = bytes.len().min(most as usize);
    into.append(&bytes[..count])
        .map_err(|_| SourceFault::NoMemory)?;
    reader.consume(count);
    Ok(Took::Some)
}

/// The standard input, or another reader.
#[derive(Drop)]
pub struct StdSource<R: Read = Stdin> {
    reader: BufReader<Retrying<R>>,
    faults: u64,
}

impl<R: Read> Model for StdSource<R> {
    ghost use Rattle.std.specs.Io.Buffered.{reader_remaining};
    ghost use Rattle.sp_io.specs.Held.{ReaderState};

    ghost Value = { ReaderState };

    ghost view = { λ s. record {
      left = reader_remaining (λ r. R.remaining r.inner) s.reader;
      faults = s.faults;
    } };
}

impl<R: Read + Drop> StdSource<R> {
    /// Reads this standard input, or another reader, 65,536 bytes at a time.
    pub fn new(alloc: Global, reader: R) -> Result<StdSource<R>, NoMemory>
        ensures left { IfOk result (λ source. source.left ≡ R.remaining reader) }
        ensures faults { IfOk result (λ source. source.faults ≡ 0) }
    {
        let reader = reader_of(alloc, reader)?;
        Ok(StdSource { reader, faults: 0 })
    }
}

impl<R: Read + Drop> Source for StdSource<R> {
    ghost left = { λ _. None };

    ghost faults = { λ s. s.faults };

    fn take(&mut self, most: u64, into: &mut ByteList) -> Result<Took, SourceFault>
        requires { 1 ≤ most }
        ensures takes { Takes most None None into.old into.new result }
        ensures told { TakesTold most self.old.left self.new.left into.old into.new result }
        ensures cause { MatchResult result (λ _. self.new.faults ≡ self.old.faults)
            (SourceCause self.old.faults self.new.faults) }
    {
        let answer = take_from(&mut self.reader, most, into);
        if let Err(SourceFault::Failed) = answer {
            self.faults = self.faults.saturating_add(1);
        }
        answer
    }
}

/// A file. Where it couldn't be opened, each take fails.
#[derive(Drop)]
pub struct FileSource<F: Read> {
    reader: Option<BufReader<Retrying<F>>>,
    faults: u64,
}

impl<F: Read> Model for FileSource<F> {
    ghost use Rattle.std.specs.Prelude.{is_some, option_and_then};
    ghost use Rattle.std.specs.Io.Buffered.{reader_remaining};
    ghost use Rattle.sp_io.specs.Held.{FileState};

    ghost Value = { FileState };

    ghost view = { λ s. record {
      is_open = is_some s.reader;
      left = option_and_then (reader_remaining (λ r. F.remaining r.inner)) s.reader;
      faults = s.faults;
    } };
}

impl<F: Read + Drop> FileSource<F> {
    /// Opens the file at this path, which is read 65,536 bytes at a time.
    pub fn new<R: Files<File = F>>(
        alloc: Global,
        rt: &R,
        path: &str,
    ) -> Result<FileSource<F>, NoMemory>
        ensures { IfOk result (λ source. source.faults ≡ 0) }
    {
        let reader = match File::open(rt, path) {
            Ok(file) => Some(reader_of(alloc, file)?),
            Err(_) => None,
        };
        Ok(FileSource { reader, faults: 0 })
    }
}

impl<F: Read + Drop> Source for FileSource<F> {
    ghost left = { λ _. None };

    ghost faults = { λ s. s.faults };

    fn take(&mut self, most: u64, into: &mut ByteList) -> Result<Took, SourceFault>
        requires { 1 ≤ most }
        ensures takes { Takes most None None into.old into.new result }
        ensures told { TakesTold most self.old.left self.new.left into.old into.new result }
        ensures shut { self.old.is_open ≡ false → result ≡ Err source_fault.Failed }
        ensures cause { MatchResult result (λ _. self.new.faults ≡ self.old.faults)
            (SourceCause self.old.faults self.new.faults) }
    {
        let answer = match &mut self.reader {
            Some(reader) => take_from(reader, most, into),
            None => Err(SourceFault::Failed),
        };
        if let Err(SourceFault::Failed) = answer {
            self.faults = self.faults.saturating_add(1);
        }
        answer
    }
}

/// The standard output or the standard error output, or another writer.
#[derive(Drop)]
pub struct StdOut<W: Write> {
    writer: W,
    faults: u64,
}

impl<W: Write> Model for StdOut<W> {
    ghost use Rattle.sp_io.specs.Held.{WriterState};

    ghost Value = { WriterState };

    ghost view = { λ out. record { held = W.contents out.writer; faults = out.faults } };
}

impl<W: Write> StdOut<W> {
    /// Writes to this stream, without a buffer.
    pub fn new(writer: W) -> StdOut<W>
        ensures held { result.held ≡ W.contents writer }
        ensures faults { result.faults ≡ 0 }
    {
        StdOut { writer, faults: 0 }
    }
}

impl<W: Write> Out for StdOut<W> {
    ghost held = { λ _. None };

    ghost faults = { λ out. out.faults };

    fn put(&mut self, piece: &[u8]) -> Result<u64, OutFault>
        requires { piece.now ≢ [] }
        ensures count { IfOk result (λ n. (1 ≤ n) × (n ≤ length piece.now)) }
        ensures told { PutsTold self.old.held self.new.held piece.now result }
        ensures cause { MatchResult result (λ _. self.new.faults ≡ self.old.faults)
            (OutCause self.old.faults self.new.faults) }
    {
        match write_retrying(&mut self.writer, piece) {
            Ok(count) if count > 0 => Ok(count as u64),
            _ => {
                self.faults = self.faults.saturating_add(1);
                Err(OutFault::Failed)
            }
        }
    }
}

/// Writes once, and again where a signal interrupted that.
#[tactic(auto, using(crate::proofs::Told::keeps_more, crate::proofs::Told::write_again))]
fn write_retrying<W: Write>(writer: &mut W, piece: &[u8]) -> io::Result<usize>
    ensures count { IfOk result (λ count. count ≤ length piece.now) }
    ensures bytes { WriteAppends (W.contents writer.old) (W.contents writer.new) result piece.now }
{
    for _ in 0..u64::MAX {
        match writer.write(piece) {
            Err(error) if error.kind() == ErrorKind::Interrupted => {}
            answer => return answer,
        }
    }
    Err(io::Error::from(ErrorKind::Interrupted))
}
