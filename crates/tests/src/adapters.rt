// Each adapter over the real thing once, and over fakes that fail in mid-stream; and a table over the objects in memory.
ghost use Rattle.std.specs.Prelude.{◌≡◌};

use sp_base::{ByteList, Text, or_drop};
use sp_io::{
    DirModules, FileSource, MemModules, MemOut, MemSource, Modules, Out, Source, StdOut, StdSource,
    SureModules, SureOut, SureSource, Took, put_all,
};
use std::alloc::Global;
use std::io::{ErrorKind, Read, Write};
use std::path::PathBuf;
use std::process::Abort;
use std::test::Fail;
use std::{env, fs, io, process};

/// Makes a small file whose name holds this word and the number of the process, and answers its path.
fn small_file(rt: &HostRuntime, word: &str) -> Result<PathBuf, Fail> {
    let process = process::id(rt.process());
    let name = format!(in rt.alloc(); "sp_io_{word}_{process}.spicy")?;
    let folder = or_drop!(env::temp_dir(rt); name);
    let path = folder.join(rt.alloc(), &name);
    drop(folder);
    drop(name);
    let path = path?;
    or_drop!(fs::write(rt, &path, "module Small;\n"); path);
    Ok(path)
}

/// What the takes of these sizes append, each followed by `|`; `!` stands for a fault, `.` for the end.
fn takes<S: Source>(alloc: Global, source: &mut S, sizes: &[u64]) -> Result<ByteList, Fail> {
    let mut told = ByteList::new(alloc);
    for size in sizes {
        let mark = match source.take((*size).max(1), &mut told) {
            Ok(Took::Some) => b'|',
            Ok(Took::End) => b'.',
            Err(_) => b'!',
        };
        told.push(mark)?;
    }
    Ok(told)
}

/// What the reads of these paths answer, each followed by `|`; `!` stands for a fault, `-` for no such file.
fn reads<M: Modules>(alloc: Global, modules: &mut M, paths: &[&str]) -> Result<ByteList, Fail> {
    let mut told = ByteList::new(alloc);
    for path in paths {
        let mark = match modules.read(path) {
            Ok(Some(bytes)) => {
                let added = told.append(bytes.as_slice());
                drop(bytes);
                or_drop!(added; told);
                b'|'
            }
            Ok(None) => b'-',
            Err(_) => b'!',
        };
        told.push(mark)?;
    }
    Ok(told)
}

/// One mark for each put of these pieces: `+`, or `!` for a fault.
fn puts<O: Out>(alloc: Global, out: &mut O, pieces: &[&str]) -> Result<ByteList, Fail> {
    let mut told = ByteList::new(alloc);
    for piece in pieces {
        if !piece.is_empty() {
            let mark = match out.put(piece.as_bytes()) {
                Ok(_) => b'+',
                Err(_) => b'!',
            };
            told.push(mark)?;
        }
    }
    Ok(told)
}

/// Asserts that this is told.
fn tells(rt: &impl Abort, told: Result<ByteList, Fail>, want: &[u8]) -> Result<(), Fail> {
    let told = told?;
    assert_eq!(rt; told.as_slice(), want);
    Ok(())
}

fn pieces_of(alloc: Global, texts: &[&str]) -> Result<Vec<ByteList>, Fail> {
    let mut pieces = Vec::new(alloc);
    for text in texts {
        let piece = or_drop!(ByteList::from_slice(alloc, text.as_bytes()); pieces);
        or_drop!(pieces.push(piece); pieces);
    }
    Ok(pieces)
}

fn files_of(alloc: Global, files: &[(&str, &str)]) -> Result<Vec<(Text, ByteList)>, Fail> {
    let mut held = Vec::new(alloc);
    for file in files {
        let bytes = or_drop!(ByteList::from_slice(alloc, file.1.as_bytes()); held);
        let path = or_drop!(Text::new(alloc, file.0); held, bytes);
        or_drop!(held.push((path, bytes)); held);
    }
    Ok(held)
}

/// What a fake does at a call.
#[derive(Clone, Copy)]
enum Act {
    /// It gives or takes at most this many bytes.
    Bytes(usize),
    /// A signal interrupts it.
    Interrupted,
    /// It fails.
    Fails,
}

/// A reader of the text and a writer that holds bytes, by a list of acts. Behind the list it reads and writes nothing.
#[derive(Drop)]
struct Fake {
    text: &'static [u8],
    held: ByteList,
    acts: &'static [Act],
    call: usize,
}

impl Fake {
    fn new(alloc: Global, text: &'static [u8], acts: &'static [Act]) -> Fake {
        Fake {
            text,
            held: ByteList::new(alloc),
            acts,
            call: 0,
        }
    }

    /// How many bytes the next call moves at most.
    fn next(&mut self) -> io::Result<usize> {
        let act = self.acts.get(self.call).copied();
        self.call = self.call.saturating_add(1);
        match act {
            Some(Act::Bytes(most)) => Ok(most),
            Some(Act::Interrupted) => Err(io::Error::from(ErrorKind::Interrupted)),
            Some(Act::Fails) => Err(io::Error::from(ErrorKind::Other)),
            None => Ok(0),
        }
    }
}

impl Read for Fake {
    fn read(&mut self, buf: &mut [u8]) -> io::Result<usize> {
        let count = self.next()?.min(buf.len()).min(self.text.len());
        let text = self.text;
        buf[..count].copy_from_slice(&text[..count]);
        self.text = &text[count..];
        Ok(count)
    }
}

impl Write for Fake {
    fn write(&mut self, buf: &[u8]) -> io::Result<usize> {
        let count = self.next()?.min(buf.len());
        match self.held.append(&buf[..count]) {
            Ok(()) => Ok(count),
            Err(_) => Err(io::Error::from(ErrorKind::OutOfMemory)),
        }
    }

    fn flush(&mut self) -> io::Result<()> {
        Ok(())
    }
}

#[test]
fn takes_from_a_reader_that_fails_in_mid_stream(rt: HostRuntime) -> Result<(), Fail> {
    let acts = &[
        Act::Bytes(3),
        Act::Interrupted,
        Act::Bytes(1),
        Act::Fails,
        Act::Bytes(9),
    ];
    let fake = Fake::new(rt.alloc(), b"abcdef", acts);
    let mut source = StdSource::new(rt.alloc(), fake)?;
    let told = takes(rt.alloc(), &mut source, &[2, 9, 9, 9, 1, 9, 9]);
    drop(source);
    tells(&rt, told, b"ab|c|d|!e|f|.")
}

/// How many bytes of three are taken, and whether two later puts fail, behind one that goes on until all is taken.
fn fails_in_mid_stream(out: &mut StdOut<Fake>) -> Result<(u64, bool, bool), Fail>
    requires { out.old.faults ≡ 0 }
{
    let count = out.put(b"abc")?;
    put_all(out, b"cdef")?;
    let first_fails = out.put(b"g").is_err();
    let second_fails = out.put(b"h").is_err();
    Ok((count, first_fails, second_fails))
}

#[test]
fn puts_into_a_writer_that_writes_less_and_fails(rt: HostRuntime) -> Result<(), Fail> {
    let acts = &[
        Act::Bytes(2),
        Act::Interrupted,
        Act::Bytes(1),
        Act::Bytes(9),
        Act::Fails,
        Act::Bytes(0),
    ];
    let mut out = StdOut::new(Fake::new(rt.alloc(), b"", acts));
    let told = fails_in_mid_stream(&mut out);
    drop(out);
    assert_eq!(rt; told?, (2, true, true));
    Ok(())
}

/// The path of a file whose name holds the number of the process.
fn long_path(rt: &HostRuntime) -> Result<PathBuf, Fail> {
    let process = process::id(rt.process());
    let name = format!(in rt.alloc(); "sp_io_long_{process}.spicy")?;
    let folder = or_drop!(env::temp_dir(rt); name);
    let path = folder.join(rt.alloc(), &name);
    drop(folder);
    drop(name);
    Ok(path?)
}

/// Makes a file of so many bytes, and answers how many bytes are told of a read of it.
fn told_length<M: Modules>(
    rt: &HostRuntime,
    modules: &mut M,
    path: &PathBuf,
    length: usize,
) -> Result<usize, Fail> {
    let text = vec![in rt.alloc(); b' '; length]?;
    let written = fs::write(rt, path, text.as_slice());
    drop(text);
    written?;
    let told = reads(rt.alloc(), modules, &[path.as_str()])?;
    let length = told.len();
    drop(told);
    Ok(length)
}

/// Those of files of as many bytes as a module may have, of one more, and of two more.
fn told_lengths(rt: &HostRuntime, path: &PathBuf) -> Result<(usize, usize, usize), Fail> {
    let mut modules = DirModules::new(rt.alloc(), rt);
    let most = told_length(rt, &mut modules, path, 1_048_576)?;
    let one_more = told_length(rt, &mut modules, path, 1_048_577)?;
    let two_more = told_length(rt, &mut modules, path, 1_048_578)?;
    fs::remove_file(rt, path)?;
    Ok((most, one_more, two_more))
}

/// A module of one byte more than a module may have is read whole; of a longer one, no more than that.
#[test]
fn reads_one_byte_more_than_a_module_may_have(rt: HostRuntime) -> Result<(), Fail> {
    let path = long_path(&rt)?;
    let told = told_lengths(&rt, &path);
    drop(path);
    assert_eq!(rt; told?, (1_048_577, 1_048_578, 1_048_578));
    Ok(())
}

/// What was told, once the file is removed.
fn removed_after(
    rt: &HostRuntime,
    path: PathBuf,
    told: Result<ByteList, Fail>,
) -> Result<ByteList, Fail> {
    let removed = fs::remove_file(rt, &path);
    drop(path);
    let told = told?;
    or_drop!(removed; told);
    Ok(told)
}

/// What is told of a path below a file, and of two that are too long for the system.
fn reads_of_none(rt: &HostRuntime, path: &PathBuf) -> Result<ByteList, Fail> {
    let below = format!(in rt.alloc(); "{}/x.spicy", path.as_str())?;
    let mut long = String::new(rt.alloc());
    for _ in 0..500 {
        or_drop!(long.push_str("a long name/"); below, long);
    }
    let name = or_drop!(format!(in rt.alloc(); "{:0>300}", 1); below, long);
    let mut modules = DirModules::new(rt.alloc(), rt);
    let told = reads(
        rt.alloc(),
        &mut modules,
        &[below.as_str(), long.as_str(), name.as_str()],
    );
    drop(below);
    drop(long);
    drop(name);
    told
}

/// Nothing stands below a file, nor at a path that is too long for the system.
#[test]
fn finds_no_module_where_none_can_be(rt: HostRuntime) -> Result<(), Fail> {
    let path = small_file(&rt, "below")?;
    let told = reads_of_none(&rt, &path);
    let told = removed_after(&rt, path, told);
    tells(&rt, told, b"---")
}

#[test]
fn reads_modules_in_folders(rt: HostRuntime) -> Result<(), Fail> {
    let path = small_file(&rt, "modules")?;
    let mut modules = DirModules::new(rt.alloc(), &rt);
    // A directory can't be read.
    let told = reads(rt.alloc(), &mut modules, &[path.as_str(), ".", "./absent"]);
    let told = removed_after(&rt, path, told);
    tells(&rt, told, b"module Small;\n|!-")
}

#[test]
fn reads_the_front_of_a_file_without_an_end(rt: HostRuntime) -> Result<(), Fail> {
    let mut modules = DirModules::new(rt.alloc(), &rt);
    let told = reads(rt.alloc(), &mut modules, &["/dev/zero"])?;
    let length = told.len();
    drop(told);
    assert_eq!(rt; length, 1_048_578);
    Ok(())
}

/// What is taken from a file that is removed once it is open.
fn takes_of_removed(rt: &HostRuntime, path: PathBuf) -> Result<ByteList, Fail> {
    let source = FileSource::new(rt.alloc(), rt, path.as_str());
    let removed = fs::remove_file(rt, &path);
    drop(path);
    let mut source = source?;
    or_drop!(removed; source);
    let told = takes(rt.alloc(), &mut source, &[6, 65_536, 1]);
    drop(source);
    told
}

#[test]
fn reads_a_file(rt: HostRuntime) -> Result<(), Fail> {
    let path = small_file(&rt, "file")?;
    let told = takes_of_removed(&rt, path);
    tells(&rt, told, b"module| Small;\n|.")
}

#[test]
fn fails_at_each_take_from_no_file(rt: HostRuntime) -> Result<(), Fail> {
    let mut source = FileSource::new(rt.alloc(), &rt, "./absent")?;
    let told = takes(rt.alloc(), &mut source, &[1, 1]);
    drop(source);
    tells(&rt, told, b"!!")
}

#[test]
fn reads_the_standard_input(rt: HostRuntime) -> Result<(), Fail> {
    let mut source = StdSource::new(rt.alloc(), rt.stdin())?;
    let told = takes(rt.alloc(), &mut source, &[1]);
    drop(source);
    tells(&rt, told, b".")
}

#[test]
fn writes_the_standard_streams(rt: HostRuntime) -> Result<(), Fail> {
    let mut out = StdOut::new(rt.stdout());
    let put = put_all(&mut out, b"out\n");
    drop(out);
    put?;
    let mut err = StdOut::new(rt.stderr());
    let put = put_all(&mut err, b"err\n");
    drop(err);
    put?;
    Ok(())
}

const SIZES: [u64; 6] = [3, 9, 9, 2, 9, 9];

#[test]
fn takes_from_memory(rt: HostRuntime) -> Result<(), Fail> {
    let pieces = pieces_of(rt.alloc(), &["", "abcd", "", "", "ef", ""])?;
    let source = MemSource::new(rt.alloc(), pieces.as_slice(), &[1]);
    drop(pieces);
    let mut source = source?;
    let told = takes(rt.alloc(), &mut source, &SIZES);
    drop(source);
    tells(&rt, told, b"abc|!d|ef|..")
}

#[test]
fn takes_surely(rt: HostRuntime) -> Result<(), Fail> {
    let pieces = pieces_of(rt.alloc(), &["", "abcd", "", "", "ef", ""])?;
    let source = SureSource::new(rt.alloc(), pieces.as_slice());
    drop(pieces);
    let mut source = source?;
    let told = takes(rt.alloc(), &mut source, &SIZES);
    drop(source);
    tells(&rt, told, b"abc|d|ef|...")
}

const FILES: [(&str, &str); 3] = [("a", "first"), ("b", "other"), ("a", "second")];

const PATHS: [&str; 4] = ["a", "a", "b", "c"];

#[test]
fn reads_from_memory(rt: HostRuntime) -> Result<(), Fail> {
    let files = files_of(rt.alloc(), &FILES)?;
    let modules = MemModules::new(rt.alloc(), files.as_slice(), &[0]);
    drop(files);
    let mut modules = modules?;
    let told = reads(rt.alloc(), &mut modules, &PATHS);
    drop(modules);
    tells(&rt, told, b"!first|other|-")
}

#[test]
fn reads_surely(rt: HostRuntime) -> Result<(), Fail> {
    let files = files_of(rt.alloc(), &FILES)?;
    let modules = SureModules::new(rt.alloc(), files.as_slice());
    drop(files);
    let mut modules = modules?;
    let told = reads(rt.alloc(), &mut modules, &PATHS);
    drop(modules);
    tells(&rt, told, b"first|first|other|-")
}

#[test]
fn puts_into_memory(rt: HostRuntime) -> Result<(), Fail> {
    let mut out = MemOut::new(rt.alloc(), &[1])?;
    let told = puts(rt.alloc(), &mut out, &["ab", "cd", "ef"]);
    drop(out);
    tells(&rt, told, b"+!+")
}

#[test]
fn puts_surely(rt: HostRuntime) -> Result<(), Fail> {
    let mut out = SureOut::new(rt.alloc())?;
    or_drop!(put_all(&mut out, b"abc"); out);
    let is_written = out.written() == b"abc".as_slice();
    drop(out);
    assert!(rt; is_written);
    Ok(())
}
