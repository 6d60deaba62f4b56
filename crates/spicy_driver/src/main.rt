//! The command `spicy-driver`: the driver over the real files and streams.
#![tactic(auto)]

use sp_base::{NoMemory, Text};
use sp_driver::spicy_driver;
use sp_io::{DirModules, StdOut, StdSource};
use std::env;
use std::io::ErrorKind;
use std::process::ExitCode;
use std::rt::Env;

/// The words after the program's name. Where one is no UTF-8 text there are none, which is a usage fault.
fn words_of<R: Env + AllocGlobal>(rt: &R) -> Result<Vec<Text>, NoMemory> {
    let mut words = Vec::new(rt.alloc());
    match env::args(rt) {
        Ok(args) => {
            for word in args.skip(1) {
                words.push(Text::new(rt.alloc(), word.as_str())?)?;
            }
            Ok(words)
        }
        Err(error) if error.kind() == ErrorKind::OutOfMemory => Err(NoMemory),
        Err(_) => Ok(words),
    }
}

fn main(rt: HostRuntime) -> ExitCode {
    let alloc = rt.alloc();
    let Ok(words) = words_of(&rt) else {
        return ExitCode::from(7);
    };
    let Ok(mut input) = StdSource::new(alloc, rt.stdin()) else {
        return ExitCode::from(7);
    };
    let mut modules = DirModules::new(alloc, &rt);
    let mut out = StdOut::new(rt.stdout());
    let mut err = StdOut::new(rt.stderr());
    let status = spicy_driver(
        alloc,
        words.as_slice(),
        &mut modules,
        &mut input,
        &mut out,
        &mut err,
    );
    ExitCode::from(status)
}
