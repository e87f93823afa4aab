//! `eacsl` runs annotated C: it checks each annotation as it is reached, and names the first that is false or undefined.
#![tactic(auto)]

use ea_ports::{FileFolder, ReadSource, WriteSink};
use eacsl_cli::{eacsl, status};
use std::process::ExitCode;
use std::{env, io};

// The words of the command line without the program's name.
fn words(rt: &HostRuntime) -> io::Result<Vec<String>> {
    Ok(env::args(rt)?.skip(1).collect(rt.alloc())?)
}

fn main(rt: HostRuntime) -> ExitCode {
    let words = match words(&rt) {
        Ok(words) => words,
        Err(error) if error.kind() == io::ErrorKind::OutOfMemory => return ExitCode::from(
            status::OUT_OF_MEMORY,
        ),
        Err(_) => return ExitCode::from(status::NO_WORDS),
    };
    let mut input = ReadSource::new(rt.stdin());
    let mut out = WriteSink::new(rt.stdout());
    let mut err = WriteSink::new(rt.stderr());
    let alloc = rt.alloc();
    let mut files = FileFolder::new(rt);
    ExitCode::from(eacsl(alloc, words, &mut files, &mut input, &mut out, &mut err))
}
