//! The program: its arguments are the words of a command, and it ends with the command's status.
#![tactic(auto)]

ghost use Rattle.std.specs.Prelude.{◌≡◌, ◌≢◌};
ghost use Rattle.std.specs.IoError.{error_kind};

use lab_store::{FolderStore, StdSink, StdSource};
use replica_cmd::run;
use std::alloc::Global;
use std::env::{self, Env};
use std::io::{self, ErrorKind};
use std::process::ExitCode;

/// The status where the arguments are not read because it ran out of memory.
const NO_MEMORY: u8 = 3;

/// The status where the arguments are not read for another cause, such as bytes that are not UTF-8. No command ends with it.
const NO_WORDS: u8 = 8;

/// The arguments without the program's own name.
fn words_of<R: Env>(rt: &R, alloc: Global) -> io::Result<Vec<String>> {
    Ok(env::args(&(rt, alloc))?.skip(1).collect(alloc)?)
}

/// The status where the arguments are not read.
fn status_of(error: &io::Error) -> u8
    ensures no_memory { error_kind error.now ≡ ErrorKind.OutOfMemory → result ≡ 3 }
    ensures another { error_kind error.now ≢ ErrorKind.OutOfMemory → result ≡ 8 }
{
    match error.kind() {
        ErrorKind::OutOfMemory => NO_MEMORY,
        _ => NO_WORDS,
    }
}

fn main(rt: HostRuntime) -> ExitCode {
    let words = match words_of(&rt, rt.alloc()) {
        Ok(words) => words,
        Err(error) => return ExitCode::from(status_of(&error)),
    };
    let mut store = FolderStore::of(&rt);
    let mut source = StdSource::of(rt.reader());
    let mut sink = StdSink::of(io::writer(&rt));
    let status = run(
        rt.alloc(),
        words.as_slice(),
        &mut store,
        &mut source,
        &mut sink,
    );
    ExitCode::from(status)
}
