//! The program: makes the files and the outputs of the system, and calls the library.
//!
//! It ends with the status that `run` gives, or, where it has no words for `run`, with 7 or 9 and without a line. So its
//! status is 0 to 9. The script that builds and starts it ends with 70 where there is no program to start.
#![tactic(auto)]

use cgl_app::run;
use cgl_outside::{DirShelf, StdSink};
use std::io::ErrorKind;
use std::process::ExitCode;
use std::{env, io};

/// Memory for the words is refused.
const NO_MEMORY: u8 = 7;

/// The system does not give the words.
const NO_WORDS: u8 = 9;

/// The program's name and the words behind it. Words that are not UTF-8 are of no command: none are given for them, and
/// the library refuses those.
fn given_words(rt: &HostRuntime) -> io::Result<Vec<String>> {
    match env::args(rt) {
        Ok(given) => Ok(given.collect(rt.alloc())?),
        Err(error) if error.kind() == ErrorKind::InvalidData => Ok(Vec::new(rt.alloc())),
        Err(error) => Err(error),
    }
}

/// The words behind the program's name. There may be no name: none stands for words that are not UTF-8.
fn behind_name(words: &[String]) -> &[String] {
    match words {
        [_, rest @ ..] => rest,
        [] => words,
    }
}

/// The status of the program that has no words.
fn status_without_words(error: io::Error) -> u8 {
    match error.kind() {
        ErrorKind::OutOfMemory => NO_MEMORY,
        _ => NO_WORDS,
    }
}

fn main(rt: HostRuntime) -> ExitCode {
    let mut shelf = DirShelf::new(&rt);
    let mut out = StdSink::output(&rt);
    let mut err = StdSink::error(&rt);
    match given_words(&rt) {
        Ok(words) => ExitCode::from(run(
            rt.alloc(),
            behind_name(&words),
            &mut shelf,
            &mut out,
            &mut err,
        )),
        Err(error) => ExitCode::from(status_without_words(error)),
    }
}
