//! The program `zimplc`: hands the words of the command, the folder that it runs in and the two
//! streams to [`zim_cli::run`], and ends with its status.
//!
//! Two endings come without a call of `run`, and print nothing: 6 where memory for the words is
//! refused, and 8 where a word isn't text.
#![tactic(auto)]

use std::env;
use std::io::{self, ErrorKind};
use std::process::ExitCode;
use zim_cli::{exit_number, run};
use zim_gate::{DiskFolder, StreamSink};

/// The ending where memory for the words is refused.
const NO_MEMORY: u8 = 6;

/// The ending where a word isn't text.
const NO_TEXT: u8 = 8;

/// The words of the command without the program's name.
fn words(rt: &HostRuntime) -> io::Result<Vec<String>> {
    let mut words = Vec::new(rt.alloc());
    for word in env::args(rt)?.skip(1) {
        words.push(word)?;
    }
    Ok(words)
}

/// The ending of a run whose words can't be had.
fn without_words(error: &io::Error) -> u8 {
    if error.kind() == ErrorKind::OutOfMemory {
        NO_MEMORY
    } else {
        NO_TEXT
    }
}

fn main(rt: HostRuntime) -> ExitCode {
    let words = match words(&rt) {
        Ok(words) => words,
        Err(error) => return ExitCode::from(without_words(&error)),
    };
    let mut folder = DiskFolder::new(rt.alloc(), &rt);
    let mut out = StreamSink::new(rt.stdout());
    let mut err = StreamSink::new(rt.stderr());
    let status = run(
        rt.alloc(),
        words.as_slice(),
        &mut folder,
        &mut out,
        &mut err,
    );
    ExitCode::from(exit_number(status))
}

#[cfg(test)]
mod faults;
#[cfg(test)]
mod runs;
#[cfg(test)]
mod tests;
#[cfg(test)]
mod texts;
