//! Answers a table of cases, for tests of the parser: `stdin` has for each rule of the grammar statements, and
//! texts that are no statement; `stdout` has behind each the tree that it spells, or its fault. The trees and
//! faults there were written by hand.
//!
//! A case is a line: a word that says what is asked, and a text that is cut at blanks into tokens, each on a
//! line of its own, the first on line 1. `tree` asks for the tree without places, `places` with them, `spelling`
//! whether a copy of the tree spells the tokens that were read, and `nested` whether it is a statement, where
//! the text is `param p := `, so often a beginning, a middle, so often an end, and `;`. Empty lines and those
//! that begin with `#` stay as they are.
#![tactic(auto)]

mod cases;
mod nested;
mod tokens;

use cases::answers;
use std::io::{self, ErrorKind, Write};

fn main(rt: HostRuntime) -> io::Result<()> {
    let table = io::read_to_string(rt.alloc(), rt.reader())?;
    let Ok(page) = answers(rt.alloc(), table.as_str()) else {
        return Err(io::Error::from(ErrorKind::OutOfMemory));
    };
    let mut out = io::writer(&rt);
    out.write_all(page.as_slice())
}
