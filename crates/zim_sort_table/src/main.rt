//! Answers a table of cases, for tests of the sorter: `stdin` has statements in the order of a model, and
//! `stdout` has behind each whether it has a static fault, with the token that this is marked at. The faults
//! there were written by hand.
//!
//! A case is a line. `model` begins anew, without names. `declare` and a text, which is cut at blanks into
//! tokens, each on a line of its own, the first on line 1, is a statement that is sorted and, where it has no
//! fault, declared; `sort` and a text is one that is sorted alone, `parse` and a text one that is only parsed,
//! and `cut` and a text is only cut into tokens. `chain` and a count declares so many functions, named `f1`,
//! `f2` and so on, each of which calls the one before, and answers for the last. Empty lines and those that
//! begin with `#` stay as they are.
#![tactic(auto)]

mod cases;
mod chains;

use cases::answers;
use std::io::{self, ErrorKind, Write};

fn main(rt: HostRuntime) -> io::Result<()> {
    let table = io::read_to_string(rt.alloc(), rt.reader())?;
    let Ok(page) = answers(rt.alloc(), table.as_str()) else {
        return Err(io::Error::from(ErrorKind::OutOfMemory));
    };
    let mut out = io::writer(&rt);
    out.write_all(page.as_slice())
}
