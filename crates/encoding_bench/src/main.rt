//! Makes a conjunction of conditions rows, to be timed from outside: `encoding_bench CONDITIONS`.
//!
//! The conditions are `x1 >= 1 and x2 >= 1 and ..`, each of a binary column of its own, as one chain. It prints how many
//! columns and rows the system has then: from 1 condition on two columns and two rows for each, and one column and two
//! rows for each `and`.
#![tactic(auto)]

mod conjunction;
mod encoded;

use encoded::encoded_conjunction;
use std::env;
use std::io::{self, ErrorKind};

fn main(rt: HostRuntime) -> io::Result<()> {
    let alloc = rt.alloc();
    let Some(word) = env::args(&rt)?.nth(1) else {
        return Err(io::Error::from(ErrorKind::InvalidInput));
    };
    let Ok(count) = word.as_str().parse::<u32>() else {
        return Err(io::Error::from(ErrorKind::InvalidInput));
    };
    let Ok(system) = encoded_conjunction(alloc, count) else {
        return Err(io::Error::from(ErrorKind::InvalidInput));
    };
    println!(rt;
        "{} columns, {} rows",
        system.column_count(),
        system.row_count()
    )
}
