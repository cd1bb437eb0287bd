//! Does an exact operation many times, to be timed from outside: `numbers_bench KIND OPERATION COUNT`.
//!
//! KIND is `small` (whole numbers up to a million), `short` (up to six decimals) or `wide` (100 bits over
//! ten), OPERATION `add`, `mul` or `compare`, and COUNT how often it is done, in rounds of 1,000 pairs.
//! It prints a check of the results, which another program can compute from the same pairs. `forms add
//! COUNT` adds up COUNT forms of one column each, in column order, and prints how many terms there are; `forms
//! gather COUNT` does so with the columns in a scattered order.
#![tactic(auto)]

mod measured;
mod operands;

use measured::{compared, gathered_forms, multiplied, summed, summed_forms};
use operands::{Kind, pairs};
use std::env;
use std::io::{self, ErrorKind};

/// How many pairs of operands there are.
const PAIRS: u64 = 1000;

fn refused() -> io::Error {
    io::Error::from(ErrorKind::InvalidInput)
}

fn main(rt: HostRuntime) -> io::Result<()> {
    let alloc = rt.alloc();
    let mut words = Vec::new(alloc);
    for word in env::args(&rt)?.skip(1) {
        words.push(word)?;
    }
    let [kind, operation, count] = words.as_slice() else {
        return Err(refused());
    };
    let Ok(count) = count.as_str().parse::<u64>() else {
        return Err(refused());
    };
    let kind = match kind.as_str() {
        "small" => Kind::Small,
        "short" => Kind::Short,
        "wide" => Kind::Wide,
        "forms" => {
            let sum = match operation.as_str() {
                "add" => summed_forms(alloc, count),
                "gather" => gathered_forms(alloc, count),
                _ => return Err(refused()),
            };
            let Ok(terms) = sum else {
                return Err(refused());
            };
            println!(rt; "{terms}")?;
            return Ok(());
        }
        _ => return Err(refused()),
    };
    let Ok(operands) = pairs(alloc, kind, operation.as_str() == "mul", PAIRS) else {
        return Err(refused());
    };
    let rounds = count / PAIRS;
    let check = match operation.as_str() {
        "add" => summed(rounds, &operands),
        "mul" => multiplied(rounds, &operands),
        "compare" => compared(rounds, &operands),
        _ => return Err(refused()),
    };
    println!(rt; "{check}")?;
    Ok(())
}
