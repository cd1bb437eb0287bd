//! Makes systems of a table of columns and constraints, for tests of the encodings: `stdin` has columns, ground
//! constraints and questions, and `stdout` behind each line its answer. The rows and points there were written by
//! hand, from the rules of the encodings.
//!
//! A line is one of these. `integer LOW HIGH` and `real LOW HIGH` add a column, where `-` stands for no side; a new system
//! begins behind each `rows`. `encode WORDS` encodes a constraint without a guard, and its answer is how many
//! columns and rows there are then, or the fault. `rows` asks for the LP text of the system, and `points NUMBERS` for
//! each of its points that begins with these numbers what stands behind them.
//!
//! The words of a constraint stand behind their operands: a number, as `7/3`; a column, as `x1`; `+` and `-` of two
//! terms, `*` with a number as its first operand, `/` with one as its second, `minus` and `vabs`; `<`, `<=`, `==`, `!=`, `>=`
//! and `>`, which make a condition; `and`, `or`, `xor` and `not` of conditions, `true` and `false`; `at-most`, `at-least` and
//! `equal`, which make a constraint of two terms, `between` of a number, a term and a number, of which the first is the
//! least, and `down` of those of which it is the greatest; `both` of two constraints, `vif` of a condition and a constraint, and
//! `vif-else` of a condition and two. Empty lines and those that begin with `#` stay as they are.
#![tactic(auto)]

mod cases;
mod columns;
mod formulas;
mod points;
mod stack;
mod stops;

use cases::answers;
use std::io::{self, ErrorKind, Write};

fn main(rt: HostRuntime) -> io::Result<()> {
    let table = io::read_to_string(rt.alloc(), rt.reader())?;
    let Ok(page) = answers(rt.alloc(), table.as_str()) else {
        return Err(io::Error::from(ErrorKind::OutOfMemory));
    };
    let mut out = io::writer(&rt);
    out.write_all(page.as_slice())
}
