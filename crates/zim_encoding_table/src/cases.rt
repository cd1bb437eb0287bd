//! The answer to each line of the table.

use crate::columns::add_column;
use crate::formulas::PLACE;
use crate::points::points_behind;
use crate::stack::{constraint_of, number_of};
use crate::stops::Stop;
use itoa::Buffer;
use std::alloc::Global;
use std::mem;
use zim_fault::{Bytes, Memory, text_of_kind};
use zim_gate::{Folder, MemoryFolder};
use zim_lp::write;
use zim_rows::{EncodeFault, Finished, RowFrom, System};
use zim_vif::encode;

/// The statement and the place of all rows.
const FROM: RowFrom = RowFrom {
    statement: 0,
    place: PLACE,
};

/// More bytes than any text of the table has.
const ROOM: usize = 1_000_000;

/// The systems that the lines so far made.
#[derive(Drop)]
struct Model {
    /// The one that columns and constraints are added to.
    open: System,
    /// The last one whose rows were asked for.
    finished: Option<Finished>,
}

/// Puts a number at the end.
fn put_number(number: i64, page: &mut Bytes) -> Result<(), Memory> {
    page.extend_from_slice(Buffer::new().format(number).as_bytes())
}

/// Adds a column, and puts its name at the end.
fn put_column(
    system: &mut System,
    integer: bool,
    sides: &str,
    page: &mut Bytes,
) -> Result<(), Stop> {
    let number = add_column(system, integer, sides)?;
    page.extend_from_slice(b"x")?;
    Ok(put_number(number as i64, page)?)
}

/// Adds a constraint, and puts at the end how many columns and rows there are then; after a fault, whose name is put there,
/// a new system begins.
fn add_constraint(
    alloc: Global,
    system: &mut System,
    words: &str,
    page: &mut Bytes,
) -> Result<(), Stop> {
    let constraint = constraint_of(alloc, system.column_count(), words)?;
    if constraint.columns != system.column_count() {
        return Err(Stop::NoCase);
    }
    match encode(alloc, system, FROM, None, &constraint.tree) {
        Ok(()) => Ok(put_counts(system, page)?),
        Err(EncodeFault::Fault(fault)) => {
            *system = System::new(alloc);
            Ok(page.extend_from_slice(text_of_kind(fault.kind))?)
        }
        Err(EncodeFault::Memory) => Err(Stop::Memory),
    }
}

/// Puts at the end how many columns and rows a system has.
fn put_counts(system: &System, page: &mut Bytes) -> Result<(), Memory> {
    put_number(system.column_count() as i64, page)?;
    page.extend_from_slice(b" columns, ")?;
    put_number(system.row_count() as i64, page)?;
    page.extend_from_slice(b" rows")
}

/// Finishes the system, puts its LP text at the end, and begins a new one.
fn finish(alloc: Global, model: &mut Model, page: &mut Bytes) -> Result<(), Stop> {
    let system = mem::replace(&mut model.open, System::new(alloc));
    let Ok(finished) = system.finish() else {
        return Err(Stop::NoCase);
    };
    put_text(alloc, &finished, page)?;
    model.finished = Some(finished);
    Ok(())
}

/// Puts the LP text of a system at the end.
fn put_text(alloc: Global, system: &Finished, page: &mut Bytes) -> Result<(), Stop> {
    let mut folder = MemoryFolder::new(alloc, Vec::new(alloc), ROOM, Vec::new(alloc))?;
    if folder.begin(b"m.lp").is_err() || write(system, &mut folder).is_err() {
        return Err(Stop::NoCase);
    }
    match folder.bytes_of(b"m.lp") {
        Some(text) => Ok(page.extend_from_slice(text)?),
        None => Err(Stop::NoCase),
    }
}

/// Puts the points at the end that begin with these numbers.
fn put_points(
    alloc: Global,
    system: &Finished,
    numbers: &str,
    page: &mut Bytes,
) -> Result<(), Stop> {
    let mut first = Vec::new(alloc);
    for number in numbers.split(' ') {
        first.push(number_of(number)?)?;
    }
    let points = points_behind(alloc, system, first.as_slice())?;
    if points.is_empty() {
        page.extend_from_slice(b"none")?;
    }
    let mut separator: &[u8] = b"";
    for helpers in points.iter() {
        page.extend_from_slice(separator)?;
        put_point(helpers.as_slice(), page)?;
        separator = b", ";
    }
    Ok(())
}

/// Puts what stands behind the given numbers at the end.
fn put_point(helpers: &[i64], page: &mut Bytes) -> Result<(), Memory> {
    page.extend_from_slice(b"behind them")?;
    for number in helpers {
        page.extend_from_slice(b" ")?;
        put_number(*number, page)?;
    }
    Ok(())
}

/// Does what a line says, and puts its answer at the end.
fn next(alloc: Global, model: &mut Model, line: &str, page: &mut Bytes) -> Result<(), Stop> {
    match line.split_once(' ') {
        Some(("integer", sides)) => put_column(&mut model.open, true, sides, page),
        Some(("real", sides)) => put_column(&mut model.open, false, sides, page),
        Some(("encode", words)) => add_constraint(alloc, &mut model.open, words, page),
        Some(("points", numbers)) => match &model.finished {
            Some(finished) => put_points(alloc, finished, numbers, page),
            None => Err(Stop::NoCase),
        },
        _ => {
            if line == "rows" {
                finish(alloc, model, page)
            } else {
                Err(Stop::NoCase)
            }
        }
    }
}

/// Puts the answer to a line at the end.
fn answer(alloc: Global, model: &mut Model, line: &str, page: &mut Bytes) -> Result<(), Memory> {
    match next(alloc, model, line, page) {
        Ok(()) => {}
        Err(Stop::Memory) => return Err(Memory),
        Err(Stop::NoCase) => {
            page.extend_from_slice(b"no case")?;
            model.open = System::new(alloc);
        }
    }
    page.extend_from_slice(b"\n")
}

/// The lines of a table, and behind each its answer.
pub fn answers(alloc: Global, table: &str) -> Result<Bytes, Memory> {
    let mut page = Bytes::new(alloc);
    let mut model = Model {
        open: System::new(alloc),
        finished: None,
    };
    for line in table.lines() {
        page.extend_from_slice(line.as_bytes())?;
        page.extend_from_slice(b"\n")?;
        if !line.is_empty() && !line.starts_with('#') {
            answer(alloc, &mut model, line, &mut page)?;
        }
    }
    Ok(page)
}
