ghost use Rattle.std.specs.Prelude.{◌≡◌, length};
ghost use Rattle.zim_rows.specs.Entries.{entries_by_column};
ghost use Rattle.zim_rows.specs.Program.{IsProgram};
ghost use Rattle.zim_rows.specs.Props.{props};

use crate::rows::{Column, Row, Target};
use zim_fault::Sequence;
use zim_linear::Term;

/// A finished system: what the writers of files take.
///
/// There are at most 1,000,000 columns and rows. Rows and objective are over the columns; their coefficients aren't 0
/// and stand in column order, all their numbers are decimals of at most 15 places, and their factors are at least 1. A
/// range's low side is below its high one, and their difference isn't past. No column's low side is above its high one,
/// and the finite sides of integer columns are whole.
#[derive(Debug, Drop)]
pub struct Finished {
    /// The columns in their order; the first is column 1.
    pub columns: Sequence<Column>,
    /// The rows in their order; the first is row 1.
    pub rows: Sequence<Row>,
    /// For each column its rows by number, from 1 and in their order, with the coefficients there.
    pub entries: Sequence<Sequence<Term>>,
    /// What is to be least or greatest.
    pub target: Target,
    pub ghost program: { IsProgram columns rows target } by { Prim.hlevel props },
    pub ghost agrees: { entries ≡ entries_by_column (length columns) rows },
}
