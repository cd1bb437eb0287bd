ghost use Rattle.std.specs.Prelude.{◌≡◌, ◌+◌, ◌<◌, ◌≤◌, [], length, All, OnOk};
ghost use Rattle.zim_rows.specs.System.{IsColumn, with_column, with_row, most_in_system};
ghost use Rattle.zim_rows.specs.Steps.{with_step, step_placed, step_of, given_row, fault_here, refused_at, IsNewRow, Leaves};

use crate::faults::{EncodeFault, RowFault};
use crate::rows::{Column, RowFrom, RowKind};
use crate::system::{MOST, System};
use zim_fault::{Fault, Kind, Memory, Place};
use zim_linear::{Form, Sides};

/// A row that is to be added: the terms of the form, which it compares as the kind says. The form's constant isn't used.
#[derive(Debug, Drop)]
pub struct NewRow {
    pub from: RowFrom,
    pub form: Form,
    pub kind: RowKind,
}

impl RowFault {
    /// The same refusal as a fault at a place.
    pub fn at(self, place: Place) -> EncodeFault
        ensures { result ≡ refused_at place self }
    {
        match self {
            RowFault::TooManyRows => refused(Kind::TooManyRows, place),
            RowFault::TooManyColumns => refused(Kind::TooManyColumns, place),
            RowFault::Memory => EncodeFault::Memory,
        }
    }
}

// The refusal of a step.
fn refused(kind: Kind, place: Place) -> EncodeFault
    ensures { result ≡ EncodeFault.Fault (fault_here kind place) }
{
    EncodeFault::Fault(Fault { place, kind })
}

impl System {
    /// Adds the columns and the rows of an encoding step, whose rows may use its columns.
    ///
    /// The fault, at the place, is `TooManyColumns` exactly where there would be more than 1,000,000 columns, and
    /// else `TooManyRows` exactly where there would be more than 1,000,000 rows. After `Memory` some of the columns and
    /// rows may be there.
    pub fn add_step(
        &mut self,
        place: Place,
        columns: &[Column],
        rows: &[NewRow],
    ) -> Result<(), EncodeFault>
        requires columns { All IsColumn columns.now }
        requires rows { All (IsNewRow (length self.old.columns + length columns.now)) rows.now }
        ensures { Leaves (step_placed place self.old (step_of columns.now rows.now)) self.new result }
    {
        if MOST - self.column_count() < columns.len() {
            return Err(refused(Kind::TooManyColumns, place));
        }
        if MOST - self.row_count() < rows.len() {
            return Err(refused(Kind::TooManyRows, place));
        }
        add_columns(self, columns)?;
        add_rows(self, rows)?;
        Ok(())
    }
}

// Adds columns, for which there is room, one after another.
fn add_columns(system: &mut System, columns: &[Column]) -> Result<(), Memory>
    requires columns { All IsColumn columns.now }
    requires room { length system.old.columns + length columns.now ≤ most_in_system }
    ensures { OnOk result (system.new ≡ with_step system.old (step_of columns.now [])) }
{
    for column in columns {
        add_column(system, column)?;
    }
    Ok(())
}

// Adds a column, for which there is room.
fn add_column(system: &mut System, column: &Column) -> Result<(), Memory>
    requires column { IsColumn column.now }
    requires room { length system.old.columns < most_in_system }
    ensures { OnOk result (system.new ≡ with_column system.old column.now) }
{
    let sides = Sides {
        low: column.sides.low,
        high: column.sides.high,
    };
    match system.new_column(column.integer, sides) {
        Ok(_) => Ok(()),
        Err(_) => Err(Memory),
    }
}

// Adds rows, for which there is room, one after another.
fn add_rows(system: &mut System, rows: &[NewRow]) -> Result<(), Memory>
    requires rows { All (IsNewRow (length system.old.columns)) rows.now }
    requires room { length system.old.rows + length rows.now ≤ most_in_system }
    ensures { OnOk result (system.new ≡ with_step system.old (step_of [] rows.now)) }
{
    for row in rows {
        add_row(system, row)?;
    }
    Ok(())
}

// Adds a row, for which there is room.
fn add_row(system: &mut System, row: &NewRow) -> Result<(), Memory>
    requires row { IsNewRow (length system.old.columns) row.now }
    requires room { length system.old.rows < most_in_system }
    ensures { OnOk result (system.new ≡ with_row system.old (given_row row.now)) }
{
    match system.push_row(row.from, row.form.terms(), row.kind) {
        Ok(()) => Ok(()),
        Err(_) => Err(Memory),
    }
}
