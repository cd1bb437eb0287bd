// The section COLUMNS.
ghost use Rattle.std.specs.Prelude.{◌≡◌, ◌++◌, false, flat_map, All, IsTrue};
ghost use Rattle.zim_decimal.specs.Short.{is_short};
ghost use Rattle.zim_gate.specs.Pen.{Writes};
ghost use Rattle.zim_rows.specs.Finished.{program_of};
ghost use Rattle.zim_rows.specs.Program.{IsShortTerm};
ghost use Rattle.zim_mps.specs.Puts.{name_text, offset_text};
ghost use Rattle.zim_mps.specs.Text.{numbered_columns, mps_columns, cost_text, entry_text, marker_text, columns_front, last_mark, columns_text};

use crate::costs::{minimised_cost, split_cost};
use crate::names::{ColumnName, put_name, put_number, put_row_name};
use zim_fraction::Fraction;
use zim_gate::{Folder, Pen};
use zim_linear::Term;
use zim_rows::Finished;

/// Puts the lines of COLUMNS.
pub(crate) fn put_columns<F: Folder>(pen: &mut Pen<F>, system: &Finished)
    ensures { Writes F.state pen.old pen.new (columns_text (mps_columns (program_of system.now))) }
{
    let last = put_numbered_columns(pen, system);
    put_marker(pen, last, false);
    put_offset(pen, system);
}

/// Puts the lines of the columns of the program, and answers whether the last one is integer.
fn put_numbered_columns<F: Folder>(pen: &mut Pen<F>, system: &Finished) -> bool
    ensures text { Writes F.state pen.old pen.new (columns_front false (numbered_columns (program_of system.now))) }
    ensures mark { result ≡ last_mark false (numbered_columns (program_of system.now)) }
{
    let entries = system.entries.as_slice();
    let mut costs = system.target.terms.as_slice();
    let mut before = false;
    for (index, column) in system.columns.as_slice().iter().enumerate() {
        let number = index as u32 + 1;
        let (cost, behind) = split_cost(costs, number);
        costs = behind;
        put_marker(pen, before, column.integer);
        put_column(
            pen,
            ColumnName::Numbered(number),
            minimised_cost(system.target.maximize, cost),
            entries[index].as_slice(),
        );
        before = column.integer;
    }
    before
}

/// Puts the line between two columns, of which each is integer or not, if there is one.
fn put_marker<F: Folder>(pen: &mut Pen<F>, before: bool, integer: bool)
    ensures { Writes F.state pen.old pen.new (marker_text before integer) }
{
    match (before, integer) {
        (false, true) => pen.put(b" MARKER 'MARKER' 'INTORG'\n"),
        (true, false) => pen.put(b" MARKER 'MARKER' 'INTEND'\n"),
        (false, false) => {}
        (true, true) => {}
    }
}

/// Puts the lines of `one`, where it stands.
fn put_offset<F: Folder>(pen: &mut Pen<F>, system: &Finished)
    ensures { Writes F.state pen.old pen.new (offset_text (program_of system.now)) }
{
    if system.has_offset() {
        let cost = minimised_cost(system.target.maximize, system.target.constant);
        put_column(pen, ColumnName::Offset, cost, &[]);
    }
}

/// Puts the lines of a column: its number in the objective and its entries.
fn put_column<F: Folder>(pen: &mut Pen<F>, name: ColumnName, cost: Fraction, entries: &[Term])
    requires cost { IsTrue (is_short cost) }
    requires entries { All IsShortTerm entries.now }
    ensures { Writes F.state pen.old pen.new (cost_text (name_text name) cost ++ flat_map (entry_text (name_text name)) entries.now) }
{
    put_cost(pen, name, cost);
    put_entries(pen, name, entries);
}

fn put_cost<F: Folder>(pen: &mut Pen<F>, name: ColumnName, cost: Fraction)
    requires { IsTrue (is_short cost) }
    ensures { Writes F.state pen.old pen.new (cost_text (name_text name) cost) }
{
    pen.put(b" ");
    put_name(pen, name);
    pen.put(b" obj ");
    put_number(pen, cost);
    pen.put(b"\n");
}

fn put_entries<F: Folder>(pen: &mut Pen<F>, name: ColumnName, entries: &[Term])
    requires { All IsShortTerm entries.now }
    ensures { Writes F.state pen.old pen.new (flat_map (entry_text (name_text name)) entries.now) }
{
    for entry in entries {
        put_entry(pen, name, entry);
    }
}

fn put_entry<F: Folder>(pen: &mut Pen<F>, name: ColumnName, entry: &Term)
    requires { IsShortTerm entry.now }
    ensures { Writes F.state pen.old pen.new (entry_text (name_text name) entry.now) }
{
    pen.put(b" ");
    put_name(pen, name);
    pen.put(b" ");
    put_row_name(pen, entry.0 as usize);
    pen.put(b" ");
    put_number(pen, entry.1);
    pen.put(b"\n");
}
