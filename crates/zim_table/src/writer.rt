ghost use Rattle.std.specs.Prelude.{◌≡◌, pos, ◌≤ℤ◌, ◌+◌, ◌^◌, ◌<◌, ◌==◌, if◌then◌else◌, IsTrue, None, Some, flat_map, length, option_map, option_copied, slice_get, All, IfSome, IsSome};
ghost use Rattle.std.specs.List.{enumerate_from, range_with_len};
ghost use Rattle.zim_columns.specs.Names.{are_rising};
ghost use Rattle.std.specs.List.Sorted.{IsNonDecreasingBy};
ghost use Rattle.zim_gate.specs.Folder.{Puts};
ghost use Rattle.zim_gate.specs.Pen.{Writes};
ghost use Rattle.zim_rows.specs.Finished.{program_of};
ghost use Rattle.zim_table.specs.Correct.{IsStatement, CanBeListed};
ghost use Rattle.zim_table.specs.Columns.{numbered, next_position};
ghost use Rattle.zim_table.specs.Text as text;
ghost use Rattle.zim_table.specs.Text.{statement_of, statement_name, factor_text, aim_text, objective_text, index_text, detail_text, lines_text, column_text, offset_text, row_line, row_text, table_text};

use crate::names::Names;
use crate::tuples::{put_fraction, put_tuple};
use zim_columns::{Columns, Declared};
use zim_fraction::Fraction;
use zim_gate::{Failed, Folder, Pen};
use zim_rows::{Finished, Row};
use zim_tuples::Tuple;

/// A put failed.
pub type PutFault = Failed;

/// Puts the table of a system to the file that is begun, and leaves it begun. Each column of the system has its line: a
/// declared one with its name and its tuple, each other one as a helper.
///
/// After `Failed` a prefix of the text was put. By [`texts_say_names`](crate::texts_say_names) the text is the table of
/// the declared columns with their names and tuples, in order, and of the factors that the objective has in the two files: its
/// own in the LP file, and in the MPS file its own, or the negative of it where the system maximises.
pub fn write<F: Folder>(
    system: &Finished,
    columns: &Columns,
    names: &Names,
    folder: &mut F,
) -> Result<(), PutFault>
    requires begun { IsSome (F.state folder.old).begun }
    requires listed { CanBeListed (program_of system.now) columns.now names.now }
    ensures { Puts (F.state folder.old) (F.state folder.new) (table_text (program_of system.now) columns.now names.now) result }
{
    let mut pen = Pen::new(folder);
    let factor = system.target.factor;
    let minimised = minimised_factor(system.target.maximize, factor);
    pen.put(b"zimplc table 1\n");
    put_factor(&mut pen, b"lp", factor);
    put_factor(&mut pen, b"mps", minimised);
    put_objective(&mut pen, system.target.maximize, names);
    put_columns(&mut pen, system.columns.len(), columns.list());
    pen.put(text_of_offset(system.has_offset()));
    put_rows(&mut pen, system.rows.as_slice(), names);
    pen.put(b"end\n");
    pen.finish()
}

/// The factor of the objective in a file that always minimises.
fn minimised_factor(maximises: bool, factor: i128) -> i128
    requires { pos 1 ≤ℤ factor }
    ensures { result ≡ text.minimised_factor maximises factor }
{
    if maximises { -factor } else { factor }
}

fn put_factor<F: Folder>(pen: &mut Pen<F>, format: &[u8], factor: i128)
    ensures { Writes F.state pen.old pen.new (factor_text format.now factor) }
{
    pen.put(b"factor ");
    pen.put(format);
    pen.put(b" ");
    pen.put_number(factor);
    pen.put(b"\n");
}

fn put_objective<F: Folder>(pen: &mut Pen<F>, maximises: bool, names: &Names)
    requires { IfSome names.now.objective (IsStatement names.now) }
    ensures { Writes F.state pen.old pen.new
        (objective_text maximises (option_map (statement_name names.now) names.now.objective)) }
{
    match names.objective {
        None => pen.put(b"objective none\n"),
        Some(position) => put_aim(pen, maximises, name_of(names, position)),
    }
}

fn put_aim<F: Folder>(pen: &mut Pen<F>, maximises: bool, name: &[u8])
    ensures { Writes F.state pen.old pen.new (objective_text maximises (Some name.now)) }
{
    pen.put(text_of_aim(maximises));
    pen.put(name);
    pen.put(b"\n");
}

/// Puts the lines of so many columns. The declared ones have their numbers in rising order.
fn put_columns<F: Folder>(pen: &mut Pen<F>, count: usize, declared: &[Declared])
    requires rising { IsTrue (are_rising 1 declared.now) }
    ensures { Writes F.state pen.old pen.new (flat_map (column_text declared.now) (range_with_len 1 count)) }
{
    let mut next = 0;
    for index in 0..count {
        next = put_column(pen, index + 1, declared, next);
    }
}

/// Puts the lines of a column, and gives the position of the next declared one. That at the position is the first one which
/// may have this number.
fn put_column<F: Folder>(
    pen: &mut Pen<F>,
    column: usize,
    declared: &[Declared],
    position: usize,
) -> usize
    requires { position + 1 < 2 ^ 64 }
    ensures put { Writes F.state pen.old pen.new (lines_text column (numbered column (slice_get declared.now position))) }
    ensures next { result ≡ next_position position (numbered column (slice_get declared.now position)) }
{
    match column_at(declared, position, column) {
        None => {
            put_helper(pen, column);
            position
        }
        Some(found) => {
            put_declared(pen, column, found);
            position + 1
        }
    }
}

/// The declared column at a position, if it has this number.
fn column_at(declared: &[Declared], position: usize, column: usize) -> Option<&Declared>
    ensures { option_copied result ≡ numbered column (slice_get declared.now position) }
{
    match declared.get(position) {
        None => None,
        Some(found) => of_number(found, column),
    }
}

/// A declared column, if it has this number.
fn of_number(declared: &Declared, column: usize) -> Option<&Declared>
    ensures { option_copied result ≡ numbered column (Some declared.now) }
{
    if declared.column as usize == column {
        Some(declared)
    } else {
        None
    }
}

fn put_helper<F: Folder>(pen: &mut Pen<F>, column: usize)
    ensures { Writes F.state pen.old pen.new (lines_text column None) }
{
    pen.put(b"helper x");
    pen.put_number(column);
    pen.put(b"\n");
}

fn put_declared<F: Folder>(pen: &mut Pen<F>, column: usize, declared: &Declared)
    ensures { Writes F.state pen.old pen.new (lines_text column (Some declared.now)) }
{
    pen.put(b"column x");
    pen.put_number(column);
    pen.put(b" ");
    pen.put(declared.name.as_slice());
    put_index(pen, &declared.tuple);
    pen.put(b"\n");
    put_detail(pen, b"priority", column, &declared.priority);
    put_detail(pen, b"startval", column, &declared.startval);
}

/// Puts the tuple of a column with the blank before it, where there is one.
fn put_index<F: Folder>(pen: &mut Pen<F>, tuple: &Tuple)
    ensures { Writes F.state pen.old pen.new (index_text tuple.now) }
{
    match tuple.as_slice().split_first() {
        None => (),
        Some((first, others)) => {
            pen.put(b" ");
            put_tuple(pen, first, others);
        }
    }
}

fn put_detail<F: Folder>(pen: &mut Pen<F>, word: &[u8], column: usize, number: &Option<Fraction>)
    ensures { Writes F.state pen.old pen.new (detail_text word.now column number.now) }
{
    match number {
        None => (),
        Some(number) => put_given(pen, word, column, *number),
    }
}

fn put_given<F: Folder>(pen: &mut Pen<F>, word: &[u8], column: usize, number: Fraction)
    ensures { Writes F.state pen.old pen.new (detail_text word.now column (Some number)) }
{
    pen.put(word);
    pen.put(b" x");
    pen.put_number(column);
    pen.put(b" ");
    put_fraction(pen, number);
    pen.put(b"\n");
}

/// Puts the lines of rows that are numbered from 1.
fn put_rows<F: Folder>(pen: &mut Pen<F>, rows: &[Row], names: &Names)
    requires statements { All (λ r. IsStatement names.now (statement_of r)) rows.now }
    requires rising { IsNonDecreasingBy statement_of rows.now }
    ensures { Writes F.state pen.old pen.new (flat_map (row_text names.now rows.now) (enumerate_from 1 rows.now)) }
{
    let mut statement = 0;
    let mut place = 0;
    for (index, row) in rows.iter().enumerate() {
        place = next_place(statement, place, row.from.statement);
        statement = row.from.statement;
        put_row(pen, index + 1, name_of(names, statement), place, row.factor);
    }
}

/// The place of a row in its statement, from that of the row before and its statement.
fn next_place(last: u32, place: usize, statement: u32) -> usize
    requires { place + 1 < 2 ^ 64 }
    ensures { result ≡ (if statement == last then place + 1 else 1) }
{
    if statement == last { place + 1 } else { 1 }
}

fn put_row<F: Folder>(pen: &mut Pen<F>, number: usize, name: &[u8], place: usize, factor: i128)
    ensures { Writes F.state pen.old pen.new (row_line number name.now place factor) }
{
    pen.put(b"row r");
    pen.put_number(number);
    pen.put(b" ");
    pen.put(name);
    pen.put(b" ");
    pen.put_number(place);
    pen.put(b" ");
    pen.put_number(factor);
    pen.put(b"\n");
}

/// The name of a statement.
fn name_of(names: &Names, position: u32) -> &[u8]
    requires { position < length names.now.statements }
    ensures { result.now ≡ statement_name names.now position }
{
    let statements = names.statements.as_slice();
    statements[position as usize].as_slice()
}

fn text_of_aim(maximises: bool) -> &'static [u8]
    ensures { result.now ≡ aim_text maximises }
{
    if maximises {
        b"objective maximize "
    } else {
        b"objective minimize "
    }
}

fn text_of_offset(stands: bool) -> &'static [u8]
    ensures { result.now ≡ offset_text stands }
{
    if stands { b"offset one\n" } else { b"" }
}
