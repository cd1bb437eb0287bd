// The section BOUNDS.
ghost use Rattle.std.specs.Prelude.{◌≡◌, ◌≤◌, flat_map, length, IsTrue};
ghost use Rattle.std.specs.List.{enumerate_from};
ghost use Rattle.zim_decimal.specs.Short.{is_short};
ghost use Rattle.zim_gate.specs.Pen.{Writes};
ghost use Rattle.zim_rows.specs.Covered.{written_side};
ghost use Rattle.zim_rows.specs.Finished.{program_of};
ghost use Rattle.zim_mps.specs.Puts.{name_text, column_sides_text, IsShortSide};
ghost use Rattle.zim_mps.specs.Text.{mps_columns, offset_columns, bound_text, end_text, infinite_text, sides_text};

use crate::names::{ColumnName, put_name, put_number};
use zim_decimal::is_short as fits;
use zim_fraction::Fraction;
use zim_gate::{Folder, Pen};
use zim_linear::Sides;
use zim_rows::{Column, Finished};

/// Puts the lines of BOUNDS.
pub(crate) fn put_bounds<F: Folder>(pen: &mut Pen<F>, system: &Finished)
    ensures { Writes F.state pen.old pen.new (flat_map bound_text (mps_columns (program_of system.now))) }
{
    put_numbered_bounds(pen, system.columns.as_slice());
    put_offset_bounds(pen, system);
}

/// Puts the lines of the sides of columns that are numbered from 1.
fn put_numbered_bounds<F: Folder>(pen: &mut Pen<F>, columns: &[Column])
    requires { length columns.now ≤ 1000000 }
    ensures { Writes F.state pen.old pen.new (flat_map column_sides_text (enumerate_from 1 columns.now)) }
{
    for (index, column) in columns.iter().enumerate() {
        put_column_sides(pen, index as u32 + 1, column);
    }
}

fn put_column_sides<F: Folder>(pen: &mut Pen<F>, number: u32, column: &Column)
    ensures { Writes F.state pen.old pen.new (column_sides_text (number, column.now)) }
{
    let sides = Sides {
        low: written(&column.sides.low),
        high: written(&column.sides.high),
    };
    put_sides(pen, ColumnName::Numbered(number), &sides);
}

/// The side that the file has: none where no decimal writes it.
fn written(side: &Option<Fraction>) -> Option<Fraction>
    ensures value { result ≡ written_side side.now }
    ensures short { IsShortSide result }
{
    match side {
        Some(number) if fits(*number) => Some(*number),
        _ => None,
    }
}

/// Puts the lines of the sides of `one`, where it stands.
fn put_offset_bounds<F: Folder>(pen: &mut Pen<F>, system: &Finished)
    ensures { Writes F.state pen.old pen.new (flat_map bound_text (offset_columns (program_of system.now))) }
{
    if system.has_offset() {
        let sides = Sides {
            low: Some(Fraction::one()),
            high: Some(Fraction::one()),
        };
        put_sides(pen, ColumnName::Offset, &sides);
    }
}

fn put_sides<F: Folder>(pen: &mut Pen<F>, name: ColumnName, sides: &Sides)
    requires low { IsShortSide sides.now.low }
    requires high { IsShortSide sides.now.high }
    ensures { Writes F.state pen.old pen.new (sides_text (name_text name) sides.now.low sides.now.high) }
{
    match (&sides.low, &sides.high) {
        (Some(low), Some(high)) => {
            put_end(pen, b"LO", name, *low);
            put_end(pen, b"UP", name, *high);
        }
        (Some(low), None) => {
            put_end(pen, b"LO", name, *low);
            put_infinite(pen, b"PL", name);
        }
        (None, Some(high)) => {
            put_infinite(pen, b"MI", name);
            put_end(pen, b"UP", name, *high);
        }
        (None, None) => put_infinite(pen, b"FR", name),
    }
}

fn put_end<F: Folder>(pen: &mut Pen<F>, word: &[u8], name: ColumnName, number: Fraction)
    requires { IsTrue (is_short number) }
    ensures { Writes F.state pen.old pen.new (end_text word.now (name_text name) number) }
{
    pen.put(b" ");
    pen.put(word);
    pen.put(b" BND ");
    put_name(pen, name);
    pen.put(b" ");
    put_number(pen, number);
    pen.put(b"\n");
}

fn put_infinite<F: Folder>(pen: &mut Pen<F>, word: &[u8], name: ColumnName)
    ensures { Writes F.state pen.old pen.new (infinite_text word.now (name_text name)) }
{
    pen.put(b" ");
    pen.put(word);
    pen.put(b" BND ");
    put_name(pen, name);
    pen.put(b"\n");
}
