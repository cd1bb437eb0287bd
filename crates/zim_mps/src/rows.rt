// The sections ROWS, RHS and RANGES.
ghost use Rattle.std.specs.Prelude.{◌≡◌, flat_map, All, IsTrue};
ghost use Rattle.std.specs.List.{enumerate_from};
ghost use Rattle.zim_rational.specs.Rational.{minus};
ghost use Rattle.zim_decimal.specs.Short.{is_short};
ghost use Rattle.zim_gate.specs.Pen.{Writes};
ghost use Rattle.zim_rows.specs.Program.{IsShortKind, IsShortRange};
ghost use Rattle.zim_mps.specs.Puts.{HasShortKind};
ghost use Rattle.zim_mps.specs.Text as exact;
ghost use Rattle.zim_mps.specs.Text.{row_kind_text, row_text, right_text, range_text, range_text_of, ranges_text};

use crate::names::{put_number, put_row_name};
use zim_fraction::{Fraction, sub};
use zim_gate::{Folder, Pen};
use zim_rows::{Row, RowKind, Sense};

/// Puts the lines of ROWS for rows that are numbered from 1.
pub(crate) fn put_rows<F: Folder>(pen: &mut Pen<F>, rows: &[Row])
    ensures { Writes F.state pen.old pen.new (flat_map row_text (enumerate_from 1 rows.now)) }
{
    for (index, row) in rows.iter().enumerate() {
        put_row(pen, index + 1, row);
    }
}

fn put_row<F: Folder>(pen: &mut Pen<F>, number: usize, row: &Row)
    ensures { Writes F.state pen.old pen.new (row_text (number, row.now)) }
{
    pen.put(letter_of(&row.kind));
    put_row_name(pen, number);
    pen.put(b"\n");
}

fn letter_of(kind: &RowKind) -> &'static [u8]
    ensures { result.now ≡ row_kind_text kind.now }
{
    match kind {
        RowKind::One(Sense::AtLeast, _) | RowKind::Range(_, _) => b" G ",
        RowKind::One(Sense::AtMost, _) => b" L ",
        RowKind::One(Sense::Equal, _) => b" E ",
    }
}

/// Puts the lines of RHS for rows that are numbered from 1.
pub(crate) fn put_rights<F: Folder>(pen: &mut Pen<F>, rows: &[Row])
    requires { All HasShortKind rows.now }
    ensures { Writes F.state pen.old pen.new (flat_map right_text (enumerate_from 1 rows.now)) }
{
    for (index, row) in rows.iter().enumerate() {
        put_right(pen, index + 1, row);
    }
}

fn put_right<F: Folder>(pen: &mut Pen<F>, number: usize, row: &Row)
    requires { HasShortKind row.now }
    ensures { Writes F.state pen.old pen.new (right_text (number, row.now)) }
{
    pen.put(b" RHS ");
    put_row_name(pen, number);
    pen.put(b" ");
    put_number(pen, right_of(&row.kind));
    pen.put(b"\n");
}

/// The right side of a row, for a range its low side.
fn right_of(kind: &RowKind) -> Fraction
    requires { IsShortKind kind.now }
    ensures value { result ≡ exact.right_of kind.now }
    ensures short { IsTrue (is_short result) }
{
    match kind {
        RowKind::One(_, right) => *right,
        RowKind::Range(low, _) => *low,
    }
}

/// Puts the section RANGES for rows that are numbered from 1, where there is a range.
pub(crate) fn put_ranges<F: Folder>(pen: &mut Pen<F>, rows: &[Row])
    requires { All HasShortKind rows.now }
    ensures { Writes F.state pen.old pen.new (ranges_text rows.now) }
{
    if has_range(rows) {
        pen.put(b"RANGES\n");
        put_range_lines(pen, rows);
    }
}

fn has_range(rows: &[Row]) -> bool
    ensures { result ≡ exact.has_range rows.now }
{
    rows.iter()
        .any(|row| matches!(row.kind, RowKind::Range(_, _)))
}

fn put_range_lines<F: Folder>(pen: &mut Pen<F>, rows: &[Row])
    requires { All HasShortKind rows.now }
    ensures { Writes F.state pen.old pen.new (flat_map range_text (enumerate_from 1 rows.now)) }
{
    for (index, row) in rows.iter().enumerate() {
        put_range(pen, index + 1, &row.kind);
    }
}

fn put_range<F: Folder>(pen: &mut Pen<F>, number: usize, kind: &RowKind)
    requires { IsShortKind kind.now }
    ensures { Writes F.state pen.old pen.new (range_text_of number kind.now) }
{
    match kind {
        RowKind::One(_, _) => {}
        RowKind::Range(low, high) => put_range_line(pen, number, difference(*low, *high)),
    }
}

fn put_range_line<F: Folder>(pen: &mut Pen<F>, number: usize, range: Fraction)
    requires { IsTrue (is_short range) }
    ensures { Writes F.state pen.old pen.new (exact.range_line number range) }
{
    pen.put(b" RNG ");
    put_row_name(pen, number);
    pen.put(b" ");
    put_number(pen, range);
    pen.put(b"\n");
}

/// What the high side of a range is above its low one.
fn difference(low: Fraction, high: Fraction) -> Fraction
    requires { IsShortRange low high }
    ensures value { result ≡ minus high low }
    ensures short { IsTrue (is_short result) }
{
    sub(high, low).unwrap()
}
