// The bounds of columns, and the names of the integer ones.
ghost use Rattle.std.specs.Prelude.{◌≡◌, ℕ, [], ◌∷◌, flat_map, map, IsTrue, IfSome, option_map, if◌then◌else◌};
ghost use Rattle.std.specs.List.{enumerate_from, list_any};
ghost use Rattle.zim_decimal.specs.Short as decimal;
ghost use Rattle.zim_gate.specs.Pen.{Writes};
ghost use Rattle.zim_rows.specs.declared.rows.Column as model;
ghost use Rattle.zim_rows.specs.Covered as covered;
ghost use Rattle.zim_rows.specs.Named.{column_name};
ghost use Rattle.zim_lp.specs.FileText.{ends_text, bound_text, general_text, generals_text, integers};
ghost use Rattle.zim_lp.specs.Text.{short_number, lp_column, written_offset};

use crate::decimals::put_number;
use crate::terms::put_column_name;
use zim_decimal::is_short;
use zim_fraction::Fraction;
use zim_gate::{Folder, Pen};
use zim_rows::Column;

// Puts the bounds of the columns in order, numbered from 1.
pub(crate) fn put_bounds<F: Folder>(pen: &mut Pen<F>, columns: &[Column])
    ensures { Writes F.state pen.old pen.new (flat_map (λ (p : ℕ × model.Column). bound_text (lp_column p)) (enumerate_from 1 columns.now)) }
{
    for (index, column) in columns.iter().enumerate() {
        put_bound(pen, index + 1, column);
    }
}

// Puts the bound of a column, by its number.
fn put_bound<F: Folder>(pen: &mut Pen<F>, number: usize, column: &Column)
    ensures { Writes F.state pen.old pen.new (bound_text (lp_column (number, column.now))) }
{
    let low = written_side(&column.sides.low);
    let high = written_side(&column.sides.high);
    put_ends(pen, number, low, high);
}

// A side that a decimal writes, else none.
fn written_side(side: &Option<Fraction>) -> Option<Fraction>
    ensures value { result ≡ covered.written_side side.now }
    ensures short { IfSome result (λ q. IsTrue (decimal.is_short q)) }
{
    match *side {
        Some(number) if is_short(number) => Some(number),
        _ => None,
    }
}

// Puts the bound of a column that lies between these sides.
fn put_ends<F: Folder>(
    pen: &mut Pen<F>,
    number: usize,
    low: Option<Fraction>,
    high: Option<Fraction>,
)
    requires low { IfSome low (λ q. IsTrue (decimal.is_short q)) }
    requires high { IfSome high (λ q. IsTrue (decimal.is_short q)) }
    ensures { Writes F.state pen.old pen.new (ends_text (column_name number) (option_map short_number low) (option_map short_number high)) }
{
    match (low, high) {
        (Some(low), Some(high)) => put_both_ends(pen, number, low, high),
        (Some(low), None) => put_low_end(pen, number, low),
        (None, Some(high)) => put_high_end(pen, number, high),
        (None, None) => put_no_ends(pen, number),
    }
}

fn put_both_ends<F: Folder>(pen: &mut Pen<F>, number: usize, low: Fraction, high: Fraction)
    requires low { IsTrue (decimal.is_short low) }
    requires high { IsTrue (decimal.is_short high) }
    ensures { Writes F.state pen.old pen.new (ends_text (column_name number) (Some (short_number low)) (Some (short_number high))) }
{
    pen.put(b" ");
    put_number(pen, low);
    pen.put(b" <= ");
    put_column_name(pen, number);
    pen.put(b" <= ");
    put_number(pen, high);
    pen.put(b"\n");
}

fn put_low_end<F: Folder>(pen: &mut Pen<F>, number: usize, low: Fraction)
    requires { IsTrue (decimal.is_short low) }
    ensures { Writes F.state pen.old pen.new (ends_text (column_name number) (Some (short_number low)) None) }
{
    pen.put(b" ");
    put_column_name(pen, number);
    pen.put(b" >= ");
    put_number(pen, low);
    pen.put(b"\n");
}

fn put_high_end<F: Folder>(pen: &mut Pen<F>, number: usize, high: Fraction)
    requires { IsTrue (decimal.is_short high) }
    ensures { Writes F.state pen.old pen.new (ends_text (column_name number) None (Some (short_number high))) }
{
    pen.put(b" -inf <= ");
    put_column_name(pen, number);
    pen.put(b" <= ");
    put_number(pen, high);
    pen.put(b"\n");
}

fn put_no_ends<F: Folder>(pen: &mut Pen<F>, number: usize)
    ensures { Writes F.state pen.old pen.new (ends_text (column_name number) None None) }
{
    pen.put(b" ");
    put_column_name(pen, number);
    pen.put(b" free\n");
}

// The bound of `one`, where it stands.
pub(crate) fn offset_bound(stands: bool) -> &'static [u8]
    ensures { result.now ≡ flat_map bound_text (if stands then written_offset ∷ [] else []) }
{
    if stands { b" 1 <= one <= 1\n" } else { b"" }
}

// Puts the names of the integer columns under their heading, where there is one.
pub(crate) fn put_generals<F: Folder>(pen: &mut Pen<F>, columns: &[Column])
    ensures { Writes F.state pen.old pen.new (generals_text (integers (map lp_column (enumerate_from 1 columns.now)))) }
{
    if has_integer(columns) {
        pen.put(b"Generals\n");
        put_integer_names(pen, columns);
    }
}

fn has_integer(columns: &[Column]) -> bool
    ensures { result ≡ list_any (λ (c : model.Column). c.integer) columns.now }
{
    columns.iter().any(|column| column.integer)
}

fn put_integer_names<F: Folder>(pen: &mut Pen<F>, columns: &[Column])
    ensures { Writes F.state pen.old pen.new (flat_map (λ (p : ℕ × model.Column). if p.1.integer then general_text (lp_column p) else []) (enumerate_from 1 columns.now)) }
{
    for (index, column) in columns.iter().enumerate() {
        put_name_of_integer(pen, index + 1, column);
    }
}

// Puts the line of a column where it is integer, by its number.
fn put_name_of_integer<F: Folder>(pen: &mut Pen<F>, number: usize, column: &Column)
    ensures { Writes F.state pen.old pen.new (if column.now.integer then general_text (lp_column (number, column.now)) else []) }
{
    if column.integer {
        pen.put(b" ");
        put_column_name(pen, number);
        pen.put(b"\n");
    }
}
