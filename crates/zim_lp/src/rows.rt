// Rows: one line for each, and two for a range.
ghost use Rattle.std.specs.Prelude.{◌≡◌, ℕ, ◌++◌, flat_map, All, IsTrue};
ghost use Rattle.std.specs.List.{enumerate_from};
ghost use Rattle.zim_decimal.specs.Short as decimal;
ghost use Rattle.zim_gate.specs.Pen.{Writes};
ghost use Rattle.zim_rows.specs.declared.rows.Row as model;
ghost use Rattle.zim_rows.specs.Named.{row_name};
ghost use Rattle.zim_rows.specs.Program.{IsShortTerm, IsShortKind, IsRow};
ghost use Rattle.zim_lp.specs.FileText.{sense_text, row_text};
ghost use Rattle.zim_lp.specs.Text.{written_terms, row_compared, written_row};

use crate::decimals::put_number;
use crate::terms::put_terms;
use zim_fraction::Fraction;
use zim_gate::{Folder, Pen};
use zim_linear::Term;
use zim_rows::{Row, RowKind, Sense};

// Puts the rows in order, numbered from 1, in a file with so many columns before `one`.
pub(crate) fn put_rows<F: Folder>(pen: &mut Pen<F>, columns: usize, rows: &[Row])
    requires { All (IsRow columns) rows.now }
    ensures { Writes F.state pen.old pen.new (flat_map (λ (p : ℕ × model.Row). flat_map row_text (written_row columns p)) (enumerate_from 1 rows.now)) }
{
    for (index, row) in rows.iter().enumerate() {
        put_row(pen, columns, index + 1, row);
    }
}

// Puts a row, by its number.
fn put_row<F: Folder>(pen: &mut Pen<F>, columns: usize, number: usize, row: &Row)
    requires terms { All IsShortTerm row.now.terms }
    requires kind { IsShortKind row.now.kind }
    ensures { Writes F.state pen.old pen.new (flat_map row_text (written_row columns (number, row.now))) }
{
    let terms = row.terms.as_slice();
    match row.kind {
        RowKind::One(sense, right) => {
            put_compared(pen, columns, number, b":", terms, sense, right);
        }
        RowKind::Range(low, high) => {
            put_compared(pen, columns, number, b":", terms, Sense::AtLeast, low);
            put_compared(pen, columns, number, b"u:", terms, Sense::AtMost, high);
        }
    }
}

// Puts a line of terms that compare with a number; its label is the row's name and an ending.
fn put_compared<F: Folder>(
    pen: &mut Pen<F>,
    columns: usize,
    number: usize,
    ending: &[u8],
    terms: &[Term],
    sense: Sense,
    right: Fraction,
)
    requires terms { All IsShortTerm terms.now }
    requires right { IsTrue (decimal.is_short right) }
    ensures { Writes F.state pen.old pen.new (row_text (row_compared (row_name number ++ ending.now) (written_terms columns terms.now) sense right)) }
{
    pen.put(b" ");
    put_label(pen, number, ending);
    pen.put(b" ");
    put_terms(pen, columns, terms);
    pen.put(text_of_sense(sense));
    put_number(pen, right);
    pen.put(b"\n");
}

// Puts the name of a row by its number, and an ending.
fn put_label<F: Folder>(pen: &mut Pen<F>, number: usize, ending: &[u8])
    ensures { Writes F.state pen.old pen.new (row_name number ++ ending.now) }
{
    pen.put(b"r");
    pen.put_number(number);
    pen.put(ending);
}

fn text_of_sense(sense: Sense) -> &'static [u8]
    ensures { result.now ≡ sense_text sense }
{
    match sense {
        Sense::AtLeast => b" >= ",
        Sense::AtMost => b" <= ",
        Sense::Equal => b" = ",
    }
}
