// Names and numbers as they are put.
ghost use Rattle.std.specs.Prelude.{IsTrue};
ghost use Rattle.zim_decimal.specs.Short as decimal;
ghost use Rattle.zim_gate.specs.Pen.{Writes};
ghost use Rattle.zim_rows.specs.Named.{row_name};
ghost use Rattle.zim_mps.specs.Puts.{name_text};

use zim_decimal::write_short;
use zim_fraction::Fraction;
use zim_gate::{Folder, Pen};

/// Which column of the file it is.
#[derive(Clone, Copy, Debug, Drop)]
pub(crate) enum ColumnName {
    /// A column of the program by its number, from 1: `x1`, `x2` and so on.
    Numbered(u32),
    /// The column `one`, which is always 1.
    Offset,
}

pub(crate) fn put_name<F: Folder>(pen: &mut Pen<F>, name: ColumnName)
    ensures { Writes F.state pen.old pen.new (name_text name) }
{
    match name {
        ColumnName::Numbered(column) => put_column_name(pen, column),
        ColumnName::Offset => pen.put(b"one"),
    }
}

fn put_column_name<F: Folder>(pen: &mut Pen<F>, column: u32)
    ensures { Writes F.state pen.old pen.new (name_text (ColumnName.Numbered column)) }
{
    pen.put(b"x");
    pen.put_number(column);
}

pub(crate) fn put_row_name<F: Folder>(pen: &mut Pen<F>, row: usize)
    ensures { Writes F.state pen.old pen.new (row_name row) }
{
    pen.put(b"r");
    pen.put_number(row);
}

/// Puts the decimal text of a short number, which reads back as the number.
pub(crate) fn put_number<F: Folder>(pen: &mut Pen<F>, number: Fraction)
    requires { IsTrue (decimal.is_short number) }
    ensures { Writes F.state pen.old pen.new (decimal.short_text number) }
{
    let mut text = [0; 64];
    let length = write_short(number, &mut text);
    pen.put(&text[..length]);
}
