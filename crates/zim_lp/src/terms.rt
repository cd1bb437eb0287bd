// Lists of terms: those of a row, and those of the objective, which has its constant behind them.
ghost use Rattle.std.specs.Prelude.{◌≡◌, ℕ, [], ◌∷◌, ◌++◌, map, flat_map, All, IsTrue};
ghost use Rattle.std.specs.List.{enumerate_from};
ghost use Rattle.zim_decimal.specs.Short as decimal;
ghost use Rattle.zim_gate.specs.Pen.{Writes};
ghost use Rattle.zim_linear.specs.Forms as forms;
ghost use Rattle.zim_rows.specs.Named.{column_name, offset_name};
ghost use Rattle.zim_rows.specs.Program.{IsShortTerm, IsTarget};
ghost use Rattle.zim_lp.specs.FileText.{first_term_text, break_text, sign_text, further_term_text, terms_text};
ghost use Rattle.zim_lp.specs.Text.{short_number, first_name, written_term, or_zero, written_terms, written_objective};

use crate::decimals::{is_negative, put_magnitude, put_number};
use zim_fraction::Fraction;
use zim_gate::{Folder, Pen};
use zim_linear::Term;
use zim_rows::Target;

// Puts the objective in a file with so many columns before `one`.
pub(crate) fn put_objective<F: Folder>(pen: &mut Pen<F>, columns: usize, target: &Target)
    requires { IsTarget columns target.now }
    ensures { Writes F.state pen.old pen.new (terms_text (written_objective columns target.now.terms target.now.constant)) }
{
    if target.constant.same_number(&Fraction::zero()) {
        put_terms(pen, columns, target.terms.as_slice());
    } else {
        put_terms_and_offset(pen, target.terms.as_slice(), target.constant);
    }
}

// Puts terms, and a constant as a term of `one` behind them.
fn put_terms_and_offset<F: Folder>(pen: &mut Pen<F>, terms: &[Term], constant: Fraction)
    requires terms { All IsShortTerm terms.now }
    requires constant { IsTrue (decimal.is_short constant) }
    ensures { Writes F.state pen.old pen.new (terms_text (map written_term terms.now ++ record { number = short_number constant; name = offset_name } ∷ [])) }
{
    match terms {
        [] => put_first_offset(pen, constant),
        [first, further @ ..] => {
            put_first_term(pen, first);
            put_further_terms(pen, further);
            put_further_offset(pen, terms.len(), constant);
        }
    }
}

// Puts the terms of a list, or 0 times the file's first column where it has none.
pub(crate) fn put_terms<F: Folder>(pen: &mut Pen<F>, columns: usize, terms: &[Term])
    requires { All IsShortTerm terms.now }
    ensures { Writes F.state pen.old pen.new (terms_text (written_terms columns terms.now)) }
{
    match terms {
        [] => put_zero_term(pen, columns),
        [first, further @ ..] => {
            put_first_term(pen, first);
            put_further_terms(pen, further);
        }
    }
}

// Puts 0 times the first column of a file.
fn put_zero_term<F: Folder>(pen: &mut Pen<F>, columns: usize)
    ensures { Writes F.state pen.old pen.new (terms_text (or_zero columns [])) }
{
    pen.put(b"0 ");
    pen.put(name_of_first(columns));
}

fn put_first_term<F: Folder>(pen: &mut Pen<F>, term: &Term)
    requires { IsTrue (decimal.is_short term.now.1) }
    ensures { Writes F.state pen.old pen.new (first_term_text (written_term term.now)) }
{
    let (column, coefficient) = *term;
    put_number(pen, coefficient);
    pen.put(b" ");
    put_column_name(pen, column as usize);
}

fn put_first_offset<F: Folder>(pen: &mut Pen<F>, constant: Fraction)
    requires { IsTrue (decimal.is_short constant) }
    ensures { Writes F.state pen.old pen.new (first_term_text (record { number = short_number constant; name = offset_name })) }
{
    put_number(pen, constant);
    pen.put(b" one");
}

// Puts the terms that follow the first.
fn put_further_terms<F: Folder>(pen: &mut Pen<F>, terms: &[Term])
    requires { All IsShortTerm terms.now }
    ensures { Writes F.state pen.old pen.new (flat_map (λ (p : ℕ × forms.Term). further_term_text p.0 (written_term p.1)) (enumerate_from 1 terms.now)) }
{
    for (index, term) in terms.iter().enumerate() {
        put_further_term(pen, index + 1, term);
    }
}

// Puts a term that follows so many others.
fn put_further_term<F: Folder>(pen: &mut Pen<F>, before: usize, term: &Term)
    requires { IsTrue (decimal.is_short term.now.1) }
    ensures { Writes F.state pen.old pen.new (further_term_text before (written_term term.now)) }
{
    let (column, coefficient) = *term;
    pen.put(break_before(before));
    pen.put(sign(is_negative(coefficient)));
    put_magnitude(pen, coefficient);
    pen.put(b" ");
    put_column_name(pen, column as usize);
}

// Puts a constant as a term of `one` that follows so many others.
fn put_further_offset<F: Folder>(pen: &mut Pen<F>, before: usize, constant: Fraction)
    requires { IsTrue (decimal.is_short constant) }
    ensures { Writes F.state pen.old pen.new (further_term_text before (record { number = short_number constant; name = offset_name })) }
{
    pen.put(break_before(before));
    pen.put(sign(is_negative(constant)));
    put_magnitude(pen, constant);
    pen.put(b" one");
}

pub(crate) fn put_column_name<F: Folder>(pen: &mut Pen<F>, column: usize)
    ensures { Writes F.state pen.old pen.new (column_name column) }
{
    pen.put(b"x");
    pen.put_number(column);
}

// The name of a file's first column, where so many stand before `one`.
fn name_of_first(columns: usize) -> &'static [u8]
    ensures { result.now ≡ first_name columns }
{
    if columns == 0 { b"one" } else { b"x1" }
}

// The line end that stands before a term that follows four others, or eight, and so on.
fn break_before(before: usize) -> &'static [u8]
    ensures { result.now ≡ break_text before }
{
    if before % 4 == 0 { b"\n " } else { b"" }
}

fn sign(negative: bool) -> &'static [u8]
    ensures { result.now ≡ sign_text negative }
{
    if negative { b" - " } else { b" + " }
}
