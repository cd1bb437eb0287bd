// The least and the greatest number of a form's terms.
ghost use Rattle.std.specs.Prelude.{◌≡◌, ◌<◌, ◌≤◌, length, IfOk};
ghost use Rattle.zim_linear.specs.Ends as exact;
ghost use Rattle.zim_linear.specs.Ends.{HaveSides, side_of, EndsAnswer, AreEnds};

use crate::form::{Form, Term};
use crate::sides::{End, Sides};
use zim_fraction as numbers;
use zim_fraction::{Fraction, Past};

/// The least and the greatest number of the terms of a form, without its constant, where each column
/// lies between its sides; the sides of column j stand at j - 1.
///
/// An end is infinite where a column has no side on the side that counts. A finite end is the sum, in
/// column order, of the products of the coefficients with the sides that count. `Past` exactly where
/// one of these products or sums is past.
pub fn bounds(a: &Form, sides: &[Sides]) -> Result<Sides, Past>
    requires { HaveSides sides.now a.now.terms }
    ensures answer { EndsAnswer sides.now a.now.terms result }
    ensures ends { IfOk result (AreEnds sides.now a.now.terms) }
{
    let low = match end(End::Least, a.terms(), sides) {
        Ok(low) => low,
        Err(_) => return Err(Past),
    };
    let high = match end(End::Greatest, a.terms(), sides) {
        Ok(high) => high,
        Err(_) => return Err(Past),
    };
    Ok(Sides { low, high })
}

// One end of the terms, none where it is infinite.
fn end(end: End, terms: &[Term], sides: &[Sides]) -> Result<Option<Fraction>, Past>
    requires { HaveSides sides.now terms.now }
    ensures { result ≡ exact.end_answer end sides.now terms.now }
{
    if !has_end(end, terms, sides) {
        return Ok(None);
    }
    let mut sum = Fraction::zero();
    let mut rest = terms;
    while let Some((t, more)) = rest.split_first() {
        let Some(side) = side(end, t, sides) else {
            return Ok(None);
        };
        let product = match numbers::mul(t.1, side) {
            Ok(product) => product,
            Err(_) => return Err(Past),
        };
        sum = match numbers::add(sum, product) {
            Ok(sum) => sum,
            Err(_) => return Err(Past),
        };
        rest = more;
    }
    Ok(Some(sum))
}

// Whether each column has the side that counts.
fn has_end(end: End, mut terms: &[Term], sides: &[Sides]) -> bool
    requires { HaveSides sides.now terms.now }
    ensures { result ≡ exact.has_end end sides.now terms.now }
{
    while let Some((t, more)) = terms.split_first() {
        if side(end, t, sides).is_none() {
            return false;
        }
        terms = more;
    }
    true
}

// The side of a term's column that counts for an end.
fn side(end: End, t: &Term, sides: &[Sides]) -> Option<Fraction>
    requires first { 0 < t.now.0 }
    requires last { t.now.0 ≤ length sides.now }
    ensures { result ≡ side_of end sides.now t.now }
{
    let column = &sides[t.0 as usize - 1];
    let turned = t.1.numer() < 0;
    match end {
        End::Least => if turned { column.high } else { column.low },
        End::Greatest => if turned { column.low } else { column.high },
    }
}
