// Rows that are asked where a literal is 1.
ghost use Rattle.std.specs.Prelude.{◌≡◌, ◌<◌, [], ◌∷◌, map, IfOk};
ghost use Rattle.zim_answer.specs.Gives.{Gives};
ghost use Rattle.zim_rational.specs.Rational.{zero, negate};
ghost use Rattle.zim_forms.specs.Algebra.{◌⊙◌, form_cause};
ghost use Rattle.zim_rows.specs.Steps.{given_row, encode_cause, fault_here};
ghost use Rattle.zim_logic_rows.specs.Literals.{is};
ghost use Rattle.zim_logic_rows.specs.Guards as exact;
ghost use Rattle.zim_vif.specs.Constraints as constraints;
ghost use Rattle.zim_vif.specs.RowSteps as steps;

use crate::rows::{alone, pair, terms_of};
use std::alloc::Global;
use zim_fault::{Fault, Kind, Memory, Place, Relation, Sequence};
use zim_forms::{exact_difference, sum, with_column};
use zim_fraction as numbers;
use zim_fraction::Fraction;
use zim_linear::{Form, LinFault, Sides};
use zim_logic_rows::{Literal, past_at};
use zim_rows::{EncodeFault, NewRow, RowFrom, RowKind, Sense};

/// The rows of a comparison of a form with 0 where a literal is 1, by the ends of the form's terms and the right side that
/// its constant makes.
///
/// The fault, at the place of `from`, is `GuardUnbounded` exactly where an end that a row needs is infinite; else `Past`
/// exactly where a number of a row is.
pub(crate) fn guarded_rows(
    alloc: Global,
    from: RowFrom,
    l: Literal,
    relation: Relation,
    form: &Form,
    right: Fraction,
    ends: &Sides,
) -> Result<Sequence<NewRow>, EncodeFault>
    requires from_one { 0 < l.column }
    requires right_side { right ≡ negate form.now.constant }
    ensures { Gives (λ rows. map given_row rows) encode_cause (constraints.guarded_rows from l relation form.now ends.now) result }
{
    let terms = terms_of(alloc, form)?;
    match relation {
        Relation::AtMost => rows_at_end(alloc, from, &terms, l, Sense::AtMost, right, ends.high),
        Relation::AtLeast => rows_at_end(alloc, from, &terms, l, Sense::AtLeast, right, ends.low),
        Relation::EqualTo => under_both(alloc, from, &terms, l, right, ends),
        Relation::LessThan => Ok(Sequence::new(alloc)),
        Relation::NotEqualTo => Ok(Sequence::new(alloc)),
        Relation::GreaterThan => Ok(Sequence::new(alloc)),
    }
}

/// The rows of `low <= form <= high` where a literal is 1, by the ends of the form's terms; faults as in `guarded_rows`.
pub(crate) fn guarded_range(
    alloc: Global,
    from: RowFrom,
    l: Literal,
    form: &Form,
    low: Fraction,
    high: Fraction,
    ends: &Sides,
) -> Result<Sequence<NewRow>, EncodeFault>
    requires { 0 < l.column }
    ensures { Gives (λ rows. map given_row rows) encode_cause (constraints.guarded_range from l form.now low high ends.now) result }
{
    match ends.low {
        None => Err(unbounded(from.place)),
        Some(least) => match ends.high {
            None => Err(unbounded(from.place)),
            Some(greatest) => {
                match range_between(alloc, from, form, l, low, high, least, greatest) {
                    Ok(rows) => Ok(rows),
                    Err(fault) => Err(past_at(from.place, fault)),
                }
            }
        },
    }
}

// The rows `c >= v` and `c <= v` where a literal is 1.
fn under_both(
    alloc: Global,
    from: RowFrom,
    c: &Form,
    l: Literal,
    v: Fraction,
    ends: &Sides,
) -> Result<Sequence<NewRow>, EncodeFault>
    requires from_one { 0 < l.column }
    requires no_constant { c.now.constant ≡ zero }
    ensures { Gives (λ rows. map given_row rows) encode_cause (exact.under_both from c.now l v v ends.now) result }
{
    match ends.low {
        None => Err(unbounded(from.place)),
        Some(least) => match ends.high {
            None => Err(unbounded(from.place)),
            Some(greatest) => match both_rows(alloc, from, c, l, v, v, least, greatest) {
                Ok(rows) => Ok(rows),
                Err(fault) => Err(past_at(from.place, fault)),
            },
        },
    }
}

// The row that compares c with v where a literal is 1, if the end that it needs is there.
fn rows_at_end(
    alloc: Global,
    from: RowFrom,
    c: &Form,
    l: Literal,
    sense: Sense,
    v: Fraction,
    end: Option<Fraction>,
) -> Result<Sequence<NewRow>, EncodeFault>
    requires from_one { 0 < l.column }
    requires no_constant { c.now.constant ≡ zero }
    ensures { Gives (λ rows. map given_row rows) encode_cause (steps.rows_at_end from c.now l sense v end) result }
{
    match end {
        None => Err(unbounded(from.place)),
        Some(end) => match row_at_end(alloc, from, c, l, sense, v, end) {
            Ok(row) => Ok(alone(alloc, row)?),
            Err(fault) => Err(past_at(from.place, fault)),
        },
    }
}

// The rows of a range by its sides as they are written.
fn range_between(
    alloc: Global,
    from: RowFrom,
    form: &Form,
    l: Literal,
    low: Fraction,
    high: Fraction,
    least: Fraction,
    greatest: Fraction,
) -> Result<Sequence<NewRow>, LinFault>
    requires { 0 < l.column }
    ensures { Gives (λ rows. map given_row rows) form_cause (steps.range_between from form.now l low high least greatest) result }
{
    let v = match exact_difference(Ok(low), Ok(form.constant_part())) {
        Ok(v) => v,
        Err(_) => return Err(LinFault::Past),
    };
    let w = match exact_difference(Ok(high), Ok(form.constant_part())) {
        Ok(w) => w,
        Err(_) => return Err(LinFault::Past),
    };
    let terms = terms_of(alloc, form)?;
    both_rows(alloc, from, &terms, l, v, w, least, greatest)
}

// The rows `c >= v` and `c <= w` where a literal is 1, by the ends of c.
fn both_rows(
    alloc: Global,
    from: RowFrom,
    c: &Form,
    l: Literal,
    v: Fraction,
    w: Fraction,
    least: Fraction,
    greatest: Fraction,
) -> Result<Sequence<NewRow>, LinFault>
    requires from_one { 0 < l.column }
    requires no_constant { c.now.constant ≡ zero }
    ensures { Gives (λ rows. map given_row rows) form_cause (steps.both_rows from c.now l v w least greatest) result }
{
    let first = row_at_end(alloc, from, c, l, Sense::AtLeast, v, least)?;
    let second = row_at_end(alloc, from, c, l, Sense::AtMost, w, greatest)?;
    Ok(pair(alloc, first, second)?)
}

// The row that compares c with v where a literal is 1, by an end of c. `Past` exactly where one of its numbers is.
fn row_at_end(
    alloc: Global,
    from: RowFrom,
    c: &Form,
    l: Literal,
    sense: Sense,
    v: Fraction,
    end: Fraction,
) -> Result<NewRow, LinFault>
    requires from_one { 0 < l.column }
    requires no_constant { c.now.constant ≡ zero }
    ensures { Gives (λ row. given_row row) form_cause (steps.row_at_end from c.now l sense v end) result }
{
    let slack = match numbers::sub(end, v) {
        Ok(slack) => slack,
        Err(_) => return Err(LinFault::Past),
    };
    let share = share_of(alloc, l, slack)?;
    let form = sum(alloc, c, &share)?;
    let right = if l.positive { end } else { v };
    Ok(NewRow {
        from,
        form,
        kind: RowKind::One(sense, right),
    })
}

// A literal times a number, as a form.
fn share_of(alloc: Global, l: Literal, q: Fraction) -> Result<Form, Memory>
    requires { 0 < l.column }
    ensures { IfOk result (λ form. form ≡ q ⊙ is l) }
{
    if l.positive {
        let nought = Form::constant(alloc, Fraction::zero());
        with_column(alloc, &nought, q, l.column)
    } else {
        let whole = Form::constant(alloc, q);
        with_column(alloc, &whole, numbers::negated(q), l.column)
    }
}

// The fault of a guarded row whose end is infinite.
fn unbounded(place: Place) -> EncodeFault
    ensures { result ≡ EncodeFault.Fault (fault_here Kind.GuardUnbounded place) }
{
    EncodeFault::Fault(Fault {
        place,
        kind: Kind::GuardUnbounded,
    })
}
