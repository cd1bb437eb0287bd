// The rows of a comparison and of a range.
ghost use Rattle.std.specs.Prelude.{◌≡◌, ◌<◌, [], ◌∷◌, length, map, Ok, IfOk, IfSome};
ghost use Rattle.zim_answer.specs.Gives.{Gives};
ghost use Rattle.zim_rational.specs.Rational.{zero};
ghost use Rattle.zim_linear.specs.Forms.{AreColumns};
ghost use Rattle.zim_rows.specs.System as systems;
ghost use Rattle.zim_rows.specs.Steps.{given_row, encode_cause};
ghost use Rattle.zim_logic_rows.specs.LogicRows.{compared_row};
ghost use Rattle.zim_vif.specs.Constraints as exact;

use crate::guards::{guarded_range, guarded_rows};
use std::alloc::Global;
use std::cmp::Ordering;
use zim_fault::{Memory, Place, Relation, Sequence};
use zim_forms as forms;
use zim_forms::exact_difference;
use zim_fraction as numbers;
use zim_fraction::{Fraction, Past};
use zim_linear::{Form, LinFault, Sides};
use zim_logic_rows::{Guard, past_at};
use zim_rows::{EncodeFault, NewRow, RowFrom, RowKind, Sense, System};

/// The two numbers between which the terms of a range lie.
#[derive(Clone, Copy, Drop)]
struct Limits {
    low: Fraction,
    high: Fraction,
}

/// The rows of a comparison of a form with 0, under a guard or none.
///
/// The fault, at the place of `from`, is `Past` where a number of an end of the form's terms is under a guard, then
/// `GuardUnbounded` where an end that is needed is infinite, then `Past` where a number of a row is.
pub(crate) fn comparison_rows(
    alloc: Global,
    system: &System,
    from: RowFrom,
    guard: Guard,
    relation: Relation,
    form: &Form,
) -> Result<Sequence<NewRow>, EncodeFault>
    requires columns { AreColumns (length system.now.columns) form.now.terms }
    requires guard { IfSome guard (λ l. 0 < l.column) }
    ensures { Gives (λ rows. map given_row rows) encode_cause (exact.comparison_rows from guard relation form.now system.now) result }
{
    match guard {
        None => Ok(plain_rows(alloc, from, relation, form)?),
        Some(l) => {
            let ends = ends_at(system, from.place, form)?;
            let right = numbers::negated(form.constant_part());
            guarded_rows(alloc, from, l, relation, form, right, &ends)
        }
    }
}

/// The rows of `low <= form <= high`, under a guard or none; faults as in `comparison_rows`.
pub(crate) fn ranged_rows(
    alloc: Global,
    system: &System,
    from: RowFrom,
    guard: Guard,
    form: &Form,
    low: Fraction,
    high: Fraction,
) -> Result<Sequence<NewRow>, EncodeFault>
    requires columns { AreColumns (length system.now.columns) form.now.terms }
    requires guard { IfSome guard (λ l. 0 < l.column) }
    ensures { Gives (λ rows. map given_row rows) encode_cause (exact.ranged_rows from guard form.now low high system.now) result }
{
    match guard {
        None => match limits_of(form, low, high) {
            Ok(limits) => Ok(range_rows(alloc, from, form, limits.low, limits.high)?),
            Err(_) => Err(past_at(from.place, LinFault::Past)),
        },
        Some(l) => {
            let ends = ends_at(system, from.place, form)?;
            guarded_range(alloc, from, l, form, low, high, &ends)
        }
    }
}

/// A form without its constant.
pub(crate) fn terms_of(alloc: Global, form: &Form) -> Result<Form, Memory>
    ensures { IfOk result (λ terms. terms ≡ exact.terms_of form.now) }
{
    let terms = Vec::from_slice(alloc, form.terms())?;
    Ok(Form::of_terms(terms, Fraction::zero()))
}

// The ends of a form's terms over the sides of the columns.
fn ends_at(system: &System, place: Place, form: &Form) -> Result<Sides, EncodeFault>
    requires { AreColumns (length system.now.columns) form.now.terms }
    ensures { Gives (λ ends. ends) encode_cause (exact.ends_at place form.now system.now) result }
{
    match forms::ends(form, system.sides()) {
        Ok(ends) => Ok(ends),
        Err(_) => Err(past_at(place, LinFault::Past)),
    }
}

// The rows of a comparison of a form with 0 without a guard.
fn plain_rows(
    alloc: Global,
    from: RowFrom,
    relation: Relation,
    form: &Form,
) -> Result<Sequence<NewRow>, Memory>
    ensures { IfOk result (λ rows. map given_row rows ≡ exact.plain_rows from relation form.now) }
{
    match relation {
        Relation::AtMost => compared(alloc, from, form, Sense::AtMost),
        Relation::AtLeast => compared(alloc, from, form, Sense::AtLeast),
        Relation::EqualTo => compared(alloc, from, form, Sense::Equal),
        Relation::LessThan => Ok(Sequence::new(alloc)),
        Relation::NotEqualTo => Ok(Sequence::new(alloc)),
        Relation::GreaterThan => Ok(Sequence::new(alloc)),
    }
}

// The row that compares a form with 0.
fn compared(
    alloc: Global,
    from: RowFrom,
    form: &Form,
    sense: Sense,
) -> Result<Sequence<NewRow>, Memory>
    ensures { IfOk result (λ rows. map given_row rows ≡ compared_row from form.now sense zero ∷ []) }
{
    let right = numbers::negated(form.constant_part());
    alone(alloc, row(alloc, from, form, RowKind::One(sense, right))?)
}

// The row of a form's terms.
fn row(alloc: Global, from: RowFrom, form: &Form, kind: RowKind) -> Result<NewRow, Memory>
    ensures { IfOk result (λ row. given_row row ≡ systems.row_of from form.now.terms kind) }
{
    let form = terms_of(alloc, form)?;
    Ok(NewRow { from, form, kind })
}

// The sides of a range less the constant of its form.
fn limits_of(form: &Form, low: Fraction, high: Fraction) -> Result<Limits, Past>
    ensures { result ≡ exact.sides_less form.now low high (λ l h. record { low = l; high = h }) }
{
    let low = exact_difference(Ok(low), Ok(form.constant_part()))?;
    let high = exact_difference(Ok(high), Ok(form.constant_part()))?;
    Ok(Limits { low, high })
}

// The rows of a range of a form's terms without a guard.
fn range_rows(
    alloc: Global,
    from: RowFrom,
    form: &Form,
    low: Fraction,
    high: Fraction,
) -> Result<Sequence<NewRow>, Memory>
    ensures { IfOk result (λ rows. map given_row rows ≡ exact.range_rows from form.now low high) }
{
    match numbers::compare(low, high) {
        Ordering::Less => alone(alloc, row(alloc, from, form, RowKind::Range(low, high))?),
        Ordering::Equal => alone(
            alloc,
            row(alloc, from, form, RowKind::One(Sense::Equal, low))?,
        ),
        Ordering::Greater => {
            let above = row(alloc, from, form, RowKind::One(Sense::AtLeast, low))?;
            let under = row(alloc, from, form, RowKind::One(Sense::AtMost, high))?;
            pair(alloc, above, under)
        }
    }
}

/// A row alone.
pub(crate) fn alone(alloc: Global, row: NewRow) -> Result<Sequence<NewRow>, Memory>
    ensures { IfOk result (λ rows. map given_row rows ≡ given_row row ∷ []) }
{
    let mut rows = Sequence::new(alloc);
    rows.push(row)?;
    Ok(rows)
}

/// Two rows.
pub(crate) fn pair(alloc: Global, first: NewRow, second: NewRow) -> Result<Sequence<NewRow>, Memory>
    ensures { IfOk result (λ rows. map given_row rows ≡ given_row first ∷ given_row second ∷ []) }
{
    let mut rows = Sequence::new(alloc);
    rows.push(first)?;
    rows.push(second)?;
    Ok(rows)
}
