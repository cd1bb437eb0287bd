// Rows and the objective times their factors.
ghost use Rattle.std.specs.Prelude.{◌≡◌, ◌≤◌, ◌<◌, IsTrue, Ok, Err};
ghost use Rattle.std.specs.Result.{OkIff};
ghost use Rattle.zim_fraction.specs.Limit.{limit};
ghost use Rattle.zim_rows.specs.Factors.{kind_within};
ghost use Rattle.zim_rows.specs.Scaled as exact;
ghost use Rattle.zim_rows.specs.Scaled.{ScaledTermsAnswer, RowAnswer, RowsAnswer, ObjectiveAnswer, TargetAnswer};

use crate::factors::{form_factor, row_factor};
use crate::faults::FinishFault;
use crate::rows::{GivenRow, Objective, Row, RowKind, Target};
use std::alloc::Global;
use zim_fault::{Fault, Kind, Place, Sequence};
use zim_fraction as numbers;
use zim_fraction::{Fraction, Past};
use zim_linear::{LinFault, Term};

// A number times k.
fn scaled_number(q: Fraction, k: u128) -> Result<Fraction, Past>
    requires { k ≤ limit }
    ensures { result ≡ exact.factor_answer k q }
{
    numbers::mul(q, Fraction::whole(k as i128))
}

// Terms with their coefficients times k.
fn scaled_terms(alloc: Global, mut rest: &[Term], k: u128) -> Result<Sequence<Term>, LinFault>
    requires { k ≤ limit }
    ensures { ScaledTermsAnswer k rest.now result }
{
    let mut made = Vec::new(alloc);
    while let Some((t, more)) = rest.split_first() {
        let q = match scaled_number(t.1, k) {
            Ok(q) => q,
            Err(_) => return Err(LinFault::Past),
        };
        made.push((t.0, q))?;
        rest = more;
    }
    Ok(Sequence::from_vec(made))
}

// A row's right sides times k. Past where one of them is, or the difference of a range's two.
fn scaled_kind(kind: &RowKind, k: u128) -> Result<RowKind, Past>
    requires { k ≤ limit }
    ensures { OkIff result (IsTrue (kind_within k kind.now)) (exact.scaled_kind k kind.now) }
{
    match kind {
        RowKind::One(sense, right) => match scaled_number(*right, k) {
            Ok(right) => Ok(RowKind::One(*sense, right)),
            Err(_) => Err(Past),
        },
        RowKind::Range(low, high) => scaled_range(*low, *high, k),
    }
}

// A range's sides times k.
fn scaled_range(low: Fraction, high: Fraction, k: u128) -> Result<RowKind, Past>
    requires { k ≤ limit }
    ensures { OkIff result (IsTrue (kind_within k (RowKind.Range low high))) (exact.scaled_kind k (RowKind.Range low high)) }
{
    let low = match scaled_number(low, k) {
        Ok(low) => low,
        Err(_) => return Err(Past),
    };
    let high = match scaled_number(high, k) {
        Ok(high) => high,
        Err(_) => return Err(Past),
    };
    match numbers::sub(high, low) {
        Ok(_) => Ok(RowKind::Range(low, high)),
        Err(_) => Err(Past),
    }
}

// A row with all its numbers times its factor.
fn scaled_row(alloc: Global, row: &GivenRow) -> Result<Row, LinFault>
    ensures { RowAnswer row.now result }
{
    let factor = match row_factor(row.terms.as_slice(), &row.kind) {
        Ok(factor) => factor,
        Err(_) => return Err(LinFault::Past),
    };
    let terms = match scaled_terms(alloc, row.terms.as_slice(), factor) {
        Ok(terms) => terms,
        Err(stop) => return Err(stop),
    };
    match scaled_kind(&row.kind, factor) {
        Ok(kind) => Ok(Row {
            from: row.from,
            factor: factor as i128,
            terms,
            kind,
        }),
        Err(_) => Err(LinFault::Past),
    }
}

// The fault that a number of a row or of the objective passes 128 bits.
fn past_at(place: Place) -> FinishFault
    ensures { result ≡ FinishFault.Fault (exact.past_fault place) }
{
    FinishFault::Fault(Fault {
        place,
        kind: Kind::Past,
    })
}

/// All rows times their factors; the fault is that of the first that is past.
pub(crate) fn scaled_rows(
    alloc: Global,
    mut rest: &[GivenRow],
) -> Result<Sequence<Row>, FinishFault>
    ensures { RowsAnswer rest.now result }
{
    let mut made = Vec::new(alloc);
    while let Some((given, more)) = rest.split_first() {
        let row = match scaled_row(alloc, given) {
            Ok(row) => row,
            Err(LinFault::Past) => return Err(past_at(given.from.place)),
            Err(LinFault::Memory) => return Err(FinishFault::Memory),
        };
        made.push(row)?;
        rest = more;
    }
    Ok(Sequence::from_vec(made))
}

// The objective's numbers times its factor.
fn scaled_objective(alloc: Global, given: &Objective) -> Result<Target, LinFault>
    ensures { ObjectiveAnswer given.now result }
{
    let factor = match form_factor(&given.form) {
        Ok(factor) => factor,
        Err(_) => return Err(LinFault::Past),
    };
    let terms = match scaled_terms(alloc, given.form.terms(), factor) {
        Ok(terms) => terms,
        Err(stop) => return Err(stop),
    };
    match scaled_number(given.form.constant_part(), factor) {
        Ok(constant) => Ok(Target {
            maximize: given.maximize,
            place: Some(given.place),
            factor: factor as i128,
            terms,
            constant,
        }),
        Err(_) => Err(LinFault::Past),
    }
}

/// The objective times its factor, or its fault where it is past; without one, a target that minimises 0.
pub(crate) fn scaled_target(
    alloc: Global,
    objective: &Option<Objective>,
) -> Result<Target, FinishFault>
    ensures { TargetAnswer objective.now result }
{
    match objective {
        None => Ok(Target {
            maximize: false,
            place: None,
            factor: 1,
            terms: Sequence::new(alloc),
            constant: Fraction::zero(),
        }),
        Some(given) => match scaled_objective(alloc, given) {
            Ok(target) => Ok(target),
            Err(LinFault::Past) => Err(past_at(given.place)),
            Err(LinFault::Memory) => Err(FinishFault::Memory),
        },
    }
}
