//! The points of a finished system that begin with given numbers, found by trying all others.

use crate::columns::is_at_most;
use crate::stops::Stop;
use std::alloc::Global;
use zim_fraction::{Fraction, add, mul};
use zim_linear::{Sides, Term};
use zim_rows::{Column, Finished, RowKind, Sense};

/// How many lists of numbers are tried at most.
const MOST: u64 = 1_000_000;

/// The whole numbers of a column: the least one, and how many there are.
#[derive(Clone, Copy, Debug)]
struct Choices {
    least: i64,
    count: u64,
}

/// The whole number that a fraction is, if it is a small one.
fn small(q: Fraction) -> Result<i64, Stop> {
    if q.denom() != 1 {
        return Err(Stop::NoCase);
    }
    i64::try_from(q.numer()).or(Err(Stop::NoCase))
}

/// The numbers of an integer column with both sides.
fn choices_of(column: &Column) -> Result<Choices, Stop> {
    match (column.integer, column.sides.low, column.sides.high) {
        (true, Some(low), Some(high)) => {
            let least = small(low)?;
            let count = small(high)?.wrapping_sub(least).wrapping_add(1);
            match u64::try_from(count) {
                Ok(count) => Ok(Choices { least, count }),
                Err(_) => Err(Stop::NoCase),
            }
        }
        _ => Err(Stop::NoCase),
    }
}

/// Whether a number lies between sides.
fn is_between(sides: &Sides, q: Fraction) -> bool {
    let above = match sides.low {
        Some(low) => is_at_most(low, q),
        None => true,
    };
    let below = match sides.high {
        Some(high) => is_at_most(q, high),
        None => true,
    };
    above && below
}

/// The sum of terms at these numbers.
fn sum_at(terms: &[Term], numbers: &[Fraction]) -> Result<Fraction, Stop> {
    let mut sum = Fraction::zero();
    for (column, coefficient) in terms {
        let Some(number) = numbers.get((*column as usize).wrapping_sub(1)) else {
            return Err(Stop::NoCase);
        };
        let Ok(product) = mul(*coefficient, *number) else {
            return Err(Stop::NoCase);
        };
        let Ok(next) = add(sum, product) else {
            return Err(Stop::NoCase);
        };
        sum = next;
    }
    Ok(sum)
}

/// Whether a sum is what a row asks.
fn is_asked(kind: &RowKind, sum: Fraction) -> bool {
    match kind {
        RowKind::One(Sense::AtLeast, right) => is_at_most(*right, sum),
        RowKind::One(Sense::AtMost, right) => is_at_most(sum, *right),
        RowKind::One(Sense::Equal, right) => sum.same_number(right),
        RowKind::Range(low, high) => is_at_most(*low, sum) && is_at_most(sum, *high),
    }
}

/// Whether these numbers are a point of the system.
fn is_point(system: &Finished, numbers: &[Fraction]) -> Result<bool, Stop> {
    for (column, number) in system.columns.as_slice().iter().zip(numbers.iter()) {
        if column.integer && number.denom() != 1 || !is_between(&column.sides, *number) {
            return Ok(false);
        }
    }
    for row in system.rows.as_slice() {
        if !is_asked(&row.kind, sum_at(row.terms.as_slice(), numbers)?) {
            return Ok(false);
        }
    }
    Ok(true)
}

/// For each point of the system that begins with these numbers the whole numbers behind them, those of a column that
/// stands earlier changing first.
pub fn points_behind(
    alloc: Global,
    system: &Finished,
    first: &[Fraction],
) -> Result<Vec<Vec<i64>>, Stop> {
    let mut behind = Vec::new(alloc);
    let mut total: u64 = 1;
    for column in system.columns.as_slice().iter().skip(first.len()) {
        let choices = choices_of(column)?;
        total = total.saturating_mul(choices.count);
        behind.push(choices)?;
    }
    if total > MOST {
        return Err(Stop::NoCase);
    }
    let mut points = Vec::new(alloc);
    for index in 0..total {
        let mut numbers = Vec::new(alloc);
        for number in first {
            numbers.push(*number)?;
        }
        let mut helpers = Vec::new(alloc);
        let mut rest = index;
        for choices in behind.iter() {
            let Some(step) = rest.checked_rem(choices.count) else {
                return Err(Stop::NoCase);
            };
            let Some(next) = rest.checked_div(choices.count) else {
                return Err(Stop::NoCase);
            };
            let number = choices.least.wrapping_add_unsigned(step);
            rest = next;
            helpers.push(number)?;
            numbers.push(Fraction::whole(number as i128))?;
        }
        if is_point(system, numbers.as_slice())? {
            points.push(helpers)?;
        }
    }
    Ok(points)
}
