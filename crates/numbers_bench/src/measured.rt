// The loops that are timed. Each gives a check of its results, so that none is left out.
use std::alloc::Global;
use std::cmp::Ordering;
use zim_fraction::{Fraction, Past, add, compare, mul};
use zim_gathered::GatheredForm;
use zim_linear::{Form, LinFault, add_to};

fn shown(answer: Result<Fraction, Past>) -> i128 {
    match answer {
        Ok(q) => q.numer() ^ q.denom(),
        Err(_) => 1,
    }
}

/// All sums of the pairs.
pub fn summed(rounds: u64, pairs: &[(Fraction, Fraction)]) -> i128 {
    let mut check: i128 = 0;
    for _ in 0..rounds {
        for (a, b) in pairs {
            check = check.rotate_left(1).wrapping_add(shown(add(*a, *b)));
        }
    }
    check
}

/// All products of the pairs.
pub fn multiplied(rounds: u64, pairs: &[(Fraction, Fraction)]) -> i128 {
    let mut check: i128 = 0;
    for _ in 0..rounds {
        for (a, b) in pairs {
            check = check.rotate_left(1).wrapping_add(shown(mul(*a, *b)));
        }
    }
    check
}

/// The order of all pairs.
pub fn compared(rounds: u64, pairs: &[(Fraction, Fraction)]) -> i128 {
    let mut check: i128 = 0;
    for _ in 0..rounds {
        for (a, b) in pairs {
            let order = match compare(*a, *b) {
                Ordering::Less => 1,
                Ordering::Equal => 2,
                Ordering::Greater => 4,
            };
            check = check.rotate_left(1).wrapping_add(order);
        }
    }
    check
}

/// The number of terms of the sum of `count` forms of one column each, added from the left.
pub fn summed_forms(alloc: Global, count: u64) -> Result<usize, LinFault> {
    let mut total = Form::constant(alloc, Fraction::zero());
    let mut column: u32 = 0;
    for _ in 0..count {
        column = column.wrapping_add(1);
        add_to(&mut total, &Form::column(alloc, column)?)?;
    }
    Ok(total.terms().len())
}

/// An odd number: what is multiplied by it, modulo 2^32, comes in a scattered order, and no number twice.
const SCATTER: u32 = 2_654_435_761;

/// The number of terms of the sum of `count` forms of one column each, added from the left, with the columns in a
/// scattered order.
pub fn gathered_forms(alloc: Global, count: u64) -> Result<usize, LinFault> {
    let mut total = GatheredForm::of(alloc, Form::constant(alloc, Fraction::zero()));
    let mut place: u32 = 0;
    for _ in 0..count {
        place = place.wrapping_add(1);
        total.add(&Form::column(alloc, place.wrapping_mul(SCATTER))?)?;
    }
    Ok(total.into_form()?.terms().len())
}
