//! Ranges of whole numbers.
ghost use Rattle.std.specs.Prelude.{◌≡◌, ◌≤◌, ◌<◌, IfOk, unsigned_abs};
ghost use Rattle.zim_answer.specs.Gives.{Gives};
ghost use Rattle.zim_fraction.specs.Limit.{limit};
ghost use Rattle.zim_sets.specs.Causes.{set_cause};
ghost use Rattle.zim_sets.specs.Ranges as spec;
ghost use Rattle.zim_sets.specs.Ranges.{range_tuples, range_of};

use crate::faults::SetFault;
use crate::tuple_set::{MOST, TupleSet};
use std::alloc::Global;
use zim_fault::{Memory, Sequence};
use zim_fraction::Fraction;
use zim_tuples::{Elem, Tuple};

// How many numbers a range has. The count fits even at the ends of 128 bits.
fn range_count(n: i128, m: i128, s: i128) -> u128
    requires first { unsigned_abs n ≤ limit }
    requires last { unsigned_abs m ≤ limit }
    requires step { 0 < unsigned_abs s }
    ensures { result ≡ spec.range_count n m s }
{
    let is_ahead = if s < 0 { m <= n } else { n <= m };
    if is_ahead {
        n.abs_diff(m) / s.unsigned_abs() + 1
    } else {
        0
    }
}

// The tuple of one whole number.
fn single(alloc: Global, number: i128) -> Result<Tuple, Memory>
    requires { unsigned_abs number ≤ limit }
    ensures { IfOk result (λ tuple. tuple ≡ spec.single number) }
{
    let mut tuple = Tuple::new(alloc);
    tuple.push(Elem::Number(Fraction::whole(number)))?;
    Ok(tuple)
}

// The numbers of a range that has so many, each as a tuple.
fn numbers_within(
    alloc: Global,
    n: i128,
    m: i128,
    s: i128,
    count: usize,
) -> Result<Sequence<Tuple>, Memory>
    requires first { unsigned_abs n ≤ limit }
    requires last { unsigned_abs m ≤ limit }
    requires step { 0 < unsigned_abs s }
    requires all { count ≡ spec.range_count n m s }
    ensures { IfOk result (λ made. made ≡ range_tuples n m s) }
{
    let mut made = Sequence::new(alloc);
    if count == 0 {
        return Ok(made);
    }
    let mut number = n;
    made.push(single(alloc, number)?)?;
    'steps: while made.len() < count {
        number += s;
        made.push(single(alloc, number)?)?;
    }
    Ok(made)
}

/// The numbers n, n + s, .. up to m, or down to m where s is negative, each as a tuple of one.
///
/// `StepZero` exactly where s is 0, else `SetSize` exactly where the numbers are more than 1,048,576.
pub fn range(alloc: Global, n: i128, m: i128, s: i128) -> Result<TupleSet, SetFault>
    requires first { unsigned_abs n ≤ limit }
    requires last { unsigned_abs m ≤ limit }
    ensures { Gives (λ set. set) set_cause (range_of n m s) result }
{
    if s == 0 {
        return Err(SetFault::StepZero);
    }
    let count = range_count(n, m, s);
    if count > MOST as u128 {
        return Err(SetFault::SetSize);
    }
    let made = numbers_within(alloc, n, m, s, count as usize)?;
    Ok(TupleSet::of_tuples(made))
}
