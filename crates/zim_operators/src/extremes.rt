//! The least and the greatest of numbers.
ghost use Rattle.std.specs.Prelude.{◌≡◌, None};
ghost use Rattle.zim_answer.specs.Answer.{goes};
ghost use Rattle.zim_meaning.specs.Operations.{best_with, best_with_tuple};
ghost use Rattle.zim_meaning.specs.Operations as spec;
ghost use Rattle.zim_rational.specs.Rounding as exact;

use crate::kinds::number_of;
use std::cmp::Ordering;
use zim_fault::Kind;
use zim_fraction::{Fraction, compare};
use zim_meaning::Value;
use zim_tuples::{Elem, Tuple};

// The larger of two numbers.
fn larger(p: Fraction, q: Fraction) -> Fraction
    ensures { result ≡ exact.larger p q }
{
    match compare(p, q) {
        Ordering::Less => q,
        Ordering::Equal => q,
        Ordering::Greater => p,
    }
}

// The smaller of two numbers.
fn smaller(p: Fraction, q: Fraction) -> Fraction
    ensures { result ≡ exact.smaller p q }
{
    match compare(p, q) {
        Ordering::Less => p,
        Ordering::Equal => p,
        Ordering::Greater => q,
    }
}

// The better of what was best so far and one more.
fn better(greatest: bool, best: &Option<Fraction>, number: Fraction) -> Fraction
    ensures { result ≡ spec.better greatest best.now number }
{
    match best {
        None => number,
        Some(before) => {
            if greatest {
                larger(*before, number)
            } else {
                smaller(*before, number)
            }
        }
    }
}

// The best so far with a value.
fn with_value(
    greatest: bool,
    best: &Option<Fraction>,
    value: &Value,
) -> Result<Option<Fraction>, Kind>
    ensures { result ≡ best_with greatest best.now value.now }
{
    match number_of(value) {
        Ok(number) => Ok(Some(better(greatest, best, number))),
        Err(kind) => Err(kind),
    }
}

// The best so far with the number of a tuple.
fn with_tuple(
    greatest: bool,
    best: &Option<Fraction>,
    tuple: &Tuple,
) -> Result<Option<Fraction>, Kind>
    ensures { result ≡ best_with_tuple greatest best.now tuple.now }
{
    match tuple.as_slice() {
        [Elem::Number(number)] => Ok(Some(better(greatest, best, *number))),
        _ => Err(Kind::WrongKind),
    }
}

// The best of values.
fn best_of_values(greatest: bool, values: &[Value]) -> Result<Option<Fraction>, Kind>
    ensures { result ≡ goes (best_with greatest) None values.now }
{
    let mut best = None;
    for value in values {
        match with_value(greatest, &best, value) {
            Ok(next) => best = next,
            Err(kind) => return Err(kind),
        }
    }
    Ok(best)
}

// The best of the numbers of tuples.
fn best_of_tuples(greatest: bool, tuples: &[Tuple]) -> Result<Option<Fraction>, Kind>
    ensures { result ≡ goes (best_with_tuple greatest) None tuples.now }
{
    let mut best = None;
    for tuple in tuples {
        match with_tuple(greatest, &best, tuple) {
            Ok(next) => best = next,
            Err(kind) => return Err(kind),
        }
    }
    Ok(best)
}

// The best of all as a value.
fn best_value(best: &Option<Fraction>) -> Result<Value, Kind>
    ensures { result ≡ spec.best_value best.now }
{
    match best {
        Some(number) => Ok(Value::Number(*number)),
        None => Err(Kind::EmptyChoice),
    }
}

/// The least of numbers, or the greatest where the flag says so: of the values, or where there is one alone, which is
/// a set, of the numbers of its tuples, which have one component.
///
/// The first value or tuple that is no number is `WrongKind`; where there is none at all it is `EmptyChoice`.
#[tactic(auto, unfolding(zim_meaning::specs::Operations::extreme))]
pub fn extreme(greatest: bool, values: &[Value]) -> Result<Value, Kind>
    ensures { result ≡ spec.extreme greatest values.now }
{
    let best = match values {
        [Value::Set(set)] => best_of_tuples(greatest, set.as_slice()),
        _ => best_of_values(greatest, values),
    };
    match best {
        Ok(best) => best_value(&best),
        Err(kind) => Err(kind),
    }
}
