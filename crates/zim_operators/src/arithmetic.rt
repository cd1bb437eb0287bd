//! Literals, and the operators on one number or truth value and on two numbers.
ghost use Rattle.std.specs.Prelude.{◌≡◌, ◌&&◌, if◌then◌else◌, Err};
ghost use Rattle.zim_fault.specs.declared.kinds.Kind.TheVariants.{NotInteger};
ghost use Rattle.zim_fraction.specs.Answers.{power_answer};
ghost use Rattle.zim_meaning.specs.Operations.{literal_value, value_signed, value_factorial, value_negated, value_raised};
ghost use Rattle.zim_functions.specs.Numbers as functions;
ghost use Rattle.zim_meaning.specs.Operations as spec;
ghost use Rattle.zim_rational.specs.Rational as exact;

use crate::kinds::{number_of, truth_of};
use std::cmp::Ordering;
use zim_decimal::read_field;
use zim_fault::{Bytes, Kind};
use zim_fraction as numbers;
use zim_fraction::{Fraction, NumFault, Past, compare, power};
use zim_functions::{NumStop, factorial};
use zim_meaning::Value;

// A number as a value.
pub(crate) fn number_or_past(answer: Result<Fraction, Past>) -> Result<Value, Kind>
    ensures { result ≡ spec.number_or_past answer }
{
    match answer {
        Ok(number) => Ok(Value::Number(number)),
        Err(_) => Err(Kind::Past),
    }
}

// A quotient or a power as a value.
pub(crate) fn number_or_fault(answer: Result<Fraction, NumFault>) -> Result<Value, Kind>
    ensures { result ≡ spec.number_or_fault answer }
{
    match answer {
        Ok(number) => Ok(Value::Number(number)),
        Err(NumFault::Past) => Err(Kind::Past),
        Err(NumFault::DivZero) => Err(Kind::DivZero),
    }
}

// A number of whole numbers as a value.
pub(crate) fn number_or_stop(answer: Result<Fraction, NumStop>) -> Result<Value, Kind>
    ensures { result ≡ spec.number_or_stop answer }
{
    match answer {
        Ok(number) => Ok(Value::Number(number)),
        Err(NumStop::NotInteger) => Err(Kind::NotInteger),
        Err(NumStop::DivZero) => Err(Kind::DivZero),
        Err(NumStop::Past) => Err(Kind::Past),
    }
}

// Whether it is a whole number.
pub(crate) fn is_whole(number: &Fraction) -> bool
    ensures { result ≡ exact.is_whole number.now }
{
    number.denom() == 1
}

// Whether both are whole numbers.
pub(crate) fn are_whole(a: &Fraction, b: &Fraction) -> bool
    ensures { result ≡ (exact.is_whole a.now && exact.is_whole b.now) }
{
    is_whole(a) && is_whole(b)
}

// Whether a number is at least 0.
fn is_from_zero(number: &Fraction) -> bool
    ensures { result ≡ exact.at_most exact.zero number.now }
{
    match compare(Fraction::zero(), *number) {
        Ordering::Less => true,
        Ordering::Equal => true,
        Ordering::Greater => false,
    }
}

/// Whether it is a whole number from 0 up.
#[tactic(auto, unfolding(zim_functions::specs::Numbers::is_natural))]
pub fn is_natural(number: &Fraction) -> bool
    ensures { result ≡ functions.is_natural number.now }
{
    is_whole(number) && is_from_zero(number)
}

// Whether both are whole numbers from 0 up.
pub(crate) fn are_natural(a: &Fraction, b: &Fraction) -> bool
    ensures { result ≡ (functions.is_natural a.now && functions.is_natural b.now) }
{
    is_natural(a) && is_natural(b)
}

/// The number that a token spells. `Past` exactly where its value is past; a text that is no number token is `WrongKind`.
#[tactic(auto, unfolding(zim_meaning::specs::Operations::literal_value))]
pub fn literal(digits: &Bytes) -> Result<Value, Kind>
    ensures { result ≡ literal_value digits.now }
{
    match read_field(digits.as_slice()) {
        Ok(Some(number)) => Ok(Value::Number(number)),
        Ok(None) => Err(Kind::WrongKind),
        Err(_) => Err(Kind::Past),
    }
}

/// `+a`, or `-a` where the flag says so. `WrongKind` exactly where a is no number.
#[tactic(auto, unfolding(zim_meaning::specs::Operations::value_signed))]
pub fn signed(minus: bool, value: &Value) -> Result<Value, Kind>
    ensures { result ≡ value_signed minus value.now }
{
    match number_of(value) {
        Ok(number) => {
            if minus {
                Ok(Value::Number(numbers::negated(number)))
            } else {
                Ok(Value::Number(number))
            }
        }
        Err(kind) => Err(kind),
    }
}

/// `a!`. `WrongKind` exactly where a is no number, else `NotInteger` where it isn't whole from 0 up, else `Past`.
#[tactic(auto, unfolding(zim_meaning::specs::Operations::value_factorial))]
pub fn factorial_of(value: &Value) -> Result<Value, Kind>
    ensures { result ≡ value_factorial value.now }
{
    match number_of(value) {
        Ok(number) => number_or_stop(factorial(number)),
        Err(kind) => Err(kind),
    }
}

/// `not a`. `WrongKind` exactly where a is no truth value.
#[tactic(auto, unfolding(zim_meaning::specs::Operations::value_negated))]
pub fn negated(value: &Value) -> Result<Value, Kind>
    ensures { result ≡ value_negated value.now }
{
    match truth_of(value) {
        Ok(truth) => Ok(Value::Truth(!truth)),
        Err(kind) => Err(kind),
    }
}

// a to the power of a whole number.
fn number_raised(base: Fraction, exponent: &Fraction) -> Result<Value, Kind>
    ensures { result ≡ (if exact.is_whole exponent.now then spec.number_or_fault (power_answer base exponent.now.numer) else Err NotInteger) }
{
    if is_whole(exponent) {
        number_or_fault(power(base, exponent.numer()))
    } else {
        Err(Kind::NotInteger)
    }
}

/// `a ^ b`. `WrongKind` exactly where one of the two is no number, else `NotInteger` where b isn't whole, else
/// `DivZero` where a is 0 and b below 0, else `Past` where the power passes the limit.
#[tactic(auto, unfolding(zim_meaning::specs::Operations::value_raised))]
pub fn raised(base: &Value, exponent: &Value) -> Result<Value, Kind>
    ensures { result ≡ value_raised base.now exponent.now }
{
    match (base, exponent) {
        (Value::Number(base), Value::Number(exponent)) => number_raised(*base, exponent),
        _ => Err(Kind::WrongKind),
    }
}
