//! Factorials, and quotients and rests of whole numbers.
ghost use Rattle.std.specs.Prelude.{◌≡◌, ◌≤◌, ◌&&◌, pos};
ghost use Rattle.std.specs.Option.{SomeIff};
ghost use Rattle.zim_fraction.specs.Limit.{limit};
ghost use Rattle.zim_functions.specs.Numbers.{factorial_answer, div_answer, mod_answer};
ghost use Rattle.zim_functions.specs.Numbers as exact;
ghost use Rattle.zim_rational.specs.Rational.{whole, is_whole};

use crate::stops::NumStop;
use zim_fraction::{Fraction, mul};

// Whether a is a whole number.
fn is_integer(a: &Fraction) -> bool
    ensures { result ≡ is_whole a.now }
{
    a.denom() == 1
}

// Whether both are whole numbers.
fn are_integers(a: &Fraction, b: &Fraction) -> bool
    ensures { result ≡ (is_whole a.now && is_whole b.now) }
{
    is_integer(a) && is_integer(b)
}

// Whether a is a whole number from 0 up.
fn is_natural(a: &Fraction) -> bool
    ensures { result ≡ exact.is_natural a.now }
{
    is_integer(a) && a.numer() >= 0
}

// n!, where it is within the limit. It stops at the 34th product at the latest, as 34! is past.
fn factorial_within(n: u128) -> Option<Fraction>
    requires { n ≤ limit }
    ensures { SomeIff result (exact.product_to n ≤ limit) (whole (pos (exact.product_to n))) }
{
    let mut product = Fraction::one();
    for k in 0..n {
        match mul(product, Fraction::whole((k + 1) as i128)) {
            Ok(next) => product = next,
            Err(_) => return None,
        }
    }
    Some(product)
}

/// a!, the product of the whole numbers from 1 to a, which is 1 of 0.
///
/// `NotInteger` exactly where a isn't whole or is below 0, else `Past` exactly where the product passes
/// 2^127 - 1, as it does from 34 on.
pub fn factorial(a: Fraction) -> Result<Fraction, NumStop>
    ensures { result ≡ factorial_answer a }
{
    if !is_natural(&a) {
        return Err(NumStop::NotInteger);
    }
    match factorial_within(a.numer().unsigned_abs()) {
        Some(product) => Ok(product),
        None => Err(NumStop::Past),
    }
}

// Why a and b have no quotient and no rest, if so.
fn stop_of(a: &Fraction, b: &Fraction) -> Option<NumStop>
    ensures { result ≡ exact.stop_of a.now b.now }
{
    if !are_integers(a, b) {
        return Some(NumStop::NotInteger);
    }
    if b.same_number(&Fraction::zero()) {
        return Some(NumStop::DivZero);
    }
    None
}

/// a div b, the quotient cut towards zero: of -7 and 2 it is -3.
///
/// `NotInteger` exactly where one of the two isn't whole, else `DivZero` exactly where b is 0.
pub fn quotient(a: Fraction, b: Fraction) -> Result<Fraction, NumStop>
    ensures { result ≡ div_answer a b }
{
    match stop_of(&a, &b) {
        Some(stop) => Err(stop),
        None => Ok(Fraction::whole(a.numer() / b.numer())),
    }
}

/// a mod b, which is a - b (a div b): of -7 and 2 it is -1.
///
/// `NotInteger` exactly where one of the two isn't whole, else `DivZero` exactly where b is 0.
pub fn rest(a: Fraction, b: Fraction) -> Result<Fraction, NumStop>
    ensures { result ≡ mod_answer a b }
{
    match stop_of(&a, &b) {
        Some(stop) => Err(stop),
        None => Ok(Fraction::whole(a.numer() % b.numer())),
    }
}
