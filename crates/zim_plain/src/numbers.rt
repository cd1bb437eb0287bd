//! The exact numbers of literals, coefficients and items.

ghost use Rattle.std.specs.Prelude.{◌≡◌, ◌≢◌, ◌↔◌, IsTrue};
ghost use Rattle.zim_fault.specs.declared.kinds.Kind.TheVariants.{Past};
ghost use Rattle.zim_rational.specs.Rational as rational;
ghost use Rattle.zim_rational.specs.Rational.{over};
ghost use Rattle.zim_fraction.specs.Limit.{is_number};
ghost use Rattle.zim_plain.specs.Meaning.{literal_number, coefficient_number, factor_number};
ghost use Rattle.zim_plain.specs.Meaning as meaning;
ghost use Rattle.zim_plain.specs.Suits.{SuitsLiteral, SuitsCoefficient};
ghost use Rattle.zim_plain.specs.Faults.{fault_at, literal_fault, divisor_fault, coefficient_fault, item_fault};
ghost use Rattle.zim_plain.specs.Faults as faults;
ghost use Rattle.zim_plain.specs.Reader.{literal_of, divisor_of, coefficient_said, item_of};
ghost use Rattle.zim_plain.specs.Sides.{NumberAnswer, SuitsNumbers, magnitude_of};

use crate::statement::{Coefficient, Divisor, Item, Literal};
use zim_decimal::read_literal;
use zim_fault::{Fault, Kind, Place};
use zim_fraction::{Fraction, div, negated};

/// The fault that a number passes 128 bits, at a place.
pub fn past_at(place: Place) -> Fault
    ensures { result ≡ fault_at Past place }
{
    Fault {
        place,
        kind: Kind::Past,
    }
}

/// The number of a literal, or `Past` at its place.
fn literal(literal: &Literal<'_>) -> Result<Fraction, Fault>
    requires { SuitsLiteral (literal_of literal.now) }
    ensures { NumberAnswer (literal_fault (literal_of literal.now)) (literal_number (literal_of literal.now)) result }
{
    match read_literal(literal.text.as_slice()) {
        Ok(number) => Ok(number),
        Err(_) => Err(past_at(literal.place)),
    }
}

/// Whether a literal is 0; one that is past isn't.
pub fn is_zero(literal: &Literal<'_>) -> bool
    requires { SuitsLiteral (literal_of literal.now) }
    ensures { IsTrue result ↔ (literal_number (literal_of literal.now) ≡ rational.zero) }
{
    match read_literal(literal.text.as_slice()) {
        Ok(number) => number.same_number(&Fraction::zero()),
        Err(_) => false,
    }
}

/// A number over a divisor, or `Past` at the divisor or at the slash.
fn quotient(number: Fraction, divisor: &Divisor<'_>) -> Result<Fraction, Fault>
    requires suits { SuitsLiteral (divisor_of divisor.now).literal }
    requires nonzero { literal_number (divisor_of divisor.now).literal ≢ rational.zero }
    ensures { NumberAnswer (divisor_fault number (Some (divisor_of divisor.now))) (over number (literal_number (divisor_of divisor.now).literal)) result }
{
    let by = match literal(&divisor.literal) {
        Ok(by) => by,
        Err(fault) => return Err(fault),
    };
    match div(number, by) {
        Ok(quotient) => Ok(quotient),
        Err(_) => Err(past_at(divisor.slash)),
    }
}

/// The number of a coefficient, or its first number that is past.
fn coefficient(coefficient: &Coefficient<'_>) -> Result<Fraction, Fault>
    requires { SuitsCoefficient (coefficient_said coefficient.now) }
    ensures { NumberAnswer (coefficient_fault (coefficient_said coefficient.now)) (coefficient_number (coefficient_said coefficient.now)) result }
{
    let number = match literal(&coefficient.number) {
        Ok(number) => number,
        Err(fault) => return Err(fault),
    };
    match &coefficient.divisor {
        None => Ok(number),
        Some(divisor) => quotient(number, divisor),
    }
}

/// The number of an item, or the coefficient of its name; or its first number that is past.
fn magnitude(item: &Item<'_>) -> Result<Fraction, Fault>
    requires { SuitsNumbers (item_of item.now) }
    ensures { NumberAnswer (item_fault (item_of item.now)) (magnitude_of (item_of item.now)) result }
{
    match item {
        Item::Constant(number) => coefficient(number),
        Item::Multiple(None, _, _) => Ok(Fraction::one()),
        Item::Multiple(Some(factor), _, _) => coefficient(&factor.coefficient),
    }
}

/// A number, or its negative.
fn signed(negative: bool, number: Fraction) -> Fraction
    ensures { result ≡ meaning.taken_with_sign negative number }
{
    if negative { negated(number) } else { number }
}

/// The number of an item with its sign, or the coefficient of its name; or its first number that is past.
pub fn amount(negative: bool, item: &Item<'_>) -> Result<Fraction, Fault>
    requires { SuitsNumbers (item_of item.now) }
    ensures { NumberAnswer (item_fault (item_of item.now)) (faults.amount (negative, item_of item.now)) result }
{
    match magnitude(item) {
        Ok(number) => Ok(signed(negative, number)),
        Err(fault) => Err(fault),
    }
}
