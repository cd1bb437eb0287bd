// The sides of the column that is made of an ask.
ghost use Rattle.std.specs.Prelude.{◌≡◌};
ghost use Rattle.zim_rational.specs.Rational.{below};
ghost use Rattle.zim_columns.specs.Bounds as exact;

use crate::asks::{Bound, VarKind};
use std::cmp::Ordering;
use zim_fraction::{Fraction, ceil, compare, floor};
use zim_linear::Sides;

// Whether the column takes whole numbers alone.
pub(crate) fn is_integer(kind: VarKind) -> bool
    ensures { result ≡ exact.takes_whole kind }
{
    match kind {
        VarKind::Real => false,
        VarKind::Integer => true,
        VarKind::Binary => true,
    }
}

// The sides that the bounds make, rounded inwards where the column takes whole numbers alone.
pub(crate) fn sides_of(kind: VarKind, lower: &Bound, upper: &Bound) -> Sides
    ensures { result ≡ exact.sides_of kind lower.now upper.now }
{
    Sides {
        low: low_side(kind, lower),
        high: high_side(kind, upper),
    }
}

// The least number by a lower bound, if there is one.
fn low_side(kind: VarKind, bound: &Bound) -> Option<Fraction>
    ensures { result ≡ exact.low_side kind bound.now }
{
    match bound {
        Bound::Minus => None,
        Bound::Plus => None,
        Bound::At(number) => Some(raised(kind, *number)),
    }
}

// The greatest number by an upper bound, if there is one.
fn high_side(kind: VarKind, bound: &Bound) -> Option<Fraction>
    ensures { result ≡ exact.high_side kind bound.now }
{
    match bound {
        Bound::Minus => None,
        Bound::Plus => None,
        Bound::At(number) => Some(lowered(kind, *number)),
    }
}

// The least number that a column of the kind takes from this number up.
fn raised(kind: VarKind, number: Fraction) -> Fraction
    ensures { result ≡ exact.raised kind number }
{
    match kind {
        VarKind::Real => number,
        VarKind::Integer => ceil(number),
        VarKind::Binary => ceil(number),
    }
}

// The greatest number that a column of the kind takes up to this number.
fn lowered(kind: VarKind, number: Fraction) -> Fraction
    ensures { result ≡ exact.lowered kind number }
{
    match kind {
        VarKind::Real => number,
        VarKind::Integer => floor(number),
        VarKind::Binary => floor(number),
    }
}

// Whether no number lies between the bounds: the sides that they make are crossed, or one is infinite on the wrong side.
pub(crate) fn cross(lower: &Bound, upper: &Bound, sides: &Sides) -> bool
    ensures { result ≡ exact.cross lower.now upper.now sides.now }
{
    match (lower, upper) {
        (Bound::Plus, _) => true,
        (_, Bound::Minus) => true,
        _ => are_crossed(sides),
    }
}

// Whether the low side is above the high one.
fn are_crossed(sides: &Sides) -> bool
    ensures { result ≡ exact.are_crossed sides.now }
{
    match (&sides.low, &sides.high) {
        (Some(low), Some(high)) => is_below(*high, *low),
        _ => false,
    }
}

// Whether a number is below another.
fn is_below(a: Fraction, b: Fraction) -> bool
    ensures { result ≡ below a b }
{
    match compare(a, b) {
        Ordering::Less => true,
        Ordering::Equal => false,
        Ordering::Greater => false,
    }
}
