// The order of numbers.
ghost use Rattle.std.specs.Prelude.{◌≡◌, ◌*◌};
ghost use Rattle.std.specs.Ordering.{nat_cmp};
ghost use Rattle.zim_rational.specs.Rational.{rational_cmp};

use crate::fraction::Fraction;
use std::cmp::Ordering;

/// How a and b are ordered; never past, since the products across have twice the width.
pub fn compare(a: Fraction, b: Fraction) -> Ordering
    ensures { result ≡ rational_cmp a b }
{
    let (x, c) = a.parts();
    let (y, d) = b.parts();
    if c == d {
        return x.cmp(&y);
    }
    match (x < 0, y < 0) {
        (true, false) => Ordering::Less,
        (false, true) => Ordering::Greater,
        (false, false) => compare_products(x.unsigned_abs(), d, y.unsigned_abs(), c),
        (true, true) => compare_products(y.unsigned_abs(), c, x.unsigned_abs(), d),
    }
}

// How a b and c d are ordered.
fn compare_products(a: u128, b: u128, c: u128, d: u128) -> Ordering
    ensures { result ≡ nat_cmp (a * b) (c * d) }
{
    let (low, high) = a.carrying_mul(b, 0);
    let (other_low, other_high) = c.carrying_mul(d, 0);
    if high == other_high {
        low.cmp(&other_low)
    } else {
        high.cmp(&other_high)
    }
}
