// Sums and differences.
ghost use Rattle.std.specs.Prelude.{◌≡◌, ◌≤◌, IfOk, IfSome, OnSome, IsTrue, unsigned_abs};
ghost use Rattle.std.specs.Option.{SomeIff};
ghost use Rattle.zim_rational.specs.Rational as exact;
ghost use Rattle.zim_fraction.specs.Limit.{limit, is_sum_within, common_numer, common_denom};
ghost use Rattle.zim_fraction.specs.Answers.{sum_answer, difference_answer};

use crate::divisor::common_multiple;
use crate::fault::Past;
use crate::fraction::Fraction;
use crate::limit::{is_small, plus_within, times_within};

/// a + b. `Past` exactly where the least common denominator m, a numerator over m or the sum of
/// these passes 2^127 - 1, even if the sum's lowest terms would not.
#[inline]
pub fn add(a: Fraction, b: Fraction) -> Result<Fraction, Past>
    ensures answer { result ≡ sum_answer a b }
    ensures ok { IfOk result (λ q. q ≡ exact.plus a b) }
{
    if let Some(n) = small_sum(a, b) {
        return Ok(Fraction::whole(n));
    }
    match common_sum(a, b) {
        Some((n, m)) => Ok(Fraction::reduced(n, m)),
        None => Err(Past),
    }
}

/// a - b, with `Past` as in `add` of a and -b.
pub fn sub(a: Fraction, b: Fraction) -> Result<Fraction, Past>
    ensures answer { result ≡ difference_answer a b }
    ensures ok { IfOk result (λ q. q ≡ exact.minus a b) }
{
    add(a, negated(b))
}

/// -a.
pub fn negated(a: Fraction) -> Fraction
    ensures { result ≡ exact.negate a }
{
    let (n, d) = a.parts();
    Fraction::of_lowest(0 < n, n.unsigned_abs(), d)
}

// The sum of two small whole numbers, which needs no divisor.
fn small_sum(a: Fraction, b: Fraction) -> Option<i128>
    ensures bound { IfSome result (λ n. unsigned_abs n ≤ limit) }
    ensures value { IfSome result (λ n. exact.whole n ≡ exact.plus a b) }
    ensures within { OnSome result (IsTrue (is_sum_within a b)) }
{
    let (x, c) = a.parts();
    let (y, d) = b.parts();
    if c == 1 && d == 1 && is_small(x) && is_small(y) {
        Some(x + y)
    } else {
        None
    }
}

// The sum's numerator over the least common denominator, and that denominator. Apart, so that the sums
// of small numbers stay short enough to stand in their callers.
#[inline(never)]
fn common_sum(a: Fraction, b: Fraction) -> Option<(i128, u128)>
    ensures { SomeIff result (IsTrue (is_sum_within a b)) (common_numer a b, common_denom a b) }
{
    let (x, c) = a.parts();
    let (y, d) = b.parts();
    let m = common_multiple(c, d)?;
    let left = times_within(x, m / c)?;
    let right = times_within(y, m / d)?;
    let n = plus_within(left, right)?;
    Some((n, m))
}
