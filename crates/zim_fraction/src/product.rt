// Products and quotients.
ghost use Rattle.std.specs.Prelude.{◌≡◌, ◌≢◌, ◌≤◌, IfOk, IfSome, unsigned_abs};
ghost use Rattle.zim_rational.specs.Rational as exact;
ghost use Rattle.zim_fraction.specs.Answers.{product_answer, quotient_answer, ratio_answer};
ghost use Rattle.zim_fraction.specs.Limit.{limit};

use crate::divisor::common_divisor;
use crate::fault::{NumFault, Past};
use crate::fraction::Fraction;
use crate::limit::{LIMIT, is_small, product_within};

/// a b. `Past` exactly where the product's lowest terms pass 2^127 - 1.
pub fn mul(a: Fraction, b: Fraction) -> Result<Fraction, Past>
    ensures answer { result ≡ product_answer a b }
    ensures ok { IfOk result (λ q. q ≡ exact.times a b) }
{
    if let Some(n) = small_product(a, b) {
        return Ok(Fraction::whole(n));
    }
    let (x, c) = a.parts();
    let (y, d) = b.parts();
    let p = x.unsigned_abs();
    let r = y.unsigned_abs();
    let g = common_divisor(p, d);
    let h = common_divisor(r, c);
    let size = match product_within(p / g, r / h) {
        Some(size) => size,
        None => return Err(Past),
    };
    let denom = match product_within(c / h, d / g) {
        Some(denom) => denom,
        None => return Err(Past),
    };
    Ok(Fraction::of_lowest((x < 0) != (y < 0), size, denom))
}

// The product of two small whole numbers, which needs no divisor.
fn small_product(a: Fraction, b: Fraction) -> Option<i128>
    ensures bound { IfSome result (λ n. unsigned_abs n ≤ limit) }
    ensures value { IfSome result (λ n. exact.whole n ≡ exact.times a b) }
{
    let (x, c) = a.parts();
    let (y, d) = b.parts();
    if c == 1 && d == 1 && is_small(x) && is_small(y) {
        Some(x * y)
    } else {
        None
    }
}

/// a/b. `DivZero` exactly where b is 0, else `Past` exactly where the lowest terms pass 2^127 - 1.
pub fn div(a: Fraction, b: Fraction) -> Result<Fraction, NumFault>
    ensures answer { result ≡ quotient_answer a b }
    ensures ok { IfOk result (λ q. q ≡ exact.over a b) }
{
    if b.numer() == 0 {
        return Err(NumFault::DivZero);
    }
    match mul(a, reciprocal(b)) {
        Ok(q) => Ok(q),
        Err(_) => Err(NumFault::Past),
    }
}

/// n/d. `DivZero` exactly where d is 0, else `Past` exactly where the lowest terms pass 2^127 - 1.
pub fn of(n: i128, d: i128) -> Result<Fraction, NumFault>
    ensures answer { result ≡ ratio_answer n d }
    ensures ok { IfOk result (λ q. q ≡ exact.over (exact.whole n) (exact.whole d)) }
{
    if d == 0 {
        return Err(NumFault::DivZero);
    }
    let p = n.unsigned_abs();
    let r = d.unsigned_abs();
    let g = common_divisor(p, r);
    if p / g <= LIMIT && r / g <= LIMIT {
        Ok(Fraction::of_lowest((n < 0) != (d < 0), p / g, r / g))
    } else {
        Err(NumFault::Past)
    }
}

// 1/a.
pub(crate) fn reciprocal(a: Fraction) -> Fraction
    requires { a ≢ exact.zero }
    ensures { result ≡ exact.reciprocal a }
{
    let (n, d) = a.parts();
    Fraction::of_lowest(n < 0, d, n.unsigned_abs())
}
