// Powers by whole exponents.
ghost use Rattle.std.specs.Prelude.{◌≡◌, ◌≤◌, ◌<◌, ◌^◌, IfOk, unsigned_abs};
ghost use Rattle.std.specs.Option.{SomeIff};
ghost use Rattle.zim_rational.specs.Rounding as exact;
ghost use Rattle.zim_fraction.specs.Answers.{number_answer, power_answer};
ghost use Rattle.zim_fraction.specs.Limit.{limit};

use crate::fault::NumFault;
use crate::fraction::Fraction;
use crate::limit::LIMIT;
use crate::product::reciprocal;

/// a to the power e, where 0^0 is 1. `DivZero` exactly where a is 0 and e below 0, else `Past`
/// exactly where the lowest terms pass 2^127 - 1.
pub fn power(a: Fraction, e: i128) -> Result<Fraction, NumFault>
    ensures answer { result ≡ power_answer a e }
    ensures ok { IfOk result (λ q. q ≡ exact.power a e) }
{
    if 0 <= e {
        return raised(a, e.unsigned_abs());
    }
    if a.numer() == 0 {
        return Err(NumFault::DivZero);
    }
    raised(reciprocal(a), e.unsigned_abs())
}

// The product of k factors a.
fn raised(a: Fraction, k: u128) -> Result<Fraction, NumFault>
    ensures { result ≡ number_answer (exact.product_of a k) }
{
    let (n, d) = a.parts();
    let size = match power_within(n.unsigned_abs(), k) {
        Some(size) => size,
        None => return Err(NumFault::Past),
    };
    let denom = match power_within(d, k) {
        Some(denom) => denom,
        None => return Err(NumFault::Past),
    };
    Ok(Fraction::of_lowest((n < 0) & (k % 2 == 1), size, denom))
}

// b^k, where it is within the limit.
fn power_within(b: u128, k: u128) -> Option<u128>
    ensures { SomeIff result (b ^ k ≤ limit) (b ^ k) }
{
    if b <= 1 {
        return Some(if k == 0 { 1 } else { b });
    }
    if 127 <= k {
        return None;
    }
    match b.checked_pow(k as u32) {
        Some(size) if size <= LIMIT => Some(size),
        _ => None,
    }
}
