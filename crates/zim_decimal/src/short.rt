// Short numbers, and the factor that makes numbers short.
ghost use Rattle.std.specs.Prelude.{◌≡◌, ◌≤ℤ◌, pos, unsigned_abs, IfOk};
ghost use Rattle.zim_fraction.specs.Answers.{lcm_answer};
ghost use Rattle.zim_rational.specs.Gcd as exact;
ghost use Rattle.zim_decimal.specs.Short as decimal;

use zim_fraction::{Fraction, Past, gcd, lcm};

/// 10^15, which the denominator of a number with at most fifteen decimals divides.
const SCALE: i128 = 1_000_000_000_000_000;

/// Whether fifteen decimals write the number: its denominator divides 10^15.
pub fn is_short(a: Fraction) -> bool
    ensures { result ≡ decimal.is_short a }
{
    SCALE % a.denom() == 0
}

/// The least common multiple of a and what is left of the denominator d when all that it has in
/// common with 10^15 is taken out. `Past` exactly where it is above 2^127 - 1. Times its factor, a
/// number of denominator d is short.
pub fn factor(a: i128, d: i128) -> Result<i128, Past>
    requires first { pos 1 ≤ℤ a }
    requires second { pos 1 ≤ℤ d }
    ensures answer { result ≡ lcm_answer (unsigned_abs a) (decimal.part (unsigned_abs d)) }
    ensures ok { IfOk result (λ m. m ≡ pos (exact.lcm (unsigned_abs a) (decimal.part (unsigned_abs d)))) }
{
    lcm(a, d / gcd(d, SCALE))
}
