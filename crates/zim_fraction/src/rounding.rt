// Whole numbers near a number; never past.
ghost use Rattle.std.specs.Prelude.{◌≡◌};
ghost use Rattle.zim_rational.specs.Rounding as exact;

use crate::fraction::Fraction;
use crate::limit::signed;
use crate::sum::negated;

/// The greatest whole number that is at most a.
pub fn floor(a: Fraction) -> Fraction
    ensures { result ≡ exact.floor a }
{
    let (n, d) = a.parts();
    Fraction::whole(n.div_euclid(d as i128))
}

/// The least whole number that is at least a.
pub fn ceil(a: Fraction) -> Fraction
    ensures { result ≡ exact.ceil a }
{
    negated(floor(negated(a)))
}

/// The nearest whole number, a half away from 0: of 5/2 it is 3, of -5/2 it is -3.
pub fn round(a: Fraction) -> Fraction
    ensures { result ≡ exact.round a }
{
    let (n, d) = a.parts();
    let size = n.unsigned_abs();
    let rest = size % d;
    let nearest = if d - rest <= rest {
        size / d + 1
    } else {
        size / d
    };
    Fraction::whole(signed(n < 0, nearest))
}
