// Sums, differences and quotients of numbers, of which one may be past already.
ghost use Rattle.std.specs.Prelude.{◌≡◌, ◌≢◌};
ghost use Rattle.zim_rational.specs.Rational.{zero};
ghost use Rattle.zim_forms.specs.Exact as exact;
ghost use Rattle.zim_forms.specs.Exact.{◌⊞◌, ◌⊟◌};

use zim_fraction as fractions;
use zim_fraction::{Fraction, NumFault, Past};

/// a + b, past where one of them or the sum is.
#[tactic(auto, unfolding(crate::specs::Exact::exact_sum))]
pub fn exact_sum(a: Result<Fraction, Past>, b: Result<Fraction, Past>) -> Result<Fraction, Past>
    ensures { result ≡ a ⊞ b }
{
    match a {
        Ok(p) => match b {
            Ok(q) => fractions::add(p, q),
            Err(past) => Err(past),
        },
        Err(past) => Err(past),
    }
}

/// a - b, past where one of them or the difference is.
#[tactic(auto, unfolding(crate::specs::Exact::exact_difference))]
pub fn exact_difference(
    a: Result<Fraction, Past>,
    b: Result<Fraction, Past>,
) -> Result<Fraction, Past>
    ensures { result ≡ a ⊟ b }
{
    match a {
        Ok(p) => match b {
            Ok(q) => fractions::sub(p, q),
            Err(past) => Err(past),
        },
        Err(past) => Err(past),
    }
}

/// a / b, past where its lowest terms pass the limit.
pub fn exact_quotient(a: Fraction, b: Fraction) -> Result<Fraction, Past>
    requires { b ≢ zero }
    ensures { result ≡ exact.exact_quotient a b }
{
    match fractions::div(a, b) {
        Ok(q) => Ok(q),
        Err(NumFault::Past) => Err(Past),
        Err(NumFault::DivZero) => Err(Past),
    }
}
