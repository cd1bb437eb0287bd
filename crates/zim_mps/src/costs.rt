// The numbers of columns in the objective.
ghost use Rattle.std.specs.Prelude.{◌≡◌, ℕ, ◌+◌, ◌<◌, IsTrue};
ghost use Rattle.zim_decimal.specs.Short.{is_short};
ghost use Rattle.zim_mps.specs.Puts.{AreCosts};
ghost use Rattle.zim_mps.specs.Text.{coefficient_of, minimised};

use zim_fraction::{Fraction, negated};
use zim_linear::Term;

/// The coefficient of a column in terms that begin at it or behind it, 0 where they don't have it, and the terms
/// behind it.
pub(crate) fn split_cost(terms: &[Term], column: u32) -> (Fraction, &[Term])
    requires { AreCosts column terms.now }
    ensures cost { result.0 ≡ coefficient_of terms.now column }
    ensures short { IsTrue (is_short result.0) }
    ensures behind { AreCosts (column + 1) result.1.now }
    ensures same { (j : ℕ) → column < j → coefficient_of result.1.now j ≡ coefficient_of terms.now j }
{
    match terms {
        [] => (Fraction::zero(), terms),
        [first, behind @ ..] => {
            if first.0 == column {
                (first.1, behind)
            } else {
                (Fraction::zero(), terms)
            }
        }
    }
}

/// A number of the objective as it is written: its negative where the objective is maximised.
pub(crate) fn minimised_cost(maximize: bool, cost: Fraction) -> Fraction
    requires { IsTrue (is_short cost) }
    ensures value { result ≡ minimised maximize cost }
    ensures short { IsTrue (is_short result) }
{
    if maximize { negated(cost) } else { cost }
}
