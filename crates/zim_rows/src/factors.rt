// The factors of rows and of the objective.
ghost use Rattle.std.specs.Prelude.{◌≤◌, List, [], ◌∷◌, ◌++◌, IfOk};
ghost use Rattle.std.specs.Result.{OkIff};
ghost use Rattle.zim_fraction.specs.Limit.{limit};
ghost use Rattle.zim_rational.specs.Gcd as divisors;
ghost use Rattle.zim_rational.specs.Rational.{Rational};
ghost use Rattle.zim_decimal.specs.Short.{part};
ghost use Rattle.zim_rows.specs.Factors as exact;
ghost use Rattle.zim_rows.specs.Factors.{IsFactor, coefficients};

use crate::rows::RowKind;
use zim_decimal::factor;
use zim_fraction::{Fraction, Past};
use zim_linear::{Form, Term};

// The least common multiple of k and what is left of a number's denominator.
fn more(k: u128, q: Fraction) -> Result<u128, Past>
    requires positive { 1 ≤ k }
    requires small { k ≤ limit }
    ensures answer { OkIff result (divisors.lcm k (part q.denom) ≤ limit) (divisors.lcm k (part q.denom)) }
    ensures positive { IfOk result (λ m. 1 ≤ m) }
    ensures small { IfOk result (λ m. m ≤ limit) }
{
    match factor(k as i128, q.denom()) {
        Ok(m) => Ok(m as u128),
        Err(_) => Err(Past),
    }
}

// The factor of the coefficients of terms.
fn terms_factor(mut rest: &[Term]) -> Result<u128, Past>
    ensures answer { IsFactor (coefficients rest.now) result }
    ensures positive { IfOk result (λ m. 1 ≤ m) }
    ensures small { IfOk result (λ m. m ≤ limit) }
{
    let mut k = 1;
    while let Some((t, others)) = rest.split_first() {
        k = match more(k, t.1) {
            Ok(next) => next,
            Err(_) => return Err(Past),
        };
        rest = others;
    }
    Ok(k)
}

// The factor of numbers and of one more.
fn also(so_far: Result<u128, Past>, q: Fraction) -> Result<u128, Past>
    requires positive { IfOk so_far (λ m. 1 ≤ m) }
    requires small { IfOk so_far (λ m. m ≤ limit) }
    ensures answer { (numbers : List Rational) → IsFactor numbers so_far → IsFactor (numbers ++ q ∷ []) result }
    ensures positive { IfOk result (λ m. 1 ≤ m) }
    ensures small { IfOk result (λ m. m ≤ limit) }
{
    match so_far {
        Ok(k) => more(k, q),
        Err(_) => Err(Past),
    }
}

// The factor of a row's coefficients and right sides, past exactly where it passes the limit.
pub(crate) fn row_factor(terms: &[Term], kind: &RowKind) -> Result<u128, Past>
    ensures answer { IsFactor (coefficients terms.now ++ exact.right_sides kind.now) result }
    ensures small { IfOk result (λ m. m ≤ limit) }
{
    let so_far = terms_factor(terms);
    match kind {
        RowKind::One(_, right) => also(so_far, *right),
        RowKind::Range(low, high) => also(also(so_far, *low), *high),
    }
}

// The factor of an objective's coefficients and constant, past exactly where it passes the limit.
pub(crate) fn form_factor(form: &Form) -> Result<u128, Past>
    ensures answer { IsFactor (coefficients form.now.terms ++ form.now.constant ∷ []) result }
    ensures small { IfOk result (λ m. m ≤ limit) }
{
    also(terms_factor(form.terms()), form.constant_part())
}
