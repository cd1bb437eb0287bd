// Greatest common divisors and least common multiples.
ghost use Rattle.std.specs.Prelude.{◌≡◌, ◌≤◌, ◌<◌, ◌≤ℤ◌, pos, unsigned_abs, IfOk};
ghost use Rattle.zim_rational.specs.Gcd as exact;
ghost use Rattle.std.specs.Option.{SomeIff};
ghost use Rattle.zim_fraction.specs.Answers.{lcm_answer};
ghost use Rattle.zim_fraction.specs.Limit.{limit};

use crate::fault::Past;
use crate::limit::product_within;

// Euclid's divisions, but none where b is 1.
pub(crate) fn common_divisor(a: u128, b: u128) -> u128
    ensures value { result ≡ exact.gcd a b }
    ensures positive { 0 < b → 0 < result }
    ensures bound { 0 < b → result ≤ b }
{
    if b == 1 {
        return 1;
    }
    let mut x = a;
    let mut y = b;
    while y != 0 {
        let rest = x % y;
        x = y;
        y = rest;
    }
    x
}

// The least common multiple, where it is within the limit.
#[tactic(auto, using(crate::proofs::DivisorLemmas::lcm_by_quotient))]
pub(crate) fn common_multiple(a: u128, b: u128) -> Option<u128>
    requires { 0 < b }
    ensures { SomeIff result (exact.lcm a b ≤ limit) (exact.lcm a b) }
{
    product_within(a, b / common_divisor(a, b))
}

/// The greatest common divisor of two numbers from 0 up, which is 0 where both are.
pub fn gcd(a: i128, b: i128) -> i128
    requires first { pos 0 ≤ℤ a }
    requires second { pos 0 ≤ℤ b }
    ensures { result ≡ pos (exact.gcd (unsigned_abs a) (unsigned_abs b)) }
{
    if b == 0 {
        return a;
    }
    common_divisor(a as u128, b as u128) as i128
}

/// The least common multiple of two numbers from 1 up. `Past` exactly where it is above 2^127 - 1.
pub fn lcm(a: i128, b: i128) -> Result<i128, Past>
    requires first { pos 1 ≤ℤ a }
    requires second { pos 1 ≤ℤ b }
    ensures answer { result ≡ lcm_answer (unsigned_abs a) (unsigned_abs b) }
    ensures ok { IfOk result (λ m. m ≡ pos (exact.lcm (unsigned_abs a) (unsigned_abs b))) }
{
    match common_multiple(a as u128, b as u128) {
        Some(m) => Ok(m as i128),
        None => Err(Past),
    }
}
