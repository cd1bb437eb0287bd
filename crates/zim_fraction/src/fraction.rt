// The type, and the few functions that read or make its fields.
ghost use Rattle.std.specs.Prelude.{◌≡◌, ◌≤◌, ◌<◌, IsTrue, pos, unsigned_abs};
ghost use Rattle.zim_rational.specs.Rational as exact;
ghost use Rattle.zim_rational.specs.Rational.{is_lowest, ratio, whole, same};
ghost use Rattle.zim_fraction.specs.Limit.{limit};

use crate::divisor::common_divisor;
use crate::limit::signed;
use std::alloc::AllocError;
use std::marker::Model;

/// An exact fraction n/d in lowest terms, with |n| at most 2^127 - 1 and d from 1 to 2^127 - 1.
#[derive(Debug, Drop)]
pub struct Fraction {
    numer: i128,
    denom: u128,
}

impl Model for Fraction {
    ghost use Rattle.zim_rational.specs.Rational.{Rational, rational_code, ratio};

    ghost Value = { Rational };

    ghost coded = { rational_code };

    ghost view = { λ a. ratio a.numer a.denom };

    ghost use Rattle.zim_fraction.specs.Fields.{IsKept, fields_of, fields_of-ratio};

    ghost invariant = { IsKept };

    ghost inverse = { fields_of };

    ghost inverse_ok = { fields_of-ratio };
}

impl Clone for Fraction {
    fn clone(&self) -> Result<Self, AllocError> {
        Ok(*self)
    }
}

impl Copy for Fraction {}

impl Fraction {
    /// The number 0.
    pub fn zero() -> Fraction
        ensures { result ≡ exact.zero }
    {
        Fraction { numer: 0, denom: 1 }
    }

    /// The number 1.
    pub fn one() -> Fraction
        ensures { result ≡ exact.one }
    {
        Fraction { numer: 1, denom: 1 }
    }

    /// The whole number n.
    pub fn whole(n: i128) -> Fraction
        requires { unsigned_abs n ≤ limit }
        ensures { result ≡ whole n }
    {
        Fraction { numer: n, denom: 1 }
    }

    /// The numerator of the lowest terms, with the number's sign.
    pub fn numer(&self) -> i128
        ensures value { result ≡ self.now.numer }
        ensures bound { unsigned_abs result ≤ limit }
    {
        self.numer
    }

    /// The denominator of the lowest terms, at least 1.
    pub fn denom(&self) -> i128
        ensures value { result ≡ pos self.now.denom }
        ensures bound { self.now.denom ≤ limit }
    {
        self.denom as i128
    }

    // The same denominator without a sign.
    pub(crate) fn parts(self) -> (i128, u128)
        ensures numer { result.0 ≡ self.numer }
        ensures denom { result.1 ≡ self.denom }
        ensures numer_bound { unsigned_abs result.0 ≤ limit }
        ensures denom_bound { result.1 ≤ limit }
        ensures positive { 0 < result.1 }
    {
        (self.numer, self.denom)
    }

    // The size over the denominator, with this sign, where these are lowest terms already.
    pub(crate) fn of_lowest(negative: bool, size: u128, denom: u128) -> Fraction
        requires lowest { IsTrue (is_lowest (exact.signed negative size) denom) }
        requires size_bound { size ≤ limit }
        requires denom_bound { denom ≤ limit }
        ensures { result ≡ ratio (exact.signed negative size) denom }
    {
        Fraction {
            numer: signed(negative, size),
            denom,
        }
    }

    // n/d, brought to lowest terms.
    pub(crate) fn reduced(n: i128, d: u128) -> Fraction
        requires positive { 0 < d }
        requires numer_bound { unsigned_abs n ≤ limit }
        requires denom_bound { d ≤ limit }
        ensures { result ≡ ratio n d }
    {
        let g = common_divisor(n.unsigned_abs(), d);
        Fraction::of_lowest(n < 0, n.unsigned_abs() / g, d / g)
    }

    /// Whether the two are one number.
    pub fn same_number(&self, other: &Fraction) -> bool
        ensures { result ≡ same self.now other.now }
    {
        self.numer == other.numer && self.denom == other.denom
    }
}
