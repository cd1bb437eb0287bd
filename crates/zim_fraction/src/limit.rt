// The limit of 128 bits, and whole numbers within it.
ghost use Rattle.std.specs.Prelude.{◌≡◌, ◌≤◌, ◌<◌, ◌*◌, ◌^◌, ◌+ℤ◌, ◌*ℤ◌, pos, unsigned_abs, IsTrue};
ghost use Rattle.zim_rational.specs.Rational as exact;
ghost use Rattle.std.specs.Option.{SomeIff};
ghost use Rattle.zim_fraction.specs.Limit.{limit};

/// The greatest numerator and the greatest denominator, 2^127 - 1.
pub(crate) const LIMIT: u128 = 170_141_183_460_469_231_731_687_303_715_884_105_727;

// Whether n lies so near to 0 that sums and products of two such numbers fit.
pub(crate) fn is_small(n: i128) -> bool
    ensures { IsTrue result → unsigned_abs n < 2 ^ 63 }
{
    -0x8000_0000_0000_0000 < n && n < 0x8000_0000_0000_0000
}

// a b, where it is within the limit.
pub(crate) fn product_within(a: u128, b: u128) -> Option<u128>
    ensures { SomeIff result (a * b ≤ limit) (a * b) }
{
    match a.checked_mul(b) {
        Some(product) if product <= LIMIT => Some(product),
        _ => None,
    }
}

// n k, where it is within the limit.
pub(crate) fn times_within(n: i128, k: u128) -> Option<i128>
    ensures { SomeIff result (unsigned_abs (n *ℤ pos k) ≤ limit) (n *ℤ pos k) }
{
    match product_within(n.unsigned_abs(), k) {
        Some(size) => Some(signed(n < 0, size)),
        None => None,
    }
}

// n + k, where it is within the limit.
pub(crate) fn plus_within(n: i128, k: i128) -> Option<i128>
    ensures { SomeIff result (unsigned_abs (n +ℤ k) ≤ limit) (n +ℤ k) }
{
    match n.checked_add(k) {
        Some(sum) if sum.unsigned_abs() <= LIMIT => Some(sum),
        _ => None,
    }
}

// The whole number of this size, below 0 where the flag is set.
pub(crate) fn signed(negative: bool, size: u128) -> i128
    requires { size ≤ limit }
    ensures { result ≡ exact.signed negative size }
{
    if negative {
        -(size as i128)
    } else {
        size as i128
    }
}
