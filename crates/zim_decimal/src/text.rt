// The decimal text of a short number.
ghost use Rattle.std.specs.Prelude.{◌≡◌, ◌≤◌, ◌<◌, ◌+◌, ◌%◌, ◌++◌, take, IsTrue};
ghost use Rattle.zim_decimal.specs.Reading.{number_of_text};
ghost use Rattle.zim_decimal.specs.Short as decimal;

use itoa::Buffer;
use zim_fraction::Fraction;

/// Writes the decimal text of a short number at the front of `to`: a minus below 0, the whole part,
/// and where it isn't whole a point and the decimals, without zeros at their end. The answer is the
/// number of bytes written; read back, they are the number.
pub fn write_short(a: Fraction, to: &mut [u8; 64]) -> usize
    requires { IsTrue (decimal.is_short a) }
    ensures within { result ≤ 64 }
    ensures text { take result to.new ≡ decimal.short_text a }
    ensures value { number_of_text (take result to.new) ≡ Some a }
{
    let n = a.numer();
    write_parts(n < 0, n.unsigned_abs(), a.denom() as u128, to)
}

// Writes the decimal text of size/denom, with a minus where the flag is set.
fn write_parts(negative: bool, size: u128, denom: u128, to: &mut [u8; 64]) -> usize
    requires positive { 0 < denom }
    requires short { decimal.scale % denom ≡ 0 }
    ensures within { result ≤ 64 }
    ensures text { take result to.new ≡ decimal.decimal_text negative size denom }
{
    let at = put_sign(negative, to);
    let at = put_whole(size / denom, to, at);
    put_point_and_decimals((size % denom) as u64, denom as u64, to, at)
}

// Puts a minus at the front of `to` where the flag is set, and answers the bytes put.
fn put_sign(negative: bool, to: &mut [u8; 64]) -> usize
    ensures within { result ≤ 1 }
    ensures text { take result to.new ≡ decimal.minus_text negative }
{
    if negative {
        to[0] = b'-';
        return 1;
    }
    0
}

// Puts a whole number from `at` on, and answers where it ends.
fn put_whole(n: u128, to: &mut [u8; 64], at: usize) -> usize
    requires { at ≤ 1 }
    ensures within { result ≤ at + 40 }
    ensures text { take result to.new ≡ take at to.old ++ decimal.whole_text n }
{
    let mut buffer = Buffer::new();
    let digits = buffer.format(n).as_bytes();
    let end = at + digits.len();
    to[at..end].copy_from_slice(digits);
    end
}

// Puts a point and the decimals of rest/denom from `at` on, or nothing where the rest is 0, and answers
// where they end.
fn put_point_and_decimals(rest: u64, denom: u64, to: &mut [u8; 64], at: usize) -> usize
    requires room { at ≤ 48 }
    requires below { rest < denom }
    requires denom_bound { denom ≤ decimal.scale }
    ensures within { result ≤ 64 }
    ensures text { take result to.new ≡ take at to.old ++ decimal.point_and (decimal.decimals 15 denom rest) }
{
    if rest == 0 {
        return at;
    }
    to[at] = b'.';
    put_decimals(rest, denom, to, at + 1)
}

// Puts the decimals of rest/denom from `at` on, fifteen at most, and answers where they end.
fn put_decimals(rest: u64, denom: u64, to: &mut [u8; 64], at: usize) -> usize
    requires room { at ≤ 49 }
    requires below { rest < denom }
    requires denom_bound { denom ≤ decimal.scale }
    ensures within { result ≤ 64 }
    ensures text { take result to.new ≡ take at to.old ++ decimal.decimals 15 denom rest }
{
    let mut end = at;
    let mut left = rest;
    for _place in 0_u64..15 {
        if left == 0 {
            return end;
        }
        to[end] = b'0' + (left * 10 / denom) as u8;
        end += 1;
        left = left * 10 % denom;
    }
    end
}
