// The value of a number token and of a field.
ghost use Rattle.std.specs.Prelude.{◌≡◌, ◌≢◌, ◌≤◌, ◌^◌, pos, if◌then◌else◌, IsTrue, drop, length};
ghost use Rattle.std.specs.Char.{is_ascii_digit};
ghost use Rattle.std.specs.List.{list_all};
ghost use Rattle.std.specs.Str.Parse.{starts_with_minus, without_leading_sign};
ghost use Rattle.zim_rational.specs.Rational as exact;
ghost use Rattle.zim_fraction.specs.Limit.{limit};
ghost use Rattle.zim_decimal.specs.Token as token;
ghost use Rattle.zim_decimal.specs.Literal.{literal_answer, field_answer, scaled_answer, value_answer};
ghost use Rattle.zim_decimal.specs.Exponent.{capped, capped_exponent};

use crate::digits::read_digits;
use crate::token::{is_number, mark_at, point_at, without_sign};
use zim_fraction::{Fraction, Past, div, mul, negated};

/// An exponent of this size is far past, whatever digits stand before it.
const CAP: u128 = 1_000_000_000_000_000_000_000_000_000_000;

/// The exact value of a number token. The digits without the zeros at either end are a whole number q,
/// and the value is q times ten to a power e. `Past` exactly where it isn't 0 and q passes 2^127 - 1,
/// or e is below -38 or above 38, or the value's lowest terms pass 2^127 - 1.
pub fn read_literal(text: &[u8]) -> Result<Fraction, Past>
    requires { IsTrue (token.is_number_token text.now) }
    ensures { result ≡ literal_answer text.now }
{
    let mark = mark_at(text);
    let mantissa = &text[..mark];
    let point = point_at(mantissa);
    let behind = after(mantissa, point);
    let digits = read_digits(&mantissa[..point], behind);
    let power = exponent(after(text, mark)) + digits.zeros as i128 - behind.len() as i128;
    match digits.value {
        Some(q) => scaled(q, power),
        None => Err(Past),
    }
}

/// The exact value of a number token with a sign or none before it, `Past` exactly where the token's
/// value is; `None` exactly where the text is no such field.
pub fn read_field(text: &[u8]) -> Result<Option<Fraction>, Past>
    ensures { result ≡ field_answer text.now }
{
    let number = without_sign(text);
    if is_number(number) {
        match read_literal(number) {
            Ok(q) => Ok(Some(with_sign(has_minus(text), q))),
            Err(_) => Err(Past),
        }
    } else {
        Ok(None)
    }
}

// The number, negated where the flag is set.
fn with_sign(negative: bool, q: Fraction) -> Fraction
    ensures { result ≡ if negative then exact.negate q else q }
{
    if negative { negated(q) } else { q }
}

// Whether a minus stands before the text.
fn has_minus(text: &[u8]) -> bool
    ensures { result ≡ starts_with_minus text.now }
{
    !text.is_empty() && text[0] == b'-'
}

// What stands behind the byte at `at`, nothing at the text's end.
fn after(text: &[u8], at: usize) -> &[u8]
    requires { at ≤ length text.now }
    ensures { result.now ≡ drop 1 (drop at text.now) }
{
    if at == text.len() {
        &text[at..]
    } else {
        &text[at + 1..]
    }
}

// The exponent that a sign or none and digits are; one of more than 10^30 is 10^30, with its sign.
fn exponent(text: &[u8]) -> i128
    requires { IsTrue (list_all is_ascii_digit (without_leading_sign text.now)) }
    ensures { result ≡ capped_exponent text.now }
{
    let size = capped_value(without_sign(text)) as i128;
    if has_minus(text) { -size } else { size }
}

// The number that digits are, at most 10^30.
fn capped_value(digits: &[u8]) -> u128
    requires { IsTrue (list_all is_ascii_digit digits.now) }
    ensures { result ≡ capped digits.now }
{
    let mut size = 0;
    for digit in digits {
        size = (size * 10 + (*digit - b'0') as u128).min(CAP);
    }
    size
}

// q times ten to the power e, or past.
fn scaled(q: u128, e: i128) -> Result<Fraction, Past>
    requires { q ≤ limit }
    ensures { result ≡ scaled_answer q e }
{
    if q == 0 {
        return Ok(Fraction::zero());
    }
    if e < -38 || 38 < e {
        return Err(Past);
    }
    let ten = ten_to(e.unsigned_abs() as u32);
    if e < 0 {
        quotient(Fraction::whole(q as i128), ten)
    } else {
        product(Fraction::whole(q as i128), ten)
    }
}

// Ten to the power k.
fn ten_to(k: u32) -> Fraction
    requires { k ≤ 38 }
    ensures { result ≡ exact.whole (pos (10 ^ k)) }
{
    Fraction::whole(10_i128.pow(k))
}

// a b, past where it passes the limit.
fn product(a: Fraction, b: Fraction) -> Result<Fraction, Past>
    ensures { result ≡ value_answer (exact.times a b) }
{
    mul(a, b)
}

// a/b, past where it passes the limit.
fn quotient(a: Fraction, b: Fraction) -> Result<Fraction, Past>
    requires { b ≢ exact.zero }
    ensures { result ≡ value_answer (exact.over a b) }
{
    match div(a, b) {
        Ok(q) => Ok(q),
        Err(_) => Err(Past),
    }
}
