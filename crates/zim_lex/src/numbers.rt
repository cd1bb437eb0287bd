ghost use Rattle.std.specs.Prelude.{◌≡◌, ◌≤◌, length, drop, if◌then◌else◌};
ghost use Rattle.std.specs.List.{prefix_len};
ghost use Rattle.zim_lex.specs.Classes as class;
ghost use Rattle.zim_lex.specs.Fronts.{IsLongestThat, IsFrontThat};
ghost use Rattle.zim_lex.specs.Numbers.{is_signed_digits, is_exponent_by_bytes, is_fraction, is_string};
ghost use Rattle.zim_decimal.specs.Token.{is_number_token};

use memchr::memchr;

pub fn is_digit(byte: u8) -> bool
    ensures { result ≡ class.is_digit byte }
{
    b'0' <= byte && byte <= b'9'
}

/// How many bytes at the front are digits.
pub fn count_digits(bytes: &[u8]) -> usize
    ensures { result ≡ prefix_len class.is_digit bytes.now }
{
    bytes.iter().take_while(|byte| is_digit(**byte)).count()
}

fn begins_fraction(bytes: &[u8]) -> bool
    ensures { result ≡ class.first_is class.begins_fraction bytes.now }
{
    !bytes.is_empty() && bytes[0] == b'.'
}

fn begins_exponent(bytes: &[u8]) -> bool
    ensures { result ≡ class.first_is class.begins_exponent bytes.now }
{
    !bytes.is_empty() && (bytes[0] == b'e' || bytes[0] == b'E')
}

fn begins_signed(bytes: &[u8]) -> bool
    ensures { result ≡ class.first_is class.begins_signed bytes.now }
{
    !bytes.is_empty() && (bytes[0] == b'+' || bytes[0] == b'-')
}

fn begins_string(bytes: &[u8]) -> bool
    ensures { result ≡ class.first_is class.is_quote bytes.now }
{
    !bytes.is_empty() && (bytes[0] == b'"' || bytes[0] == b'\'')
}

/// How many bytes the sign at the front has.
fn sign_bytes(bytes: &[u8]) -> usize
    ensures { result ≡ (if class.first_is class.begins_signed bytes.now then 1 else 0) }
{
    if begins_signed(bytes) { 1 } else { 0 }
}

/// The bytes from a position on.
pub fn after(bytes: &[u8], from: usize) -> &[u8]
    requires { from ≤ length bytes.now }
    ensures { result.now ≡ drop from bytes.now }
{
    bytes.split_at(from).1
}

/// How many bytes the digits at the front have together with a sign before them.
fn signed_length(bytes: &[u8]) -> Option<usize>
    ensures { IsFrontThat is_signed_digits bytes.now result }
{
    let sign = sign_bytes(bytes);
    let unsigned = after(bytes, sign);
    let digits = count_digits(unsigned);
    if digits == 0 {
        return None;
    }
    Some(sign + digits)
}

/// How many bytes the exponent at the front has, 0 where none is.
fn exponent_length(bytes: &[u8]) -> usize
    ensures { IsLongestThat is_exponent_by_bytes bytes.now result }
{
    if !begins_exponent(bytes) {
        return 0;
    }
    let signed = after(bytes, 1);
    match signed_length(signed) {
        Some(length) => 1 + length,
        None => 0,
    }
}

/// How many bytes a point, the digits after it and their exponent have at the front.
fn fraction_length(bytes: &[u8]) -> Option<usize>
    ensures { IsFrontThat is_fraction bytes.now result }
{
    if !begins_fraction(bytes) {
        return None;
    }
    let decimals = after(bytes, 1);
    let digits = count_digits(decimals);
    if digits == 0 {
        return None;
    }
    let rest = after(decimals, digits);
    Some(1 + digits + exponent_length(rest))
}

/// How many bytes the longest number at the front has.
pub fn number_length(bytes: &[u8]) -> Option<usize>
    ensures { IsFrontThat is_number_token bytes.now result }
{
    let digits = count_digits(bytes);
    if digits == 0 {
        return fraction_length(bytes);
    }
    let rest = after(bytes, digits);
    match fraction_length(rest) {
        Some(length) => Some(digits + length),
        None => Some(digits + exponent_length(rest)),
    }
}

/// How many bytes the string at the front has with its quotes.
pub fn string_length(bytes: &[u8]) -> Option<usize>
    ensures { IsFrontThat is_string bytes.now result }
{
    if !begins_string(bytes) {
        return None;
    }
    let quoted = after(bytes, 1);
    match memchr(bytes[0], quoted) {
        Some(end) => Some(end + 2),
        None => None,
    }
}
