// The digits of a number: their number without the zeros at their end, and how many these are.
ghost use Rattle.std.specs.Prelude.{ℕ, ◌≡◌, ◌≤◌, ◌<◌, ◌+◌, ◌-◌, ◌*◌, ◌^◌, ◌++◌, List, [], ◌∷◌, length, IsTrue};
ghost use Rattle.std.specs.Char.{is_ascii_digit};
ghost use Rattle.std.specs.List.{list_all};
ghost use Rattle.zim_fraction.specs.Limit.{limit};
ghost use Rattle.zim_decimal.specs.Digits.{within, IsCounted};

/// The greatest number that is not past.
const LIMIT: u128 = 170_141_183_460_469_231_731_687_303_715_884_105_727;

// What is read of a number's digits: their number without the zeros at their end, none where it passes
// the limit, and how many zeros stand at their end.
#[derive(Drop)]
pub(crate) struct Digits {
    pub(crate) value: Option<u128>,
    pub(crate) zeros: usize,
}

// The digits of the two texts, one after the other.
pub(crate) fn read_digits(whole: &[u8], behind: &[u8]) -> Digits
    requires first { IsTrue (list_all is_ascii_digit whole.now) }
    requires second { IsTrue (list_all is_ascii_digit behind.now) }
    requires room { length whole.now + length behind.now < 2 ^ 64 }
    ensures counted { IsCounted (whole.now ++ behind.now) result.value result.zeros }
    ensures zeros { result.zeros ≤ length whole.now + length behind.now }
{
    let mut value = Some(0);
    let mut zeros = 0;
    for digit in whole {
        let read = with_digit(Digits { value, zeros }, *digit);
        value = read.value;
        zeros = read.zeros;
    }
    for decimal in behind {
        let read = with_digit(Digits { value, zeros }, *decimal);
        value = read.value;
        zeros = read.zeros;
    }
    Digits { value, zeros }
}

// The digits with one more.
fn with_digit(read: Digits, digit: u8) -> Digits
    requires digit { IsTrue (is_ascii_digit digit) }
    requires room { read.zeros + 1 < 2 ^ 64 }
    ensures counted { (ds : List ℕ) → IsCounted ds read.value read.zeros → IsCounted (ds ++ (digit ∷ [])) result.value result.zeros }
    ensures zeros { result.zeros ≤ read.zeros + 1 }
{
    if digit == b'0' {
        return Digits {
            value: read.value,
            zeros: read.zeros + 1,
        };
    }
    let value = match read.value {
        Some(value) => appended(value, read.zeros, (digit - b'0') as u128),
        None => None,
    };
    Digits { value, zeros: 0 }
}

// A number with the zeros and the digit behind it, where it is within the limit.
fn appended(value: u128, zeros: usize, digit: u128) -> Option<u128>
    requires digit { digit < 10 }
    ensures { result ≡ within (value * 10 ^ (zeros + 1) + digit) }
{
    if value == 0 {
        return Some(digit);
    }
    if 38 <= zeros {
        return None;
    }
    match value.checked_mul(10_u128.pow(zeros as u32 + 1)) {
        Some(product) if product <= LIMIT - digit => Some(product + digit),
        _ => None,
    }
}
