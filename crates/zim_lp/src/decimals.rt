// The decimal text of a number, in two parts: the sign, and the digits of the absolute value.
ghost use Rattle.std.specs.Prelude.{◌≡◌, [], codes, pos, int_lt, if◌then◌else◌, IsTrue};
ghost use Rattle.zim_decimal.specs.Short as decimal;
ghost use Rattle.zim_gate.specs.Pen.{Writes};
ghost use Rattle.zim_lp.specs.FileText.{number_text};
ghost use Rattle.zim_lp.specs.Text as exact;
ghost use Rattle.zim_lp.specs.Text.{short_number};

use zim_decimal::write_short;
use zim_fraction::{Fraction, negated};
use zim_gate::{Folder, Pen};

// Puts a number with its sign.
pub(crate) fn put_number<F: Folder>(pen: &mut Pen<F>, number: Fraction)
    requires { IsTrue (decimal.is_short number) }
    ensures { Writes F.state pen.old pen.new (number_text (short_number number)) }
{
    pen.put(minus(is_negative(number)));
    put_magnitude(pen, number);
}

// Puts the absolute value of a number.
pub(crate) fn put_magnitude<F: Folder>(pen: &mut Pen<F>, number: Fraction)
    requires { IsTrue (decimal.is_short number) }
    ensures { Writes F.state pen.old pen.new (short_number number).absolute }
{
    let mut digits = [0; 64];
    let end = write_short(magnitude(number), &mut digits);
    pen.put(&digits[..end]);
}

// Whether a number is below 0.
pub(crate) fn is_negative(number: Fraction) -> bool
    ensures { result ≡ int_lt number.numer (pos 0) }
{
    number.numer() < 0
}

// The absolute value of a number.
fn magnitude(number: Fraction) -> Fraction
    ensures { result ≡ exact.magnitude number }
{
    if is_negative(number) {
        negated(number)
    } else {
        number
    }
}

fn minus(negative: bool) -> &'static [u8]
    ensures { result.now ≡ if negative then codes "-" else [] }
{
    if negative { b"-" } else { b"" }
}
