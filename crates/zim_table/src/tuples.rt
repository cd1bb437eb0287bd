// The texts of numbers, strings and tuples.
ghost use Rattle.std.specs.Prelude.{◌≡◌, ◌<◌, flat_map};
ghost use Rattle.zim_tuples.specs.declared.elements.Elem.TheVariants.{Text};
ghost use Rattle.zim_gate.specs.Pen.{Writes};
ghost use Rattle.zim_table.specs.Text as text;
ghost use Rattle.zim_table.specs.Text.{fraction_text, escaped_byte, hex_glyph, element_text, further_text, tuple_text};

use zim_fraction::Fraction;
use zim_gate::{Folder, Pen};
use zim_tuples::Elem;

/// Puts a tuple of a component and further ones.
pub(crate) fn put_tuple<F: Folder>(pen: &mut Pen<F>, first: &Elem, others: &[Elem])
    ensures { Writes F.state pen.old pen.new (tuple_text first.now others.now) }
{
    pen.put(b"<");
    put_element(pen, first);
    put_others(pen, others);
    pen.put(b">");
}

fn put_others<F: Folder>(pen: &mut Pen<F>, others: &[Elem])
    ensures { Writes F.state pen.old pen.new (flat_map further_text others.now) }
{
    for element in others {
        pen.put(b",");
        put_element(pen, element);
    }
}

fn put_element<F: Folder>(pen: &mut Pen<F>, element: &Elem)
    ensures { Writes F.state pen.old pen.new (element_text element.now) }
{
    match element {
        Elem::Number(number) => put_fraction(pen, *number),
        Elem::Text(bytes) => put_string(pen, bytes.as_slice()),
    }
}

/// Puts a number as `n`, or as `n/d` where it isn't whole.
pub(crate) fn put_fraction<F: Folder>(pen: &mut Pen<F>, number: Fraction)
    ensures { Writes F.state pen.old pen.new (fraction_text number) }
{
    pen.put_number(number.numer());
    let denom = number.denom();
    if denom != 1 {
        pen.put(b"/");
        pen.put_number(denom);
    }
}

fn put_string<F: Folder>(pen: &mut Pen<F>, bytes: &[u8])
    ensures { Writes F.state pen.old pen.new (element_text (Text bytes.now)) }
{
    pen.put(b"\"");
    put_escaped(pen, bytes);
    pen.put(b"\"");
}

fn put_escaped<F: Folder>(pen: &mut Pen<F>, bytes: &[u8])
    ensures { Writes F.state pen.old pen.new (flat_map escaped_byte bytes.now) }
{
    for byte in bytes {
        put_byte(pen, *byte);
    }
}

fn put_byte<F: Folder>(pen: &mut Pen<F>, byte: u8)
    ensures { Writes F.state pen.old pen.new (escaped_byte byte) }
{
    if stands_for_itself(byte) {
        pen.put(&[byte]);
    } else {
        pen.put(&[b'%', hex_digit(byte / 16), hex_digit(byte % 16)]);
    }
}

/// Whether a byte of a string is written as it is.
fn stands_for_itself(byte: u8) -> bool
    ensures { result ≡ text.stands_for_itself byte }
{
    33 <= byte && byte <= 126 && byte != b'"' && byte != b'%'
}

/// The hexadecimal digit, upper case, of a number below 16.
fn hex_digit(number: u8) -> u8
    requires { number < 16 }
    ensures { result ≡ hex_glyph number }
{
    if number < 10 {
        b'0' + number
    } else {
        b'A' - 10 + number
    }
}
