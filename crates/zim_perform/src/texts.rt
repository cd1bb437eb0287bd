//! The texts of values.
ghost use Rattle.std.specs.Prelude.{◌≡◌, ◌++◌, flat_map, map, OnOk};
ghost use Rattle.zim_meaning.specs.Printing.{element_output, number_output, set_output, tuple_output, value_output, with_between};
ghost use Rattle.zim_perform.specs.Private.{behind_commas};

use itoa::{Buffer, Integer};
use zim_fault::{Memory, Sequence};
use zim_fraction::Fraction;
use zim_meaning::Value;
use zim_tuples::{Elem, Tuple};

// Puts a whole number in decimal, with a minus sign where it is negative.
fn put_whole<I: Integer>(number: I, to: &mut Sequence<u8>) -> Result<(), Memory>
    ensures { OnOk result (to.new ≡ to.old ++ I.text number) }
{
    let mut buffer = Buffer::new();
    to.extend_from_slice(buffer.format(number).as_bytes())
}

// Puts a number as `n`, or as `n/d` where it isn't whole.
fn put_number(number: Fraction, to: &mut Sequence<u8>) -> Result<(), Memory>
    ensures { OnOk result (to.new ≡ to.old ++ number_output number) }
{
    put_whole(number.numer(), to)?;
    let denom = number.denom();
    if denom != 1 {
        to.push(b'/')?;
        put_whole(denom, to)?;
    }
    Ok(())
}

// Puts a component of a tuple, a text as it is.
fn put_element(element: &Elem, to: &mut Sequence<u8>) -> Result<(), Memory>
    ensures { OnOk result (to.new ≡ to.old ++ element_output element.now) }
{
    match element {
        Elem::Number(number) => put_number(*number, to),
        Elem::Text(text) => to.extend_from_slice(text.as_slice()),
    }
}

// Puts components, each behind a comma.
fn put_further_elements(elements: &[Elem], to: &mut Sequence<u8>) -> Result<(), Memory>
    ensures { OnOk result (to.new ≡ to.old ++ flat_map (behind_commas element_output) elements.now) }
{
    for element in elements {
        to.push(b',')?;
        put_element(element, to)?;
    }
    Ok(())
}

// Puts components with a comma between each two.
fn put_elements(elements: &[Elem], to: &mut Sequence<u8>) -> Result<(), Memory>
    ensures { OnOk result (to.new ≡ to.old ++ with_between 44 (map element_output elements.now)) }
{
    match elements.split_first() {
        Some((first, further)) => {
            put_element(first, to)?;
            put_further_elements(further, to)
        }
        None => Ok(()),
    }
}

/// Puts a tuple as `<a,b>`.
pub(crate) fn put_tuple(tuple: &[Elem], to: &mut Sequence<u8>) -> Result<(), Memory>
    ensures { OnOk result (to.new ≡ to.old ++ tuple_output tuple.now) }
{
    to.push(b'<')?;
    put_elements(tuple, to)?;
    to.push(b'>')
}

// Puts tuples, each behind a comma.
fn put_further_tuples(tuples: &[Tuple], to: &mut Sequence<u8>) -> Result<(), Memory>
    ensures { OnOk result (to.new ≡ to.old ++ flat_map (behind_commas tuple_output) tuples.now) }
{
    for tuple in tuples {
        to.push(b',')?;
        put_tuple(tuple.as_slice(), to)?;
    }
    Ok(())
}

// Puts tuples with a comma between each two.
fn put_tuples(tuples: &[Tuple], to: &mut Sequence<u8>) -> Result<(), Memory>
    ensures { OnOk result (to.new ≡ to.old ++ with_between 44 (map tuple_output tuples.now)) }
{
    match tuples.split_first() {
        Some((first, further)) => {
            put_tuple(first.as_slice(), to)?;
            put_further_tuples(further, to)
        }
        None => Ok(()),
    }
}

// Puts a set as `{<a>,<b>}`.
fn put_set(tuples: &[Tuple], to: &mut Sequence<u8>) -> Result<(), Memory>
    ensures { OnOk result (to.new ≡ to.old ++ set_output tuples.now) }
{
    to.push(b'{')?;
    put_tuples(tuples, to)?;
    to.push(b'}')
}

/// Puts a value: a number as `n` or `n/d`, a text as it is, `true` or `false`, or a set.
#[tactic(auto, unfolding(zim_meaning::specs::Printing::value_output))]
pub(crate) fn put_value(value: &Value, to: &mut Sequence<u8>) -> Result<(), Memory>
    ensures { OnOk result (to.new ≡ to.old ++ value_output value.now) }
{
    match value {
        Value::Number(number) => put_number(*number, to),
        Value::Text(text) => to.extend_from_slice(text.as_slice()),
        Value::Truth(true) => to.extend_from_slice(b"true"),
        Value::Truth(false) => to.extend_from_slice(b"false"),
        Value::Set(set) => put_set(set.as_slice(), to),
    }
}
