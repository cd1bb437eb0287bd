//! The elements that a template takes of the fields of a line.
ghost use Rattle.std.specs.Prelude.{◌≡◌};
ghost use Rattle.std.specs.List.{list_any};
ghost use Rattle.zim_answer.specs.Gives.{Gives};
ghost use Rattle.zim_read.specs.Private.{lent, number_field};
ghost use Rattle.zim_read.specs.Causes.{line_cause};
ghost use Rattle.zim_read.specs.Rows as spec;

use crate::lines::unquoted;
use crate::stops::LineStop;
use crate::templates::{Field, FieldKind};
use std::alloc::Global;
use zim_decimal::read_field;
use zim_fault::Kind;
use zim_tuples::{Elem, Tuple};

// The number of a text.
fn number_element(text: &[u8]) -> Result<Elem, LineStop>
    ensures { Gives (λ element. element) line_cause (number_field text.now) result }
{
    match read_field(text) {
        Ok(Some(number)) => Ok(Elem::Number(number)),
        Ok(None) => Err(LineStop::Fault(Kind::BadField)),
        Err(_) => Err(LineStop::Fault(Kind::Past)),
    }
}

/// A field of a line as an element of this kind.
#[tactic(auto, unfolding(crate::specs::Rows::element_of))]
pub fn element_of(alloc: Global, kind: FieldKind, field: &[u8]) -> Result<Elem, LineStop>
    ensures { Gives (λ element. element) line_cause (spec.element_of kind field.now) result }
{
    let text = unquoted(alloc, field)?;
    match kind {
        FieldKind::Number => number_element(text.as_slice()),
        FieldKind::Text => Ok(Elem::Text(text)),
    }
}

// The field of a line at this position, which counts from 1.
fn field_at<'a>(line: &[&'a [u8]], at: u32) -> &'a [u8]
    ensures { result.now ≡ spec.field_at (lent line.now) at }
{
    let index = (at as usize).saturating_sub(1);
    if index < line.len() { line[index] } else { b"" }
}

/// The element that a template's field takes of a line.
pub fn element_at(alloc: Global, line: &[&[u8]], field: Field) -> Result<Elem, LineStop>
    ensures { Gives (λ element. element) line_cause (spec.element_at (lent line.now) field) result }
{
    element_of(alloc, field.kind, field_at(line, field.at))
}

/// The elements that fields of a template take of a line, in the template's order.
pub fn elements_at(alloc: Global, line: &[&[u8]], fields: &[Field]) -> Result<Tuple, LineStop>
    ensures { Gives (λ elements. elements) line_cause (spec.elements_at (lent line.now) fields.now) result }
{
    let mut elements = Tuple::new(alloc);
    for field in fields {
        elements.push(element_at(alloc, line, *field)?)?;
    }
    Ok(elements)
}

/// The element that the field of a value takes, if there is one.
#[tactic(auto, unfolding(crate::specs::Rows::value_element))]
pub fn value_element(
    alloc: Global,
    line: &[&[u8]],
    field: Option<Field>,
) -> Result<Option<Elem>, LineStop>
    ensures { Gives (λ value. value) line_cause (spec.value_element (lent line.now) field) result }
{
    match field {
        Some(field) => Ok(Some(element_at(alloc, line, field)?)),
        None => Ok(None),
    }
}

// Whether the line has no field at the position of a template's field.
fn is_past_line(line: &[&[u8]], field: &Field) -> bool
    ensures { result ≡ spec.is_past_line (lent line.now) field.now }
{
    line.len() < field.at as usize
}

// Whether the line has no field at the position of one of these.
fn is_any_past_line(line: &[&[u8]], fields: &[Field]) -> bool
    ensures { result ≡ list_any (spec.is_past_line (lent line.now)) fields.now }
{
    fields.iter().any(|field| is_past_line(line, field))
}

/// Whether the line has fewer fields than the greatest position of a template's fields.
#[tactic(auto, unfolding(crate::specs::Rows::is_short_line))]
pub fn is_short_line(line: &[&[u8]], index: &[Field], value: Option<Field>) -> bool
    ensures { result ≡ spec.is_short_line (lent line.now) index.now value }
{
    is_any_past_line(line, index)
        || match value {
            Some(field) => is_past_line(line, &field),
            None => false,
        }
}
