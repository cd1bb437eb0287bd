//! Lists as parts over numbered columns, and the forms that these add up to.

ghost use Rattle.std.specs.Prelude.{[]};
ghost use Rattle.std.specs.List.{AllByRecursion};
ghost use Rattle.zim_linear.specs.Forms.{AreTerms};
ghost use Rattle.zim_plain.specs.Parts.{AreNumbers, IsPart, IsFormOf, PartFormAnswer, AddPartAnswer, parts_fault, parts_number};
ghost use Rattle.zim_plain.specs.Sides.{MadeAnswer, IsSide, side_fault, IsSideForm};

use crate::numbers::past_at;
use crate::stop::PlainStop;
use std::alloc::Global;
use zim_fault::Place;
use zim_fraction::Fraction;
use zim_linear::{Form, LinFault, add_to, scale};

/// A number, or a multiple of a column, with its sign.
#[derive(Debug, Drop)]
pub struct Part {
    /// The place of the operator before it.
    pub place: Place,
    /// The column, from 1; none for a number.
    pub column: Option<u32>,
    /// The number, or the column's coefficient.
    pub amount: Fraction,
}

/// What was read of a list.
#[derive(Debug, Drop)]
pub enum Side {
    /// The number of a list that names no variable.
    Known(Fraction),
    /// The parts of a list, in order.
    Parts(Vec<Part>),
}

// ---- forms of parts

/// The form of a part.
fn part_form(alloc: Global, part: &Part) -> Result<Form, LinFault>
    requires { IsPart part.now }
    ensures { PartFormAnswer part.now result }
{
    match part.column {
        None => Ok(Form::constant(alloc, part.amount)),
        Some(j) => {
            let column = Form::column(alloc, j)?;
            scale(alloc, &column, part.amount)
        }
    }
}

/// Adds a part to a form. `Past` exactly where the sum of its column's coefficients is past, or of the constants.
fn add_part(alloc: Global, form: &mut Form, part: &Part) -> Result<(), LinFault>
    requires terms { AreTerms form.old.terms }
    requires numbers { AreNumbers form.old }
    requires part { IsPart part.now }
    ensures { AddPartAnswer form.old part.now form.new result }
{
    let more = part_form(alloc, part)?;
    add_to(form, &more)
}

/// The form that parts add up to, or `Past` at the first of them whose sum is past.
fn parts_form(alloc: Global, mut rest: &[Part]) -> Result<Form, PlainStop>
    requires { AllByRecursion IsPart rest.now }
    ensures { MadeAnswer (parts_fault [] rest.now) (IsFormOf rest.now (parts_number rest.now)) result }
{
    let mut form = Form::constant(alloc, Fraction::zero());
    while let Some((part, more)) = rest.split_first() {
        match add_part(alloc, &mut form, part) {
            Ok(()) => (),
            Err(LinFault::Past) => return Err(PlainStop::Fault(past_at(part.place))),
            Err(LinFault::Memory) => return Err(PlainStop::Memory),
        }
        rest = more;
    }
    Ok(form)
}

/// The form of what was read of a list, or `Past` at the first operator at which a sum is past.
pub fn side_form(alloc: Global, side: &Side) -> Result<Form, PlainStop>
    requires { IsSide side.now }
    ensures { MadeAnswer (side_fault side.now) (IsSideForm side.now) result }
{
    match side {
        Side::Known(number) => Ok(Form::constant(alloc, *number)),
        Side::Parts(parts) => parts_form(alloc, parts.as_slice()),
    }
}
