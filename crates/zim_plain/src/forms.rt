//! The forms of lists and of rows.

ghost use Rattle.std.specs.Prelude.{◌≡◌, ◌≤◌, length};
ghost use Rattle.zim_plain.specs.Suits.{SuitsSum};
ghost use Rattle.zim_plain.specs.Reader.{sum_said};
ghost use Rattle.zim_plain.specs.Sides.{MadeAnswer, list_fault, IsListForm, row_fault, IsRowForm, row_answer};

use crate::numbers::past_at;
use crate::parts::side_form;
use crate::sides::read_side;
use crate::statement::Sum;
use crate::stop::PlainStop;
use indexmap::IndexSet;
use std::alloc::Global;
use zim_fault::{Bytes, Place};
use zim_linear::{Form, LinFault, sub};

/// The form of a list, or the first of its numbers and then of its sums that is past.
pub fn list_form(
    alloc: Global,
    variables: &IndexSet<Bytes>,
    sum: &Sum<'_>,
) -> Result<Form, PlainStop>
    requires few { length variables.now.keys ≤ 1000000 }
    requires suits { SuitsSum variables.now.keys (sum_said sum.now) }
    ensures { MadeAnswer (list_fault (sum_said sum.now)) (IsListForm variables.now.keys (sum_said sum.now)) result }
{
    let side = match read_side(alloc, variables, sum) {
        Ok(side) => side,
        Err(stop) => return Err(stop),
    };
    side_form(alloc, &side)
}

/// The form of a left side less that of a right one, or the first number that is past: of the left side's numbers, the
/// right side's, the left side's sums, the right side's, or their difference, which is told at a place.
pub fn row_form(
    alloc: Global,
    variables: &IndexSet<Bytes>,
    left: &Sum<'_>,
    at: Place,
    right: &Sum<'_>,
) -> Result<Form, PlainStop>
    requires few { length variables.now.keys ≤ 1000000 }
    requires suits_left { SuitsSum variables.now.keys (sum_said left.now) }
    requires suits_right { SuitsSum variables.now.keys (sum_said right.now) }
    ensures { MadeAnswer (row_fault (sum_said left.now) at (sum_said right.now)) (IsRowForm variables.now.keys (sum_said left.now) (sum_said right.now)) result }
{
    let left_side = match read_side(alloc, variables, left) {
        Ok(side) => side,
        Err(stop) => return Err(stop),
    };
    let right_side = match read_side(alloc, variables, right) {
        Ok(side) => side,
        Err(stop) => return Err(stop),
    };
    let left_form = match side_form(alloc, &left_side) {
        Ok(form) => form,
        Err(stop) => return Err(stop),
    };
    let right_form = match side_form(alloc, &right_side) {
        Ok(form) => form,
        Err(stop) => return Err(stop),
    };
    told_at(at, sub(alloc, &left_form, &right_form))
}

/// A form, or its fault told at a place.
fn told_at(at: Place, form: Result<Form, LinFault>) -> Result<Form, PlainStop>
    ensures { result ≡ row_answer at form }
{
    match form {
        Ok(form) => Ok(form),
        Err(LinFault::Past) => Err(PlainStop::Fault(past_at(at))),
        Err(LinFault::Memory) => Err(PlainStop::Memory),
    }
}
