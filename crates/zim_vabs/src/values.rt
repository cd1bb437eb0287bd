// The absolute value of a form.
ghost use Rattle.std.specs.Prelude.{◌≡◌, ◌<◌, ◌+◌, length, IfOk};
ghost use Rattle.zim_answer.specs.Gives.{Gives};
ghost use Rattle.zim_linear.specs.Forms.{AreColumns};
ghost use Rattle.zim_forms.specs.Algebra.{◌⊙◌, the};
ghost use Rattle.zim_rows.specs.Steps.{step_of, encode_cause, Encodes};
ghost use Rattle.zim_vabs.specs.Terms as exact;

use crate::integers::ranged_at;
use std::alloc::Global;
use zim_fault::Memory;
use zim_forms::{exact_quotient, with_column};
use zim_fraction::Fraction;
use zim_linear::{Form, LinFault};
use zim_logic_rows::{NewStep, absolute_step, past_at};
use zim_rows::{EncodeFault, RowFrom, System};

/// The step of an absolute value, and what its first column is multiplied by in the value.
#[derive(Debug, Drop)]
struct AbsoluteStep {
    share: Fraction,
    step: NewStep,
}

/// The absolute value of a form over the columns of the system, as a form; its columns and rows are added.
///
/// The fault, at the place of `from`, is `CondReal` or `CondUnbounded` where a column of the form, the first such one by
/// number, is real, or integer without both sides; else `Past` exactly where one of the numbers is; else `TooManyColumns`
/// or `TooManyRows` where there is no room for two more columns or for six more rows.
pub fn absolute_of(
    alloc: Global,
    system: &mut System,
    from: RowFrom,
    form: &Form,
) -> Result<Form, EncodeFault>
    requires { AreColumns (length system.old.columns) form.now.terms }
    ensures { Encodes (λ form. form) (exact.absolute_of from form.now) system.old system.new result }
{
    system.valid();
    let p = system.column_count() as u32 + 1;
    let made = absolute_made(alloc, system, from, form)?;
    system.add_step(
        from.place,
        made.step.columns.as_slice(),
        made.step.rows.as_slice(),
    )?;
    Ok(column_times(alloc, made.share, p)?)
}

// The step, and the share of its first column.
fn absolute_made(
    alloc: Global,
    system: &System,
    from: RowFrom,
    form: &Form,
) -> Result<AbsoluteStep, EncodeFault>
    requires { AreColumns (length system.now.columns) form.now.terms }
    ensures { Gives (λ made. (made.share, step_of made.step.columns made.step.rows)) encode_cause (exact.absolute_numbers from form.now system.now) result }
{
    system.valid();
    let multiple = ranged_at(alloc, system, from.place, form)?;
    let p = system.column_count() as u32 + 1;
    let share = match exact_quotient(Fraction::one(), multiple.k) {
        Ok(share) => share,
        Err(_) => return Err(past_at(from.place, LinFault::Past)),
    };
    match absolute_step(alloc, from, &multiple.ranged, p) {
        Ok(step) => Ok(AbsoluteStep { share, step }),
        Err(fault) => Err(past_at(from.place, fault)),
    }
}

// A column times a number.
fn column_times(alloc: Global, q: Fraction, x: u32) -> Result<Form, Memory>
    requires { 0 < x }
    ensures { IfOk result (λ form. form ≡ q ⊙ the x) }
{
    let nought = Form::constant(alloc, Fraction::zero());
    with_column(alloc, &nought, q, x)
}
