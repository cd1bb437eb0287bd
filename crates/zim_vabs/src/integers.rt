// The least whole multiple of a form, with its ends.
ghost use Rattle.std.specs.Prelude.{◌≡◌, ◌<◌, ◌≤◌, length, pos, Ok, IfOk};
ghost use Rattle.zim_answer.specs.Gives.{Gives};
ghost use Rattle.zim_rational.specs.Rational.{whole};
ghost use Rattle.zim_linear.specs.Forms.{AreColumns};
ghost use Rattle.zim_linear.specs.Integers.{common_multiple};
ghost use Rattle.zim_forms.specs.Algebra.{form_cause};
ghost use Rattle.zim_rows.specs.System.{column_at};
ghost use Rattle.zim_rows.specs.Steps.{encode_cause};
ghost use Rattle.zim_vabs.specs.IntegerForms as exact;

use std::alloc::Global;
use zim_fault::{Fault, Kind, Place};
use zim_forms::{ends, exact_sum};
use zim_fraction::{Fraction, Past};
use zim_linear as linear;
use zim_linear::{Form, LinFault, Sides, Term};
use zim_logic_rows::{Ranged, past_at};
use zim_rows::{EncodeFault, System};

/// The least multiple of a form that has whole numbers, with its ends.
#[derive(Debug, Drop)]
pub struct RangedMultiple {
    pub ranged: Ranged,
    /// What the form was multiplied by, a whole number from 1.
    pub k: Fraction,
}

/// The least whole multiple of a form that may stand in a condition or under an absolute value, and its ends over the
/// sides of its columns.
///
/// The fault, at the place, is `CondReal` or `CondUnbounded` exactly where a column of the form, the first such one by
/// number, is real, or integer without both sides; else `Past` exactly where one of the numbers is.
pub fn ranged_at(
    alloc: Global,
    system: &System,
    place: Place,
    form: &Form,
) -> Result<RangedMultiple, EncodeFault>
    requires { AreColumns (length system.now.columns) form.now.terms }
    ensures ranged { Gives (λ made. made.ranged) encode_cause (exact.ranged_at place form.now system.now.columns) result }
    ensures multiple { IfOk result (λ made. made.k ≡ whole (pos (common_multiple form.now))) }
{
    match offence(system, form.terms()) {
        Some(kind) => Err(EncodeFault::Fault(Fault { place, kind })),
        None => match ranged(alloc, system, form) {
            Ok(made) => Ok(made),
            Err(fault) => Err(past_at(place, fault)),
        },
    }
}

// Why the first column of the terms that doesn't serve doesn't.
fn offence(system: &System, mut terms: &[Term]) -> Option<Kind>
    requires { AreColumns (length system.now.columns) terms.now }
    ensures { result ≡ exact.offence system.now.columns terms.now }
{
    while let Some((t, more)) = terms.split_first() {
        let offence = column_offence(system, t.0);
        if offence.is_some() {
            return offence;
        }
        terms = more;
    }
    None
}

// Why a column doesn't serve, if it doesn't.
fn column_offence(system: &System, j: u32) -> Option<Kind>
    requires from_one { 0 < j }
    requires in_columns { j ≤ length system.now.columns }
    ensures { result ≡ exact.column_offence (column_at system.now.columns j) }
{
    if !system.is_integer(j) {
        return Some(Kind::CondReal);
    }
    let sides = &system.sides()[j as usize - 1];
    if sides.low.is_some() && sides.high.is_some() {
        None
    } else {
        Some(Kind::CondUnbounded)
    }
}

// The multiple and its ends.
fn ranged(alloc: Global, system: &System, form: &Form) -> Result<RangedMultiple, LinFault>
    requires { AreColumns (length system.now.columns) form.now.terms }
    ensures ranged { Gives (λ made. made.ranged) form_cause (exact.ranged system.now.columns form.now) result }
    ensures multiple { IfOk result (λ made. made.k ≡ whole (pos (common_multiple form.now))) }
{
    let multiple = linear::integer_form(alloc, form)?;
    let k = Fraction::whole(multiple.k);
    let sides = match ends(&multiple.form, system.sides()) {
        Ok(sides) => sides,
        Err(_) => return Err(LinFault::Past),
    };
    match with_ends(multiple.form, &sides) {
        Ok(ranged) => Ok(RangedMultiple { ranged, k }),
        Err(_) => Err(LinFault::Past),
    }
}

// A form with the ends of its terms, to which its constant is added.
fn with_ends(form: Form, sides: &Sides) -> Result<Ranged, Past>
    ensures { result ≡ exact.with_ends form sides.now }
{
    let constant = form.constant_part();
    let low = exact_sum(Ok(finite_end(sides.low)), Ok(constant))?;
    let high = exact_sum(Ok(finite_end(sides.high)), Ok(constant))?;
    Ok(Ranged { form, low, high })
}

// An end, or 0 where there is none.
fn finite_end(end: Option<Fraction>) -> Fraction
    ensures { Ok result ≡ exact.finite_end end }
{
    match end {
        Some(end) => end,
        None => Fraction::zero(),
    }
}
