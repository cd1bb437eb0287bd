// Multiples of forms that have whole numbers alone.
ghost use Rattle.std.specs.Prelude.{◌≤◌, ◌≤ℤ◌, pos, unsigned_abs, IfOk};
ghost use Rattle.std.specs.Result.{OkIff};
ghost use Rattle.zim_fraction.specs.Limit.{limit};
ghost use Rattle.zim_linear.specs.Integers.{multiple_from, common_multiple, IsLeastMultiple, IsLeastWhole, IntegerAnswer};

use crate::faults::LinFault;
use crate::form::{Form, Term};
use crate::multiple::scale;
use std::alloc::Global;
use zim_fraction as numbers;
use zim_fraction::{Fraction, Past};

/// A form times the least number, from 1, that makes its coefficients and its constant whole.
#[derive(Debug, Drop)]
pub struct IntegerForm {
    /// The multiple.
    pub form: Form,
    /// The least common multiple of the denominators.
    pub k: i128,
}

/// The least multiple of a form whose coefficients and constant are whole. `Past` exactly where the
/// least common multiple of the denominators is past, or its product with a coefficient or with the
/// constant.
pub fn integer_form(alloc: Global, a: &Form) -> Result<IntegerForm, LinFault>
    ensures answer { IntegerAnswer a.now result }
    ensures least { IsLeastMultiple a.now (common_multiple a.now) }
    ensures whole { IfOk result (IsLeastWhole a.now) }
{
    let k = match multiple(a.constant_part().denom(), a.terms()) {
        Ok(k) => k,
        Err(_) => return Err(LinFault::Past),
    };
    let form = scale(alloc, a, Fraction::whole(k))?;
    Ok(IntegerForm { form, k })
}

// The least common multiple of a number and the denominators of the coefficients.
fn multiple(first: i128, mut rest: &[Term]) -> Result<i128, Past>
    requires positive { pos 1 ≤ℤ first }
    requires bound { unsigned_abs first ≤ limit }
    ensures { OkIff result (multiple_from (unsigned_abs first) rest.now ≤ limit) (pos (multiple_from (unsigned_abs first) rest.now)) }
{
    let mut k = first;
    while let Some((t, more)) = rest.split_first() {
        k = match numbers::lcm(k, t.1.denom()) {
            Ok(next) => next,
            Err(_) => return Err(Past),
        };
        rest = more;
    }
    Ok(k)
}
