// The rows of a truth column.
ghost use Rattle.std.specs.Prelude.{◌≡◌, [], ◌∷◌, map, IfOk};
ghost use Rattle.zim_answer.specs.Gives.{Gives};
ghost use Rattle.zim_rational.specs.Rational.{negate};
ghost use Rattle.zim_forms.specs.Algebra.{◌⊕◌, ◌⊙◌, the, IsBehind, form_cause};
ghost use Rattle.zim_rows.specs.Steps.{given_row, step_of, binary};
ghost use Rattle.zim_logic_rows.specs.Truth as exact;
ghost use Rattle.zim_logic_rows.specs.Numbers as exact_numbers;
ghost use Rattle.zim_logic_rows.specs.Steps.{terms_row};

use crate::Ranged;
use crate::steps::new_row;
use std::alloc::Global;
use zim_fault::{Memory, Sequence};
use zim_forms::{exact_difference, exact_sum, with_column};
use zim_fraction as numbers;
use zim_fraction::{Fraction, Past};
use zim_linear::{Form, LinFault};
use zim_rows::{NewRow, RowFrom, Sense};

/// The numbers in the rows of the truth column of `T >= c`.
#[derive(Clone, Copy, Debug, Drop)]
struct TruthNumbers {
    /// What is taken of the column in the first row: c less the low end.
    rise: Fraction,
    /// The right side of the first row: the low end less the constant of T.
    first: Fraction,
    /// What is taken of the column in the second row: the high end less c, and 1.
    fall: Fraction,
    /// The right side of the second row: c less 1 and less the constant of T.
    second: Fraction,
}

/// The rows of the truth column of `T >= c`, whose number b is above those of the columns of T. `Past` exactly where one
/// of their numbers is, each of which is computed from left to right.
pub fn truth_step(
    alloc: Global,
    from: RowFrom,
    t: &Ranged,
    c: Fraction,
    b: u32,
) -> Result<Sequence<NewRow>, LinFault>
    requires { IsBehind b t.now.form }
    ensures { Gives (λ rows. step_of (binary ∷ []) rows) form_cause (exact.truth_step from t.now c b) result }
{
    let numbers = match truth_numbers(t, c) {
        Ok(numbers) => numbers,
        Err(_) => return Err(LinFault::Past),
    };
    Ok(truth_rows(alloc, from, &t.form, b, &numbers)?)
}

// The numbers of the rows, in the order in which they are computed.
fn truth_numbers(t: &Ranged, c: Fraction) -> Result<TruthNumbers, Past>
    ensures { result ≡ exact_numbers.truth_numbers t.now c }
{
    let constant = t.form.constant_part();
    let rise = exact_difference(Ok(c), Ok(t.low))?;
    let first = exact_difference(Ok(t.low), Ok(constant))?;
    let fall = exact_sum(exact_difference(Ok(t.high), Ok(c)), Ok(Fraction::one()))?;
    let below = exact_difference(Ok(c), Ok(Fraction::one()));
    let second = exact_difference(below, Ok(constant))?;
    Ok(TruthNumbers {
        rise,
        first,
        fall,
        second,
    })
}

// The rows of a form, its column and numbers.
fn truth_rows(
    alloc: Global,
    from: RowFrom,
    form: &Form,
    b: u32,
    numbers: &TruthNumbers,
) -> Result<Sequence<NewRow>, Memory>
    requires { IsBehind b form.now }
    ensures { IfOk result
        (λ rows. map given_row rows ≡
        terms_row from (form.now ⊕ negate numbers.now.rise ⊙ the b) Sense.AtLeast numbers.now.first
        ∷ terms_row from (form.now ⊕ negate numbers.now.fall ⊙ the b) Sense.AtMost numbers.now.second
        ∷ []) }
{
    let low = with_column(alloc, form, numbers::negated(numbers.rise), b)?;
    let high = with_column(alloc, form, numbers::negated(numbers.fall), b)?;
    let mut rows = Sequence::new(alloc);
    rows.push(new_row(from, low, Sense::AtLeast, numbers.first))?;
    rows.push(new_row(from, high, Sense::AtMost, numbers.second))?;
    Ok(rows)
}
