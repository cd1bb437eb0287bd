// The columns and rows of an absolute value.
ghost use Rattle.std.specs.Prelude.{◌≡◌, ◌<◌, ◌+◌, true, [], ◌∷◌, ◌++◌, map, Some, IfOk, OnOk};
ghost use Rattle.zim_answer.specs.Gives.{Gives};
ghost use Rattle.zim_rational.specs.Rational.{zero, one, negate};
ghost use Rattle.zim_rational.specs.Rounding as rounding;
ghost use Rattle.zim_linear.specs.Sums.{negated_form};
ghost use Rattle.zim_forms.specs.Algebra.{◌⊕◌, ◌⊙◌, the, IsBehind, form_cause};
ghost use Rattle.zim_rows.specs.System.{column_of};
ghost use Rattle.zim_rows.specs.Steps.{given_row, step_of, binary};
ghost use Rattle.zim_logic_rows.specs.Absolute as exact;
ghost use Rattle.zim_logic_rows.specs.Numbers as exact_numbers;
ghost use Rattle.zim_logic_rows.specs.Steps.{terms_row};
ghost use Rattle.zim_logic_rows.specs.Absolute.{size_column};

use crate::Ranged;
use crate::steps::{NewStep, new_row};
use crate::truth::truth_step;
use std::alloc::Global;
use std::cmp::Ordering;
use zim_fault::{Memory, Sequence};
use zim_forms::with_column;
use zim_fraction as numbers;
use zim_fraction::{Fraction, Past};
use zim_linear as linear;
use zim_linear::{Form, LinFault, Sides};
use zim_rows::{Column, NewRow, RowFrom, Sense};

/// The numbers in the rows of an absolute value that aren't those of T.
#[derive(Clone, Copy, Debug, Drop)]
struct SizeNumbers {
    /// The larger of 0 and twice the low end without its sign.
    above: Fraction,
    /// The larger of 0 and twice the high end.
    under: Fraction,
    /// The right side of the third row: `above` and the constant of T.
    right: Fraction,
}

/// The columns and rows of the absolute value of T: the integer column p, whose number is above those of the columns of
/// T, and behind it the truth column of `T >= 0`. `Past` exactly where one of their numbers is.
pub fn absolute_step(alloc: Global, from: RowFrom, t: &Ranged, p: u32) -> Result<NewStep, LinFault>
    requires behind { IsBehind p t.now.form }
    requires room { p < 4294967295 }
    ensures { Gives (λ step. step_of step.columns step.rows) form_cause (exact.absolute_step from t.now p) result }
{
    let _ordered = t.form.terms();
    let mut rows = truth_step(alloc, from, t, Fraction::zero(), p + 1)?;
    let numbers = match size_numbers(t) {
        Ok(numbers) => numbers,
        Err(_) => return Err(LinFault::Past),
    };
    add_size_rows(alloc, from, &t.form, p, &numbers, &mut rows)?;
    let columns = size_columns(alloc, t)?;
    Ok(NewStep { columns, rows })
}

// The numbers, in the order in which they are computed.
fn size_numbers(t: &Ranged) -> Result<SizeNumbers, Past>
    ensures { result ≡ exact_numbers.size_numbers t.now }
{
    let low = numbers::mul(Fraction::whole(-2), t.low)?;
    let high = numbers::mul(Fraction::whole(2), t.high)?;
    let above = larger(Fraction::zero(), low);
    let under = larger(Fraction::zero(), high);
    let right = numbers::add(above, t.form.constant_part())?;
    Ok(SizeNumbers {
        above,
        under,
        right,
    })
}

// The larger of two numbers.
fn larger(a: Fraction, b: Fraction) -> Fraction
    ensures { result ≡ rounding.larger a b }
{
    match numbers::compare(a, b) {
        Ordering::Less => b,
        Ordering::Equal => b,
        Ordering::Greater => a,
    }
}

// The two columns: that of the value, and that of the sign.
fn size_columns(alloc: Global, t: &Ranged) -> Result<Sequence<Column>, Memory>
    ensures { IfOk result (λ columns. columns ≡ size_column t.now ∷ binary ∷ []) }
{
    let most = larger(numbers::negated(t.low), t.high);
    Sequence::from_slice(
        alloc,
        &[integer_column(most), integer_column(Fraction::one())],
    )
}

// An integer column from 0 to a number.
fn integer_column(most: Fraction) -> Column
    ensures { result ≡ column_of true (record { low = Some zero; high = Some most }) }
{
    Column {
        integer: true,
        sides: Sides {
            low: Some(Fraction::zero()),
            high: Some(most),
        },
    }
}

// Adds the four rows of column p, behind which the sign's column stands.
fn add_size_rows(
    alloc: Global,
    from: RowFrom,
    form: &Form,
    p: u32,
    numbers: &SizeNumbers,
    rows: &mut Sequence<NewRow>,
) -> Result<(), Memory>
    requires behind { IsBehind p form.now }
    requires room { p < 4294967295 }
    ensures { OnOk result
        (map given_row rows.new ≡
        map given_row rows.old
        ++ terms_row from (negated_form form.now ⊕ one ⊙ the p) Sense.AtLeast form.now.constant
        ∷ terms_row from (form.now ⊕ one ⊙ the p) Sense.AtLeast (negate form.now.constant)
        ∷ terms_row from (negated_form form.now ⊕ one ⊙ the p ⊕ numbers.now.above ⊙ the (p + 1)) Sense.AtMost numbers.now.right
        ∷ terms_row from (form.now ⊕ one ⊙ the p ⊕ negate numbers.now.under ⊙ the (p + 1)) Sense.AtMost (negate form.now.constant)
        ∷ []) }
{
    let turned = linear::negated(alloc, form)?;
    let constant = form.constant_part();
    let less = with_column(alloc, &turned, Fraction::one(), p)?;
    let more = with_column(alloc, form, Fraction::one(), p)?;
    let less_at_sign = with_column(alloc, &less, numbers.above, p + 1)?;
    let more_at_sign = with_column(alloc, &more, numbers::negated(numbers.under), p + 1)?;
    rows.push(new_row(from, less, Sense::AtLeast, constant))?;
    rows.push(new_row(from, more, Sense::AtLeast, numbers::negated(constant)))?;
    rows.push(new_row(from, less_at_sign, Sense::AtMost, numbers.right))?;
    rows.push(new_row(
        from,
        more_at_sign,
        Sense::AtMost,
        numbers::negated(constant),
    ))?;
    Ok(())
}
