// The calls on forms, with the words of the operators in their clauses.
ghost use Rattle.std.specs.Prelude.{◌≡◌, ◌≢◌, [], ◌∷◌, ◌++◌, IfOk, OnErr};
ghost use Rattle.zim_answer.specs.Gives.{Gives};
ghost use Rattle.zim_rational.specs.Rational.{zero};
ghost use Rattle.zim_linear.specs.Sums.{negated_form};
ghost use Rattle.zim_linear.specs.Ends.{HaveSides};
ghost use Rattle.zim_forms.specs.Algebra.{◌⊕◌, ◌⊙◌, the, form_sum, form_times, IsBehind, form_cause, GivesForm};
ghost use Rattle.zim_forms.specs.FormEnds.{both_ends};

use std::alloc::Global;
use zim_fault::Memory;
use zim_fraction::{Fraction, Past};
use zim_linear as linear;
use zim_linear::{Form, LinFault, Sides, Term};

/// a + b. `Past` exactly where a column stands in both and the sum of its coefficients is past, or the sum of the
/// constants is.
pub fn sum(alloc: Global, a: &Form, b: &Form) -> Result<Form, LinFault>
    ensures { GivesForm (form_sum a.now b.now) result }
{
    let _ordered = a.terms();
    linear::add(alloc, a, b)
}

/// Adds b to a, in place where the columns of b stand behind those of a. `Past` as in `sum`; after a refusal a is as it was.
pub fn add_to(a: &mut Form, b: &Form) -> Result<(), LinFault>
    ensures sum { Gives (λ _. a.new) form_cause (form_sum a.old b.now) result }
    ensures err { OnErr result (a.new ≡ a.old) }
{
    let _ordered = a.terms();
    linear::add_to(a, b)
}

/// a - b, with `Past` as in the sum of a and -b.
pub fn difference(alloc: Global, a: &Form, b: &Form) -> Result<Form, LinFault>
    ensures { GivesForm (form_sum a.now (negated_form b.now)) result }
{
    let _ordered = a.terms();
    linear::sub(alloc, a, b)
}

/// a times q. `Past` exactly where the product of q with a coefficient or with the constant is.
pub fn multiple(alloc: Global, a: &Form, q: Fraction) -> Result<Form, LinFault>
    ensures { GivesForm (form_times a.now q) result }
{
    linear::scale(alloc, a, q)
}

/// The least and the greatest number of the terms over the sides of their columns, without the constant; none where
/// they are infinite. `Past` exactly where a number on the way to a finite one is.
pub fn ends(a: &Form, sides: &[Sides]) -> Result<Sides, Past>
    requires { HaveSides sides.now a.now.terms }
    ensures { result ≡ both_ends sides.now a.now.terms }
{
    linear::bounds(a, sides)
}

/// a + q x, where x is a column that stands behind all columns of a. No number is computed, so none is past.
pub fn with_column(alloc: Global, a: &Form, q: Fraction, x: u32) -> Result<Form, Memory>
    requires { IsBehind x a.now }
    ensures { IfOk result (λ form. form ≡ a.now ⊕ q ⊙ the x) }
{
    let terms = ended(alloc, a.terms(), q, x)?;
    Ok(Form::of_terms(terms, a.constant_part()))
}

// The terms, and behind them q x, but no term where q is 0.
#[tactic(auto, using(crate::proofs::ColumnLaws::other_from, crate::proofs::ColumnLaws::same_from))]
fn ended(alloc: Global, terms: &[Term], q: Fraction, x: u32) -> Result<Vec<Term>, Memory>
    ensures more { IfOk result (λ made. q ≢ zero → made.items ≡ terms.now ++ (x, q) ∷ []) }
    ensures same { IfOk result (λ made. q ≡ zero → made.items ≡ terms.now) }
{
    let mut made = Vec::from_slice(alloc, terms)?;
    if q.same_number(&Fraction::zero()) {
        return Ok(made);
    }
    made.push((x, q))?;
    Ok(made)
}
