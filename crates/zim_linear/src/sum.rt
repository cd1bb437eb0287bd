// Sums and differences of forms.
ghost use Rattle.std.specs.Prelude.{◌≡◌, ◌++◌, IsTrue, IfOk};
ghost use Rattle.zim_linear.specs.Forms.{AreTerms};
ghost use Rattle.zim_linear.specs.Answers.{FormAnswer};
ghost use Rattle.zim_linear.specs.Sums as exact;
ghost use Rattle.zim_linear.specs.Sums.{IsSumWithin, IsSumOf, TermsAnswer, PushAnswer, AddedAnswer, negated_form, IsDifferenceWithin, IsDifferenceOf};

use crate::faults::LinFault;
use crate::form::{Form, Term};
use std::alloc::Global;
use zim_fault::Memory;
use zim_fraction as numbers;
use zim_fraction::Fraction;

/// a + b. `Past` exactly where a column stands in both and the sum of its coefficients is past, or the
/// sum of the constants is. The time is that of the terms of both: a long sum is made by `add_to`.
pub fn add(alloc: Global, a: &Form, b: &Form) -> Result<Form, LinFault>
    ensures { FormAnswer (IsSumWithin a.now b.now) (IsSumOf a.now b.now) result }
{
    let terms = merge(alloc, a.terms(), b.terms())?;
    match numbers::add(a.constant_part(), b.constant_part()) {
        Ok(constant) => Ok(Form::of_terms(terms, constant)),
        Err(_) => Err(LinFault::Past),
    }
}

/// Adds `more` to a form, with the answer of `add`; after a fault the form is as before.
///
/// Where all columns of `more` stand after those of the form, the time is that of `more` alone, else it is
/// that of `add`. So a long sum is made from the left, each part added to one form: where the columns of
/// the parts follow each other in order, that takes time proportional to the number of terms.
pub fn add_to(form: &mut Form, more: &Form) -> Result<(), LinFault>
    ensures { AddedAnswer form.old more.now form.new result }
{
    let constant = match numbers::add(form.constant_part(), more.constant_part()) {
        Ok(constant) => constant,
        Err(_) => return Err(LinFault::Past),
    };
    if all_after(form.terms(), more.terms()) {
        form.append(more.terms(), constant)?;
        return Ok(());
    }
    let terms = merge(form.allocator(), form.terms(), more.terms())?;
    *form = Form::of_terms(terms, constant);
    Ok(())
}

// Whether both lists have terms and those of the second all stand after those of the first.
fn all_after(left: &[Term], right: &[Term]) -> bool
    requires left_terms { AreTerms left.now }
    requires right_terms { AreTerms right.now }
    ensures { IsTrue result → AreTerms (left.now ++ right.now) }
{
    match (left.last(), right.first()) {
        (Some(s), Some(t)) => s.0 < t.0,
        _ => false,
    }
}

// The terms of both lists in column order, those of one column added and dropped where they are 0.
fn merge(alloc: Global, mut left: &[Term], mut right: &[Term]) -> Result<Vec<Term>, LinFault>
    requires left_terms { AreTerms left.now }
    requires right_terms { AreTerms right.now }
    ensures { TermsAnswer (λ v. v.items) left.now right.now result }
{
    let mut made = Vec::new(alloc);
    while let (Some((s, more)), Some((t, others))) = (left.split_first(), right.split_first()) {
        if s.0 < t.0 {
            made.push(*s)?;
            left = more;
            continue;
        }
        if t.0 < s.0 {
            made.push(*t)?;
            right = others;
            continue;
        }
        push_sum(&mut made, s, t)?;
        left = more;
        right = others;
    }
    made.extend_from_slice(left)?;
    made.extend_from_slice(right)?;
    Ok(made)
}

// Adds the sum of two terms of one column at the end, but no term where the coefficients add up to 0.
fn push_sum(made: &mut Vec<Term>, s: &Term, t: &Term) -> Result<(), LinFault>
    ensures { PushAnswer made.old.items s.now t.now made.new.items result }
{
    let q = match numbers::add(s.1, t.1) {
        Ok(q) => q,
        Err(_) => return Err(LinFault::Past),
    };
    if !q.same_number(&Fraction::zero()) {
        made.push((s.0, q))?;
    }
    Ok(())
}

/// a - b, with `Past` as in `add` of a and -b.
pub fn sub(alloc: Global, a: &Form, b: &Form) -> Result<Form, LinFault>
    ensures { FormAnswer (IsDifferenceWithin a.now b.now) (IsDifferenceOf a.now b.now) result }
{
    let turned = negated(alloc, b)?;
    add(alloc, a, &turned)
}

/// -a, the form with all its signs turned.
pub fn negated(alloc: Global, a: &Form) -> Result<Form, Memory>
    ensures { IfOk result (λ form. form ≡ negated_form a.now) }
{
    let terms = negated_terms(alloc, a.terms())?;
    Ok(Form::of_terms(terms, numbers::negated(a.constant_part())))
}

// The terms with the signs of their coefficients turned.
fn negated_terms(alloc: Global, terms: &[Term]) -> Result<Vec<Term>, Memory>
    ensures { IfOk result (λ made. made.items ≡ exact.negated_terms terms.now) }
{
    let turned = terms.iter().map(|t| (t.0, numbers::negated(t.1)));
    Ok(turned.collect(alloc)?)
}
