// Multiples of forms.
ghost use Rattle.zim_linear.specs.Forms.{AreTerms};
ghost use Rattle.zim_linear.specs.Answers.{FormAnswer};
ghost use Rattle.zim_linear.specs.Multiples.{IsMultipleWithin, IsMultipleOf, ScaledAnswer, ProductAnswer};

use crate::faults::LinFault;
use crate::form::{Form, Term};
use std::alloc::Global;
use zim_fraction as numbers;
use zim_fraction::Fraction;

/// a times q. `Past` exactly where the product of q with a coefficient or with the constant is past.
pub fn scale(alloc: Global, a: &Form, q: Fraction) -> Result<Form, LinFault>
    ensures { FormAnswer (IsMultipleWithin a.now q) (IsMultipleOf a.now q) result }
{
    let terms = scaled(alloc, a.terms(), q)?;
    match numbers::mul(a.constant_part(), q) {
        Ok(constant) => Ok(Form::of_terms(terms, constant)),
        Err(_) => Err(LinFault::Past),
    }
}

// The terms with their coefficients times q, none of those that are 0.
fn scaled(alloc: Global, mut rest: &[Term], q: Fraction) -> Result<Vec<Term>, LinFault>
    requires { AreTerms rest.now }
    ensures { ScaledAnswer (λ v. v.items) rest.now q result }
{
    let mut made = Vec::new(alloc);
    while let Some((t, more)) = rest.split_first() {
        push_product(&mut made, t, q)?;
        rest = more;
    }
    Ok(made)
}

// Adds a term with its coefficient times q at the end, but no term where that is 0.
fn push_product(made: &mut Vec<Term>, t: &Term, q: Fraction) -> Result<(), LinFault>
    ensures { ProductAnswer made.old.items t.now q made.new.items result }
{
    let product = match numbers::mul(t.1, q) {
        Ok(product) => product,
        Err(_) => return Err(LinFault::Past),
    };
    if !product.same_number(&Fraction::zero()) {
        made.push((t.0, product))?;
    }
    Ok(())
}
