// The type, and the forms that are given by a number or a column.
ghost use Rattle.std.specs.Prelude.{◌≡◌, [], ◌∷◌, ◌++◌, IfOk, OnOk, OnErr};
ghost use Rattle.zim_rational.specs.Rational.{zero, one};
ghost use Rattle.zim_linear.specs.Forms.{AreTerms, form_of};

use std::alloc::Global;
use std::marker::Model;
use zim_fault::Memory;
use zim_fraction::Fraction;

/// A column by its number, and its coefficient.
pub type Term = (u32, Fraction);

/// A linear form: terms in column order, none with coefficient 0, and a constant.
#[derive(Debug, Drop)]
pub struct Form {
    terms: Vec<Term>,
    constant: Fraction,
}

impl Model for Form {
    ghost use Rattle.zim_linear.specs.Forms.{LinearForm, form_code, form_of, AreTerms};

    ghost Value = { LinearForm };

    ghost coded = { form_code };

    ghost view = { λ f. form_of f.terms.items f.constant };

    ghost invariant = { λ f. AreTerms f.terms.items };
}

impl Form {
    /// The form that is q at every assignment.
    pub fn constant(alloc: Global, q: Fraction) -> Form
        ensures { result ≡ form_of [] q }
    {
        Form {
            terms: Vec::new(alloc),
            constant: q,
        }
    }

    /// The form that is the value of column j.
    pub fn column(alloc: Global, j: u32) -> Result<Form, Memory>
        ensures { IfOk result (λ form. form ≡ form_of ((j, one) ∷ []) zero) }
    {
        let mut terms = Vec::new(alloc);
        terms.push((j, Fraction::one()))?;
        Ok(Form {
            terms,
            constant: Fraction::zero(),
        })
    }

    /// The columns with their coefficients, which are not 0, in column order.
    pub fn terms(&self) -> &[Term]
        ensures value { result.now ≡ self.now.terms }
        ensures ordered { AreTerms self.now.terms }
    {
        self.terms.as_slice()
    }

    /// What is added to the terms.
    pub fn constant_part(&self) -> Fraction
        ensures { result ≡ self.now.constant }
    {
        self.constant
    }

    // The allocator that the terms are kept by.
    pub(crate) fn allocator(&self) -> Global {
        *self.terms.allocator()
    }

    // Adds terms at the end and sets the constant; after `Memory` the form is as before.
    pub(crate) fn append(&mut self, more: &[Term], constant: Fraction) -> Result<(), Memory>
        requires { AreTerms (self.old.terms ++ more.now) }
        ensures ok { OnOk result (self.new ≡ form_of (self.old.terms ++ more.now) constant) }
        ensures err { OnErr result (self.new ≡ self.old) }
    {
        self.terms.extend_from_slice(more)?;
        self.constant = constant;
        Ok(())
    }

    /// The form of terms in column order, none with coefficient 0, and a constant.
    pub fn of_terms(terms: Vec<Term>, constant: Fraction) -> Form
        requires { AreTerms terms.items }
        ensures { result ≡ form_of terms.items constant }
    {
        Form { terms, constant }
    }
}
