// A form whose coefficients are kept by column in a tree, so that a term is added in logarithmic time.
ghost use Rattle.std.specs.Prelude.{◌≡◌, IfOk};
ghost use Rattle.zim_answer.specs.Answer.{goes};
ghost use Rattle.zim_answer.specs.Gives.{Gives};
ghost use Rattle.zim_linear.specs.Forms.{AreTerms};
ghost use Rattle.zim_forms.specs.Algebra.{form_sum, form_cause};
ghost use Rattle.std.specs.Ordering.{nat_cmp};
ghost use Rattle.std.specs.BTreeMap.{get};
ghost use Rattle.zim_gathered.specs.Added.{coefficient_sum, term_added};

use std::alloc::Global;
use std::collections::BTreeMap;
use std::marker::Model;
use zim_fault::Memory;
use zim_fraction as numbers;
use zim_fraction::Fraction;
use zim_linear::{Form, LinFault, Term};

/// A form by the coefficients of its columns, none of them 0, and its constant.
#[derive(Drop)]
pub(crate) struct ColumnForm {
    coefficients: BTreeMap<u32, Fraction>,
    constant: Fraction,
}

impl Model for ColumnForm {
    ghost use Rattle.zim_linear.specs.Forms.{LinearForm, form_code, form_of, AreTerms};

    ghost Value = { LinearForm };

    ghost coded = { form_code };

    ghost view = { λ f. form_of f.coefficients.entries f.constant };

    ghost invariant = { λ f. AreTerms f.coefficients.entries };
}

impl ColumnForm {
    /// A form, kept by column.
    pub(crate) fn of(alloc: Global, form: &Form) -> Result<ColumnForm, Memory>
        ensures { IfOk result (λ made. made ≡ form.now) }
    {
        Ok(ColumnForm {
            coefficients: by_column(alloc, form.terms())?,
            constant: form.constant_part(),
        })
    }

    /// Adds a form. `Past` as in the sum of the two.
    pub(crate) fn add(&mut self, more: &Form) -> Result<(), LinFault>
        ensures { Gives (λ _. self.new) form_cause (form_sum self.old more.now) result }
    {
        let constant = match numbers::add(self.constant, more.constant_part()) {
            Ok(constant) => constant,
            Err(_) => return Err(LinFault::Past),
        };
        add_terms(&mut self.coefficients, more.terms())?;
        self.constant = constant;
        Ok(())
    }

    /// The form with its terms in column order.
    pub(crate) fn into_form(self, alloc: Global) -> Result<Form, Memory>
        ensures { IfOk result (λ form. form ≡ self) }
    {
        let ColumnForm {
            coefficients,
            constant,
        } = self;
        let terms: Vec<Term> = coefficients.into_iter().collect(alloc)?;
        Ok(Form::of_terms(terms, constant))
    }
}

// The coefficients of terms by their columns.
fn by_column(alloc: Global, terms: &[Term]) -> Result<BTreeMap<u32, Fraction>, Memory>
    requires { AreTerms terms.now }
    ensures { IfOk result (λ made. made.entries ≡ terms.now) }
{
    let mut made = BTreeMap::new(alloc);
    for term in terms {
        made.insert(term.0, term.1)?;
    }
    Ok(made)
}

// Adds terms, one after another.
fn add_terms(coefficients: &mut BTreeMap<u32, Fraction>, terms: &[Term]) -> Result<(), LinFault>
    requires { AreTerms coefficients.old.entries }
    ensures ordered { AreTerms coefficients.new.entries }
    ensures sum { Gives (λ _. coefficients.new.entries) form_cause (goes term_added coefficients.old.entries terms.now) result }
{
    for term in terms {
        add_term(coefficients, term)?;
    }
    Ok(())
}

// Adds a term to the coefficient of its column, which has none where it comes to 0.
fn add_term(coefficients: &mut BTreeMap<u32, Fraction>, term: &Term) -> Result<(), LinFault>
    requires { AreTerms coefficients.old.entries }
    ensures ordered { AreTerms coefficients.new.entries }
    ensures sum { Gives (λ _. coefficients.new.entries) form_cause (term_added coefficients.old.entries term.now) result }
{
    let sum = summed(coefficients, term)?;
    if sum.same_number(&Fraction::zero()) {
        coefficients.remove(&term.0);
    } else {
        coefficients.insert(term.0, sum)?;
    }
    Ok(())
}

// The coefficient of a term's column, with that of the term.
fn summed(coefficients: &BTreeMap<u32, Fraction>, term: &Term) -> Result<Fraction, LinFault>
    ensures { Gives (λ q. q) form_cause (coefficient_sum (get nat_cmp coefficients.now term.now.0) term.now.1) result }
{
    let (column, q) = *term;
    let Some(p) = coefficients.get(&column) else {
        return Ok(q);
    };
    match numbers::add(*p, q) {
        Ok(sum) => Ok(sum),
        Err(_) => Err(LinFault::Past),
    }
}
