// The form that grows, and when it changes over to a tree.
ghost use Rattle.std.specs.Prelude.{◌≡◌, IfOk};
ghost use Rattle.zim_answer.specs.Gives.{Gives};
ghost use Rattle.zim_forms.specs.Algebra.{form_sum, form_cause};

use crate::columns::ColumnForm;
use std::alloc::Global;
use std::marker::Model;
use zim_fault::Memory;
use zim_forms::add_to;
use zim_linear::{Form, LinFault, Term};

/// The most terms of a form to which others are added in place, whatever their columns.
const SHORT: usize = 16;

/// How the form is kept.
#[derive(Drop)]
pub(crate) enum Kept {
    InOrder(Form),
    ByColumn(ColumnForm),
}

/// A form to which others are added.
///
/// As long as the columns of what is added stand behind those of the form, or the form is short, it is kept as
/// a `Form`; from then on its coefficients stand in a tree by column.
#[derive(Drop)]
pub struct GatheredForm {
    alloc: Global,
    kept: Kept,
}

impl Model for GatheredForm {
    ghost use Rattle.zim_linear.specs.Forms.{LinearForm, form_code};
    ghost use Rattle.zim_gathered.specs.Kept.{form_kept};

    ghost Value = { LinearForm };

    ghost coded = { form_code };

    ghost view = { λ f. form_kept f.kept };
}

impl GatheredForm {
    /// The form that a sum begins with.
    pub fn of(alloc: Global, form: Form) -> GatheredForm
        ensures { result ≡ form }
    {
        GatheredForm {
            alloc,
            kept: Kept::InOrder(form),
        }
    }

    /// Adds a form. `Past` exactly where a column stands in both and the sum of its coefficients is past, or the sum of
    /// the constants is. After a fault nothing is said of the form.
    pub fn add(&mut self, more: &Form) -> Result<(), LinFault>
        ensures { Gives (λ _. self.new) form_cause (form_sum self.old more.now) result }
    {
        match &mut self.kept {
            Kept::InOrder(form) => {
                if form.terms().len() <= SHORT || are_behind(form.terms(), more.terms()) {
                    return add_to(form, more);
                }
                let mut columns = ColumnForm::of(self.alloc, form)?;
                columns.add(more)?;
                self.kept = Kept::ByColumn(columns);
                Ok(())
            }
            Kept::ByColumn(columns) => columns.add(more),
        }
    }

    /// The form that the sum has come to.
    pub fn into_form(self) -> Result<Form, Memory>
        ensures { IfOk result (λ form. form ≡ self) }
    {
        let GatheredForm { alloc, kept } = self;
        match kept {
            Kept::InOrder(form) => Ok(form),
            Kept::ByColumn(columns) => columns.into_form(alloc),
        }
    }
}

// Whether both lists have terms, and those of the second stand behind those of the first.
fn are_behind(terms: &[Term], more: &[Term]) -> bool {
    match (terms.last(), more.first()) {
        (Some(s), Some(t)) => s.0 < t.0,
        _ => false,
    }
}
