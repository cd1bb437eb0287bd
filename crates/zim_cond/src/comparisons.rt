// Comparisons of terms as literals.
ghost use Rattle.std.specs.Prelude.{◌≡◌, IsTrue, ◌&&◌, length};
ghost use Rattle.zim_linear.specs.Forms.{AreColumns};
ghost use Rattle.zim_formula.specs.GroundRules.{is_term_over};
ghost use Rattle.zim_rows.specs.Steps.{Encodes};
ghost use Rattle.zim_cond.specs.Conditions as steps;
ghost use Rattle.zim_logic_rows.specs.Truth as exact;
ghost use Rattle.zim_cond.specs.Conditions.{difference_of, compared_form, comparison_literal, signed_column, comparison_makes};

use crate::columns::{equal_column, truth_column};
use std::alloc::Global;
use zim_fault::Relation;
use zim_forms as forms;
use zim_formula::GTerm;
use zim_fraction::Fraction;
use zim_linear::Form;
use zim_logic_rows::{Literal, Ranged, past_at};
use zim_rows::{EncodeFault, RowFrom, System};
use zim_vabs::{form_of, ranged_at};

/// The form of the left term less that of the right one. `Past` at the place of `from` where a number of the difference is;
/// every other fault is that of a term.
pub fn difference(
    alloc: Global,
    system: &mut System,
    from: RowFrom,
    left: &GTerm,
    right: &GTerm,
) -> Result<Form, EncodeFault>
    requires left { IsTrue (is_term_over (length system.old.columns) left.now) }
    requires right { IsTrue (is_term_over (length system.old.columns) right.now) }
    ensures { Encodes (λ form. form) (difference_of from.statement from.place left.now right.now) system.old system.new result }
{
    system.valid();
    let f = form_of(alloc, system, from, left)?;
    let g = form_of(alloc, system, from, right)?;
    match forms::difference(alloc, &f, &g) {
        Ok(form) => Ok(form),
        Err(fault) => Err(past_at(from.place, fault)),
    }
}

/// The literal of a comparison of two terms.
pub(crate) fn comparison(
    alloc: Global,
    system: &mut System,
    from: RowFrom,
    relation: Relation,
    left: &GTerm,
    right: &GTerm,
) -> Result<Literal, EncodeFault>
    requires left { IsTrue (is_term_over (length system.old.columns) left.now) }
    requires right { IsTrue (is_term_over (length system.old.columns) right.now) }
    ensures { Encodes (λ l. l) (comparison_makes from relation left.now right.now) system.old system.new result }
{
    system.valid();
    let form = difference(alloc, system, from, left, right)?;
    compared(alloc, system, from, relation, &form)
}

// The literal of a comparison of a form with 0.
fn compared(
    alloc: Global,
    system: &mut System,
    from: RowFrom,
    relation: Relation,
    form: &Form,
) -> Result<Literal, EncodeFault>
    requires { AreColumns (length system.old.columns) form.now.terms }
    ensures { Encodes (λ l. l) (compared_form from relation form.now) system.old system.new result }
{
    system.valid();
    let multiple = ranged_at(alloc, system, from.place, form)?;
    compared_with_zero(alloc, system, from, relation, &multiple.ranged)
}

// The literal of a comparison of T with 0.
fn compared_with_zero(
    alloc: Global,
    system: &mut System,
    from: RowFrom,
    relation: Relation,
    t: &Ranged,
) -> Result<Literal, EncodeFault>
    requires { AreColumns (length system.old.columns) t.now.form.terms }
    ensures { Encodes (λ l. l) (comparison_literal from relation t.now) system.old system.new result }
{
    match relation {
        Relation::AtLeast => signed(alloc, system, from, t, Fraction::zero(), true),
        Relation::GreaterThan => signed(alloc, system, from, t, Fraction::one(), true),
        Relation::LessThan => signed(alloc, system, from, t, Fraction::zero(), false),
        Relation::AtMost => signed(alloc, system, from, t, Fraction::one(), false),
        Relation::EqualTo => equal(alloc, system, from, t, true),
        Relation::NotEqualTo => equal(alloc, system, from, t, false),
    }
}

// The truth column of `T >= c`, or its negation.
pub(crate) fn signed(
    alloc: Global,
    system: &mut System,
    from: RowFrom,
    t: &Ranged,
    c: Fraction,
    positive: bool,
) -> Result<Literal, EncodeFault>
    requires { AreColumns (length system.old.columns) t.now.form.terms }
    ensures { Encodes (λ l. l) (signed_column (exact.truth_column from c t.now) positive) system.old system.new result }
{
    let column = truth_column(alloc, system, from, t, c)?;
    Ok(Literal { column, positive })
}

// The column of `T == 0`, or its negation.
fn equal(
    alloc: Global,
    system: &mut System,
    from: RowFrom,
    t: &Ranged,
    positive: bool,
) -> Result<Literal, EncodeFault>
    requires { AreColumns (length system.old.columns) t.now.form.terms }
    ensures { Encodes (λ l. l) (signed_column (steps.equal_column from t.now) positive) system.old system.new result }
{
    let column = equal_column(alloc, system, from, t)?;
    Ok(Literal { column, positive })
}
