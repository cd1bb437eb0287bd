// Terms as forms.
ghost use Rattle.std.specs.Prelude.{◌≡◌, ◌≢◌, IsTrue, if◌then◌else◌, length, map, Ok, IfOk};
ghost use Rattle.zim_answer.specs.Gives.{Gives};
ghost use Rattle.zim_linear.specs.Sums.{negated_form};
ghost use Rattle.zim_formula.specs.Ground.{all_hold, term_number};
ghost use Rattle.zim_formula.specs.GroundRules.{divides, is_term_over};
ghost use Rattle.zim_rational.specs.Rational.{zero, one};
ghost use Rattle.zim_rational.specs.Rounding as number;
ghost use Rattle.zim_forms.specs.Exact as exact_number;
ghost use Rattle.zim_forms.specs.Algebra.{form_sum};
ghost use Rattle.zim_rows.specs.Points.{assigned};
ghost use Rattle.zim_rows.specs.Steps.{encode_cause, Encodes};
ghost use Rattle.zim_logic_rows.specs.LogicRows.{past_at};
ghost use Rattle.zim_vabs.specs.Terms.{makes_term, makes_absolute};
ghost use Rattle.zim_vabs.specs.Turns.{term_sum, sum_over_makes, term_multiplied, further_factor, term_product, operands_over, is_divisor};
ghost use Rattle.zim_vabs.specs.Meaning.{FormMade};

use crate::values::absolute_of;
use std::alloc::Global;
use zim_fault::Place;
use zim_forms::{exact_quotient, multiple};
use zim_formula::GTerm;
use zim_fraction::{Fraction, Past};
use zim_gathered::GatheredForm;
use zim_linear as linear;
use zim_linear::{Form, LinFault};
use zim_logic_rows as logic;
use zim_rows::{EncodeFault, RowFrom, System};

/// A term as a form: sums and products are computed from left to right, and an absolute value adds columns and rows
/// where it is reached.
///
/// Rows stand under the statement of `from`. The fault is the first that is met: at the place of an operator `Past` where
/// a number of its form is; at that of an absolute value `CondReal` or `CondUnbounded` where a column of its form, the
/// first such one by number, is real, or integer without both sides, `Past` where one of its numbers is, or
/// `TooManyColumns` or `TooManyRows` where there is no room for its columns and rows. After `Memory` some of the columns
/// and rows may be there.
pub fn form_of(
    alloc: Global,
    system: &mut System,
    from: RowFrom,
    t: &GTerm,
) -> Result<Form, EncodeFault>
    requires { IsTrue (is_term_over (length system.old.columns) t.now) }
    ensures steps { Encodes (λ form. form) (makes_term from.statement t.now) system.old system.new result }
    ensures made { IfOk result (λ form. FormMade system.old system.old (λ p. term_number (assigned p) t.now) form system.new) }
{
    system.valid();
    term(alloc, system, from.statement, t)
}

/// The absolute value of a term as a form. The columns and rows of this absolute value have the place of `from`; all else
/// is as in `form_of`.
pub fn absolute(
    alloc: Global,
    system: &mut System,
    from: RowFrom,
    t: &GTerm,
) -> Result<Form, EncodeFault>
    requires { IsTrue (is_term_over (length system.old.columns) t.now) }
    ensures steps { Encodes (λ form. form) (makes_absolute from t.now) system.old system.new result }
    ensures made { IfOk result (λ form. FormMade system.old system.old (λ p. number.absolute (term_number (assigned p) t.now)) form system.new) }
{
    system.valid();
    absolute_term(alloc, system, from, t)
}

// A term as a form.
#[cycle(term)]
fn term(alloc: Global, system: &mut System, statement: u32, t: &GTerm) -> Result<Form, EncodeFault>
    requires { IsTrue (is_term_over (length system.old.columns) t.now) }
    ensures { Encodes (λ form. form) (makes_term statement t.now) system.old system.new result }
{
    match t {
        GTerm::Known(q) => Ok(Form::constant(alloc, *q)),
        GTerm::Column(j) => Ok(Form::column(alloc, *j)?),
        GTerm::Sum(first, others) => {
            system.valid();
            let form = term(alloc, system, statement, first.get())?;
            sum(alloc, system, statement, form, others.as_slice())
        }
        GTerm::Product(factor, t, others) => {
            let form = term(alloc, system, statement, t.get())?;
            product(alloc, form, factor, others.as_slice())
        }
        GTerm::Minus(_, t) => {
            let form = term(alloc, system, statement, t.get())?;
            Ok(linear::negated(alloc, &form)?)
        }
        GTerm::SumOver(place, members) => {
            sum_over(alloc, system, statement, *place, members.as_slice())
        }
        GTerm::Abs(place, t) => {
            let from = RowFrom {
                statement,
                place: *place,
            };
            absolute_term(alloc, system, from, t.get())
        }
    }
}

// The absolute value of a term.
#[cycle(term)]
fn absolute_term(
    alloc: Global,
    system: &mut System,
    from: RowFrom,
    t: &GTerm,
) -> Result<Form, EncodeFault>
    requires { IsTrue (is_term_over (length system.old.columns) t.now) }
    ensures { Encodes (λ form. form) (makes_absolute from t.now) system.old system.new result }
{
    system.valid();
    let form = term(alloc, system, from.statement, t)?;
    absolute_of(alloc, system, from, &form)
}

// A form and the operands that are added to it or taken from it.
#[cycle(term)]
fn sum(
    alloc: Global,
    system: &mut System,
    statement: u32,
    first: Form,
    others: &[(Place, bool, GTerm)],
) -> Result<Form, EncodeFault>
    requires { IsTrue (operands_over (length system.old.columns) others.now) }
    ensures { Encodes (λ form. form) (λ s. term_sum statement (first, s) others.now) system.old system.new result }
{
    let mut sum = GatheredForm::of(alloc, first);
    for operand in others {
        system.valid();
        let (place, minus, t) = operand;
        let form = term(alloc, system, statement, t)?;
        add_signed(alloc, *place, &mut sum, *minus, &form)?;
    }
    Ok(sum.into_form()?)
}

// The sum of members, 0 of none.
#[cycle(term)]
fn sum_over(
    alloc: Global,
    system: &mut System,
    statement: u32,
    place: Place,
    members: &[GTerm],
) -> Result<Form, EncodeFault>
    requires { IsTrue (all_hold (map (is_term_over (length system.old.columns)) members.now)) }
    ensures { Encodes (λ form. form) (sum_over_makes statement place members.now) system.old system.new result }
{
    let mut sum = GatheredForm::of(alloc, Form::constant(alloc, Fraction::zero()));
    for member in members {
        system.valid();
        let form = term(alloc, system, statement, member)?;
        add(place, &mut sum, &form)?;
    }
    Ok(sum.into_form()?)
}

// Adds a form to a sum, or takes it from it, at the place of the operator.
fn add_signed(
    alloc: Global,
    place: Place,
    sum: &mut GatheredForm,
    minus: bool,
    form: &Form,
) -> Result<(), EncodeFault>
    ensures { Gives (λ _. sum.new) encode_cause (past_at place (form_sum sum.old (if minus then negated_form form.now else form.now))) result }
{
    if minus {
        let turned = linear::negated(alloc, form)?;
        return add(place, sum, &turned);
    }
    add(place, sum, form)
}

// Adds a form to a sum at a place.
fn add(place: Place, sum: &mut GatheredForm, form: &Form) -> Result<(), EncodeFault>
    ensures { Gives (λ _. sum.new) encode_cause (past_at place (form_sum sum.old form.now)) result }
{
    match sum.add(form) {
        Ok(()) => Ok(()),
        Err(fault) => Err(logic::past_at(place, fault)),
    }
}

// A form times the factor before it and the numbers behind it.
fn product(
    alloc: Global,
    form: Form,
    factor: &Option<(Fraction, Place)>,
    others: &[(Place, bool, Fraction)],
) -> Result<Form, EncodeFault>
    requires { IsTrue (divides others.now) }
    ensures { Gives (λ form. form) encode_cause (term_product factor.now others.now form) result }
{
    let mut form = with_factor(alloc, form, factor)?;
    for other in others {
        form = times(alloc, form, other)?;
    }
    Ok(form)
}

// A form times the factor before it, where there is one.
fn with_factor(
    alloc: Global,
    form: Form,
    factor: &Option<(Fraction, Place)>,
) -> Result<Form, EncodeFault>
    ensures { Gives (λ form. form) encode_cause (term_multiplied factor.now form) result }
{
    match factor {
        None => Ok(form),
        Some((q, place)) => match multiple(alloc, &form, *q) {
            Ok(form) => Ok(form),
            Err(fault) => Err(logic::past_at(*place, fault)),
        },
    }
}

// A form times a number, or over it.
fn times(alloc: Global, form: Form, other: &(Place, bool, Fraction)) -> Result<Form, EncodeFault>
    requires { IsTrue (is_divisor other.now) }
    ensures { Gives (λ form. form) encode_cause (further_factor form other.now) result }
{
    let (place, over, number) = other;
    let q = match scale(*over, *number) {
        Ok(q) => q,
        Err(_) => return Err(logic::past_at(*place, LinFault::Past)),
    };
    match multiple(alloc, &form, q) {
        Ok(form) => Ok(form),
        Err(fault) => Err(logic::past_at(*place, fault)),
    }
}

// The number that a form is multiplied by: the reciprocal of a divisor.
fn scale(over: bool, number: Fraction) -> Result<Fraction, Past>
    requires { IsTrue over → number ≢ zero }
    ensures { result ≡ (if over then exact_number.exact_quotient one number else Ok number) }
{
    if over {
        exact_quotient(Fraction::one(), number)
    } else {
        Ok(number)
    }
}
